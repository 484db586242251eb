// The smallest parts of a line: pieces between separators, and decimal numbers.
#![tactic(auto)]

ghost use Rattle.std.specs.Prelude.{◌≡◌, ℕ, List, [], ◌∷◌, Some, None, MatchOption, Option, position, ◌==◌};
ghost use Rattle.cuts.specs.Cuts.{cut_at, digits_from, decode, single, field_by, field_number, field_letter, keyed};
ghost use Rattle.std.specs.Str.{bytes_eq};
ghost use Rattle.std.specs.Fn.{FnOnceReturnsAt};

// The first place that holds `mark`.
fn place(s: &[u8], mark: u8) -> Option<usize>
    ensures { result ≡ position (λ b. b == mark) s.now }
{
    s.iter().position(|b| *b == mark)
}

// What stands before the first `mark` and what stands after it, if there is one.
#[tactic(auto, using(crate::proofs::Pieces::cut_some, crate::proofs::Pieces::cut_none))]
pub fn cut(s: &[u8], mark: u8) -> Option<(&[u8], &[u8])>
    ensures { MatchOption result (cut_at mark s.now ≡ None) (λ p. cut_at mark s.now ≡ Some (p.0.now, p.1.now)) }
{
    let i = place(s, mark)?;
    Some((&s[..i], &s[i + 1..]))
}

// The number that a row of digits writes, if it is at most 65535.
fn digits(field: &[u8]) -> Option<u16>
    ensures { result ≡ digits_from 0 field.now }
{
    let mut n: u16 = 0;
    for b in field {
        if !b.is_ascii_digit() {
            return None;
        }
        n = n.checked_mul(10)?.checked_add(u16::from(*b - b'0'))?;
    }
    Some(n)
}

// A number of the format: decimal, at most 65535, no sign and no leading zero.
pub fn number(field: &[u8]) -> Option<u16>
    ensures { result ≡ decode field.now }
{
    match field {
        [] | [b'0', _, ..] => None,
        _ => digits(field),
    }
}

// The letter of a field that holds one byte.
fn letter(field: &[u8]) -> Option<char>
    ensures { result ≡ single field.now }
{
    match field {
        [c] => Some(*c as char),
        _ => None,
    }
}

// What a field is read as, and what stands behind the comma after it.
fn field<T, F: FnOnce(&[u8]) -> Option<T>>(s: &[u8], read: F) -> Option<(T, &[u8])>
    requires { F.IsAlwaysCallable read }
    ensures { (f : List ℕ → Option T) → ((front : List ℕ) (r : Option T) → FnOnceReturnsAt F.FnOnce read front r → r ≡ f front) → MatchOption result (field_by f s.now ≡ None) (λ p. field_by f s.now ≡ Some (p.0, p.1.now)) }
{
    let (front, rest) = cut(s, b',')?;
    Some((read(front)?, rest))
}

// A number, the comma after it, and what stands behind that.
pub fn number_field(s: &[u8]) -> Option<(u16, &[u8])>
    ensures { MatchOption result (field_number s.now ≡ None) (λ p. field_number s.now ≡ Some (p.0, p.1.now)) }
{
    field(s, number)
}

// A letter, the comma after it, and what stands behind that.
pub fn letter_field(s: &[u8]) -> Option<(char, &[u8])>
    ensures { MatchOption result (field_letter s.now ≡ None) (λ p. field_letter s.now ≡ Some (p.0, p.1.now)) }
{
    field(s, letter)
}

// Whether the field is the dash that stands for nothing.
pub fn is_dash(field: &[u8]) -> bool
    ensures { result ≡ bytes_eq field.now (45 ∷ []) }
{
    matches!(field, b"-")
}

// What stands behind the key and its equals sign, if the line has this key.
pub fn keyed_line<'a>(line: &'a [u8], key: &[u8]) -> Option<&'a [u8]>
    ensures { MatchOption result (keyed key.now line.now ≡ None) (λ b. keyed key.now line.now ≡ Some b.now) }
{
    let (front, body) = cut(line, b'=')?;
    (front == key).then_some(body)
}
