// Kinds of value that a campaign text can hold: how their fields are written, and how they are read back.
ghost use Rattle.std.specs.Prelude.{◌≡◌, ℕ, ◌≤◌, List, [], ◌∷◌, length, IfOk, Some, None, Ok, string_bytes, Option, Result};
ghost use Rattle.cuts.specs.Cuts.{Lacks};
ghost use Rattle.fields.specs.Kinds.{kind_word, KindBy};
ghost use Rattle.fields.specs.declared.kinds.ValueKind.{ValueKind as Kinds};
ghost use Rattle.text_faults.specs.Causes.{as_read};
ghost use Rattle.faults.specs.declared.causes.ValueFault.{ValueFault};

use std::alloc::{AllocError, Global};
use std::fmt;
use text_faults::LineFault;
use values::Kind;

// The kind of a campaign's values.
#[derive(Clone, Copy, Debug, PartialEq, Eq)]
pub enum ValueKind {
    Notices,
    Pulses,
}

// The word that a campaign text has for it.
impl fmt::Display for ValueKind {
    ghost output = { λ k. Some (kind_word k) };

    fn fmt<W: fmt::Write>(&self, f: &mut fmt::Formatter<W>) -> fmt::Result {
        f.write_str(match self {
            ValueKind::Notices => "notice",
            ValueKind::Pulses => "pulse",
        })
    }
}

impl TryFrom<&[u8]> for ValueKind {
    type Error = LineFault;

    ghost try_from_gives = { λ word r. KindBy word.now r };

    fn try_from(word: &[u8]) -> Result<ValueKind, LineFault> {
        match word {
            b"notice" => Ok(ValueKind::Notices),
            b"pulse" => Ok(ValueKind::Pulses),
            _ => Err(LineFault::Form),
        }
    }
}

pub trait Written: Kind {
    // The word of the kind line.
    ghost kind: { Kinds };

    // The fields of a value as bytes.
    ghost shows: { Self → List ℕ };

    // The value that fields stand for: nothing where they have not the form of this kind, a fault where a number of
    // them is out of range.
    ghost reads: { List ℕ → Option (Result Self ValueFault) };

    // Every number of the value is one that the format can write.
    ghost fits: { Self → Type 0 };

    fn kind() -> ValueKind
    where
        Self: Sized,
        ensures { result ≡ kind };

    fn read(s: &[u8]) -> Result<Self, LineFault>
    where
        Self: Sized,
        ensures { as_read result ≡ reads s.now };

    // The fields as text. Not a `Display`: its output could not say that every number fits.
    fn written(&self, heap: Global) -> Result<String, AllocError>
        ensures { IfOk result (λ t. (string_bytes t ≡ shows self.now) × fits self.now) };

    ghost back: { (s : List ℕ) (v : Self) → reads s ≡ Some (Ok v) → (s ≡ shows v) × fits v };

    ghost forth: { (v : Self) → fits v → reads (shows v) ≡ Some (Ok v) };

    // Fields stand on one line, are short, and never are the dash that stands for no value.
    ghost unbroken: { (v : Self) → fits v → Lacks 10 (shows v) };

    ghost brief: { (v : Self) → fits v → length (shows v) ≤ 20 };

    ghost undashed: { reads (45 ∷ []) ≡ None };
}
