// A guard over the reader's place: it puts the place back at its end, unless the line was accepted.
ghost use Rattle.std.specs.Prelude.{◌≡◌, ℕ, ◌+◌, ◌≤◌, length, drop, Some, None, Ok, Err, MatchResult};
ghost use Rattle.std.specs.Option.{unwrap_or};
ghost use Rattle.reader.specs.Lines.{line_in};
ghost use Rattle.reader.specs.Reading.{at, next, taken};

use cuts::cut;
use fields::Form;
use text_faults::{TextCause, TextFault};

// The line is missing, too long, or has no line feed.
#[derive(Clone, Copy)]
pub(crate) struct NoLine;

pub(crate) struct Guard<'b> {
    place: &'b mut usize,

    // Where the place is put back to.
    back: Option<usize>,
}

impl Drop for Guard<'_> {
    fn drop(self)
        ensures { self.exit.0.now ≡ unwrap_or self.entry.back self.entry.place.now }
    {
        if let Some(from) = self.back {
            *self.place = from;
        }
        let Guard { place: _, back: _ } = self;
    }
}

// What is left of the text from a place on.
pub(crate) fn rest(text: &[u8], place: usize) -> &[u8]
    ensures { result.now ≡ drop place text.now }
{
    text.get(place..).unwrap_or(&[])
}

// The line at the start of a text: at most 64 bytes before its line feed.
pub(crate) fn whole_line(text: &[u8]) -> Result<&[u8], NoLine>
    ensures { MatchResult result (λ l. (line_in text.now ≡ Some (l.now, drop (length l.now + 1) text.now)) × (length l.now + 1 ≤ length text.now)) (λ _. line_in text.now ≡ None) }
{
    match cut(text, b'\n') {
        Some((line, _)) if line.len() <= 64 => Ok(line),
        _ => Err(NoLine),
    }
}

impl<'b> Guard<'b> {
    pub(crate) fn before(place: &'b mut usize) -> Guard<'b>
        ensures { (result.place.ghost_name ≡ place.entry.ghost_name) × (result.place.now ≡ place.old) × (result.back ≡ Some place.old) }
    {
        let back = Some(*place);
        Guard { place, back }
    }
}

impl Guard<'_> {
    // Goes past the line that stands at the place, if there is one.
    pub(crate) fn line<'t>(&mut self, text: &'t [u8]) -> Result<&'t [u8], NoLine>
        ensures same { self.new.place.ghost_name ≡ self.old.place.ghost_name }
        ensures kept { self.new.back ≡ self.old.back }
        ensures cases { MatchResult result (λ l. (line_in (drop self.old.place.now text.now) ≡ Some (l.now, drop self.new.place.now text.now)) × (self.new.place.now ≡ self.old.place.now + (length l.now + 1))) (λ _. line_in (drop self.old.place.now text.now) ≡ None) }
    {
        let place = *self.place;
        let left = rest(text, place);
        let line = whole_line(left)?;
        *self.place = place + (line.len() + 1);
        Ok(line)
    }

    // Reads the line at the place, whose number is given, by a form: first the line must be there, then have the form, then
    // its numbers be in range.
    pub(crate) fn read<T, F: Form<T>>(
        &mut self,
        text: &[u8],
        form: &F,
        number: usize,
    ) -> Result<T, TextFault>
        ensures same { self.new.place.ghost_name ≡ self.old.place.ghost_name }
        ensures kept { self.new.back ≡ self.old.back }
        ensures cases { MatchResult result (λ v. taken (F.Form.meant form.now) (at text.entry self.old.place.now number) ≡ (Ok v, at text.entry self.new.place.now (next number))) (λ e. taken (F.Form.meant form.now) (at text.entry self.old.place.now number) ≡ (Err e, at text.entry self.old.place.now number)) }
    {
        // By the rule for header lines: each is taken apart by `let Ok(..) = .. else`.
        let Ok(line) = self.line(text) else {
            return Err(TextFault::at(number, TextCause::Missing));
        };
        form.read(line).map_err(|e| TextFault::at(number, e))
    }

    // The line stands: the place is not put back.
    pub(crate) fn accept(&mut self)
        ensures same { self.new.place.ghost_name ≡ self.old.place.ghost_name }
        ensures kept { (self.new.place.now ≡ self.old.place.now) × (self.new.back ≡ None) }
    {
        self.back = None;
    }
}
