// Where a reader stands.
ghost use Rattle.reader.specs.Reading.{left, start};
ghost use Rattle.std.specs.Prelude.{◌≡◌, length, ◌==◌};

use crate::Reader;
use crate::guard::rest;

impl<'a> Reader<'a> {
    // A reader before the first line.
    pub fn new(text: &'a [u8]) -> Reader<'a>
        ensures { result ≡ start text.entry }
    {
        Reader {
            text,
            place: 0,
            line: 1,
        }
    }
}

impl Reader<'_> {
    // The number of the line that the reader stands before.
    pub fn line(&self) -> usize
        ensures { result ≡ self.now.line }
    {
        self.line
    }

    // Whether the text ends here: acts end where the text does.
    pub fn at_end(&self) -> bool
        ensures { result ≡ (length (left self.now) == 0) }
    {
        rest(self.text, self.place).is_empty()
    }
}
