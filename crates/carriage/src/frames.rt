// What controllers send: triples, and the frames that carry them.
ghost use Rattle.carriage.specs.Triples.{in_range, slot_of, triple_text};
ghost use Rattle.std.specs.Prelude.{◌≡◌, Some};

use groups::Group;
use std::fmt;

// Controller `origin` vouches in a round for the value at a place of the list.
#[derive(Clone, Copy, Debug, PartialEq, Eq)]
pub struct Triple {
    pub origin: u16,
    pub place: u16,
    pub round: u16,
}

impl Triple {
    // The origin is in the group, the place on a list of `len` values, the round one of 1 to t + 1.
    pub fn in_range(self, group: &Group, len: u16) -> bool
        ensures { result ≡ in_range group.now len self }
    {
        self.origin < group.n()
            && self.place < len
            && self.round >= 1
            && self.round <= group.t() + 1
    }

    // Where a table of 384 cells keeps what is known of this triple: no two triples in range share a cell.
    pub fn slot(self) -> usize
        ensures { result ≡ slot_of self }
    {
        let origin = self.origin as usize % 16;
        let place = self.place as usize % 4;
        let round = (self.round as usize + 5) % 6;
        origin + 16 * place + 64 * round
    }
}

impl fmt::Display for Triple {
    ghost output = { λ x. Some (triple_text x) };

    fn fmt<W: fmt::Write>(&self, f: &mut fmt::Formatter<W>) -> fmt::Result {
        let Triple {
            origin,
            place,
            round,
        } = *self;
        write!(f, "({origin},{place},{round})")
    }
}

// A frame from one controller to another. The letter says what it means: i (init), e (echo) or s (seal). It is kept
// as a byte and not as an enum: a text may have any byte there, and a carriage refuses with a fault those that it does not read.
#[derive(Clone, Copy, Debug, PartialEq, Eq)]
pub struct Frame {
    pub from: u16,
    pub to: u16,
    pub triple: Triple,
    letter: u8,
}

impl Frame {
    pub fn new(from: u16, to: u16, letter: u8, triple: Triple) -> Frame
        ensures { (result.from ≡ from) × (result.to ≡ to) × (result.letter ≡ letter) × (result.triple ≡ triple) }
    {
        Frame {
            from,
            to,
            triple,
            letter,
        }
    }

    pub fn letter(&self) -> char
        ensures { result ≡ self.now.letter }
    {
        self.letter as char
    }
}
