// The carriages that a campaign can run over, and their words.
ghost use Rattle.std.specs.Prelude.{Some};
ghost use Rattle.headers.specs.Carriages.{carriage_word, CarriageBy};

use std::fmt;
use text_faults::LineFault;

// The carriage that a campaign runs over.
#[derive(Clone, Copy, Debug, PartialEq, Eq)]
pub enum CarriageKind {
    Echo,
    Seal,
}

// The word that a campaign text has for it.
impl fmt::Display for CarriageKind {
    ghost output = { λ c. Some (carriage_word c) };

    fn fmt<W: fmt::Write>(&self, f: &mut fmt::Formatter<W>) -> fmt::Result {
        f.write_str(match self {
            CarriageKind::Echo => "echo",
            CarriageKind::Seal => "seal",
        })
    }
}

impl TryFrom<&[u8]> for CarriageKind {
    type Error = LineFault;

    ghost try_from_gives = { λ word r. CarriageBy word.now r };

    fn try_from(word: &[u8]) -> Result<CarriageKind, LineFault> {
        match word {
            b"echo" => Ok(CarriageKind::Echo),
            b"seal" => Ok(CarriageKind::Seal),
            _ => Err(LineFault::Form),
        }
    }
}
