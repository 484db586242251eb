// Errors of calls that write: a fault, or want of memory, which has no number.
ghost use Rattle.text_faults.specs.declared.writes.WriteError.TheVariants.{Fault as Refusal, Memory as NoMemory};
ghost use Rattle.text_faults.specs.declared.writes.WriteFault.TheVariants.{List as OfList};
ghost use Rattle.std.specs.Prelude.{◌≡◌, Some};
ghost use Rattle.text_faults.specs.Faults.{write_number, write_layer, write_words};

use faults::{Fault, Layer, ListFault};
use std::alloc::AllocError;
use std::error::Error;
use std::fmt;

// Why a campaign is not written.
#[derive(Clone, Copy, Debug, PartialEq, Eq)]
pub enum WriteFault {
    List(ListFault),
    // The buffer is too short.
    Short,
}

impl Fault for WriteFault {
    ghost numbered = { write_number };

    ghost layered = { write_layer };

    ghost worded = { write_words };

    fn number(&self) -> u16 {
        match self {
            WriteFault::List(e) => e.number(),
            WriteFault::Short => 21,
        }
    }

    fn layer(&self) -> Layer {
        match self {
            WriteFault::List(e) => e.layer(),
            WriteFault::Short => Layer::Text,
        }
    }

    fn words(&self) -> &'static str {
        match self {
            WriteFault::List(e) => e.words(),
            WriteFault::Short => "buffer too short",
        }
    }
}

impl fmt::Display for WriteFault {
    ghost output = { λ e. Some (write_words e) };

    fn fmt<W: fmt::Write>(&self, f: &mut fmt::Formatter<W>) -> fmt::Result {
        f.write_str(self.words())
    }
}

impl Error for WriteFault {}

#[derive(Clone, Copy, Debug, PartialEq, Eq)]
pub enum WriteError {
    Fault(WriteFault),
    Memory(AllocError),
}

impl From<ListFault> for WriteError {
    ghost from_gives = { λ e r. r ≡ Refusal (OfList e) };

    fn from(e: ListFault) -> WriteError {
        WriteError::Fault(WriteFault::List(e))
    }
}

impl From<AllocError> for WriteError {
    ghost from_gives = { λ e r. r ≡ NoMemory e };

    fn from(e: AllocError) -> WriteError {
        WriteError::Memory(e)
    }
}
