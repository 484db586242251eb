// Errors of calls that read and allocate: a fault, or want of memory, which has no number.
ghost use Rattle.text_faults.specs.declared.errors.ReadError.TheVariants.{Fault, Memory};
ghost use Rattle.std.specs.Prelude.{◌≡◌, alloc_error};

use crate::texts::TextFault;
use std::alloc::{AllocError, AllocFailed};

#[derive(Clone, Copy, Debug, PartialEq, Eq)]
pub enum ReadError {
    Fault(TextFault),
    Memory(AllocError),
}

impl From<TextFault> for ReadError {
    ghost from_gives = { λ e r. r ≡ Fault e };

    fn from(e: TextFault) -> ReadError {
        ReadError::Fault(e)
    }
}

impl From<AllocError> for ReadError {
    ghost from_gives = { λ e r. r ≡ Memory e };

    fn from(e: AllocError) -> ReadError {
        ReadError::Memory(e)
    }
}

impl<T: Drop> From<AllocFailed<T>> for ReadError {
    ghost from_gives = { λ _ r. r ≡ Memory alloc_error };

    fn from(e: AllocFailed<T>) -> ReadError {
        ReadError::Memory(AllocError::from(e))
    }
}
