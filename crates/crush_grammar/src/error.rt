//! Why reading stops.

ghost use Rattle.std.specs.Prelude.{◌≡◌};

use crate::code::TextFault;
use std::alloc::{AllocError, AllocFailed};

/// Why reading stops: an allocation failed, or the text has a fault.
#[derive(Debug, Drop)]
pub(crate) enum ReadError {
    Memory,
    Fault(TextFault),
}

impl From<AllocError> for ReadError {
    ghost use Rattle.crush_grammar.specs.declared.error.ReadError.TheVariants.{Memory};

    ghost from_gives = { λ _ e. e ≡ Memory };

    fn from(_error: AllocError) -> ReadError {
        ReadError::Memory
    }
}

impl<T: Drop> From<AllocFailed<T>> for ReadError {
    ghost use Rattle.crush_grammar.specs.declared.error.ReadError.TheVariants.{Memory};

    ghost from_gives = { λ _ e. e ≡ Memory };

    fn from(_error: AllocFailed<T>) -> ReadError {
        ReadError::Memory
    }
}
