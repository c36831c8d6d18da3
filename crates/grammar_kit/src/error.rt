ghost use Rattle.std.specs.Prelude.{◌≡◌};
ghost use Rattle.grammar_kit.specs.declared.error.FormError.TheVariants.{Memory};

use std::alloc::{AllocError, AllocFailed};
use thiserror::Error;

/// Why a form could not be read at the front of some bytes.
#[derive(Debug, Drop, Error)]
pub enum FormError {
    /// No front of the bytes is in the grammar of the form.
    #[error("malformed")]
    Malformed,
    /// Memory was not found.
    #[error("out of memory")]
    Memory(AllocError),
}

impl From<AllocError> for FormError {
    ghost from_gives = { λ error e. e ≡ Memory error };

    fn from(error: AllocError) -> FormError {
        FormError::Memory(error)
    }
}

impl<T: Drop> From<AllocFailed<T>> for FormError {
    ghost use Rattle.std.specs.Prelude.{alloc_error};

    ghost from_gives = { λ _ e. e ≡ Memory alloc_error };

    fn from(error: AllocFailed<T>) -> FormError {
        FormError::Memory(AllocError::from(error))
    }
}
