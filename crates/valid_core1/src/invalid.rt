ghost use Rattle.std.specs.Prelude.{◌≡◌};
ghost use Rattle.valid_core1.specs.declared.invalid.Invalid.TheVariants.{Memory};

use std::alloc::AllocError;
use thiserror::Error;

/// Why a module was not found typed.
#[derive(Debug, Drop, Error)]
pub enum Invalid {
    /// The part at this place of the section with this id is the first that is not typed: of two exports with one name
    /// the later, of two tables or memories in one index space, imports first, the second. The start is place 0.
    #[error("part {section} {index}")]
    Part { section: u8, index: u32 },
    /// All parts are typed, and the body at this place is the first that is not.
    #[error("body {0}")]
    Body(u32),
    /// Memory was not found. A list of 2^32 items or more outside code is one for which it never is.
    #[error("out of memory")]
    Memory(AllocError),
}

impl From<AllocError> for Invalid {
    ghost from_gives = { λ error fault. fault ≡ Memory error };

    fn from(error: AllocError) -> Invalid {
        Invalid::Memory(error)
    }
}
