ghost use Rattle.std.specs.Prelude.{◌≡◌, Some};
ghost use Rattle.pass_stack.specs.Profile.{entry_of};
ghost use Rattle.pass_stack.specs.Texts.{text_of};

use crate::words::words_of;
use std::fmt;
use wasm_ast::features::Feature;
use wasm_ast::outside::Obstacle;

/// Why a module is not lowered, though it can be read: an entry of the profile's list.
#[derive(Clone, Copy, Debug)]
pub enum Outside {
    /// It has this feature, which lies outside the profile.
    Feature(Feature),
    /// The export at this place has a name that begins with `lower.`.
    ReservedName(u32),
    /// A memory is exported that would be moved, since the module needs a region.
    MemoryMoved,
    /// The memories and moved tables, with what the region has beside them, have more than 65,536 pages at the start.
    TooManyPages,
    /// It has this feature, which no pass removes yet.
    NotBuilt(Feature),
}

impl From<Obstacle> for Outside {
    ghost from_gives = { λ obstacle outside. outside ≡ entry_of obstacle };

    fn from(obstacle: Obstacle) -> Outside {
        match obstacle {
            Obstacle::Feature(feature) => Outside::Feature(feature),
            Obstacle::ReservedName(export) => Outside::ReservedName(export),
            Obstacle::MemoryMoved => Outside::MemoryMoved,
            Obstacle::TooManyPages => Outside::TooManyPages,
        }
    }
}

impl fmt::Display for Outside {
    ghost output = { λ outside. Some (text_of outside) };

    fn fmt<W: fmt::Write>(&self, f: &mut fmt::Formatter<W>) -> fmt::Result {
        match self {
            Outside::Feature(feature) => {
                let words = words_of(*feature);
                write!(f, "{words}")
            }
            Outside::ReservedName(export) => write!(f, "reserved name {export}"),
            Outside::MemoryMoved => write!(f, "memory moved"),
            Outside::TooManyPages => write!(f, "too many pages"),
            Outside::NotBuilt(feature) => {
                let words = words_of(*feature);
                write!(f, "not built {words}")
            }
        }
    }
}
