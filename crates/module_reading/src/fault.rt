ghost use Rattle.std.specs.Prelude.{◌≡◌, Some};
ghost use Rattle.module_reading.specs.Texts.{text_of};
ghost use Rattle.module_reading.specs.declared.fault.ReadFault.TheVariants.{Memory};

use crate::kind::Kind;
use std::alloc::AllocError;
use std::error::Error;
use std::fmt;
use wasm_frame::sections::FrameFault;

/// Why a file was not read: the first step of reading that refuses it.
#[derive(Debug, Drop)]
pub enum ReadFault {
    /// It is no head with sections behind it. Want of memory is no such fault.
    Frame(FrameFault),
    /// The section at this place, counted from 0 over all sections, is the first that is not in its grammar.
    Section(u32),
    /// All sections are in their grammar, and the body at this place in the code section is the first that is not.
    Body(u32),
    /// The counts of the module do not agree.
    Counts,
    /// This is the first kind in order of which the file has more than it may.
    Limit(Kind),
    /// Memory was not found.
    Memory(AllocError),
}

impl fmt::Display for ReadFault {
    ghost output = { λ fault. Some (text_of fault) };

    fn fmt<W: fmt::Write>(&self, f: &mut fmt::Formatter<W>) -> fmt::Result {
        match self {
            ReadFault::Frame(FrameFault::BadHead) => write!(f, "frame: bad head"),
            ReadFault::Frame(FrameFault::BadSize) => write!(f, "frame: bad size"),
            ReadFault::Frame(FrameFault::BadOrder) => write!(f, "frame: bad order"),
            ReadFault::Section(place) => write!(f, "section {place}"),
            ReadFault::Body(place) => write!(f, "body {place}"),
            ReadFault::Counts => write!(f, "counts"),
            ReadFault::Limit(kind) => write!(f, "limit: {kind}"),
            ReadFault::Frame(FrameFault::Memory(_)) | ReadFault::Memory(_) => {
                write!(f, "out of memory")
            }
        }
    }
}

impl Error for ReadFault {}

impl From<AllocError> for ReadFault {
    ghost from_gives = { λ error fault. fault ≡ Memory error };

    fn from(error: AllocError) -> ReadFault {
        ReadFault::Memory(error)
    }
}
