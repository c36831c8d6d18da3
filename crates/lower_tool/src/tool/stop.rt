ghost use Rattle.std.specs.Prelude.{◌≡◌, Some, IfOk};
ghost use Rattle.lower_tool.specs.Stops.{text_of_stop, line_of, status_of, stop_of};
ghost use Rattle.lower_tool.specs.declared.tool.stop.Stop.TheVariants.{CannotRead, OutOfMemory};

use super::status;
use crate::files::FileFault;
use crate::verdict::{NotFine, Refusal};
use arrayvec::ArrayString;
use std::alloc::AllocError;
use std::fmt;
use std::fmt::Write;
use thiserror::Error;

/// A line of at most 96 bytes.
pub type Line = ArrayString<96>;

/// Why a command stops before it writes.
#[derive(Debug, Drop, Error)]
pub enum Stop {
    /// The verdict on the input is not fine, or the script is refused.
    Refused(Refusal),
    /// A fault came while the input was read.
    CannotRead,
    /// No memory was found.
    OutOfMemory,
}

impl fmt::Display for Stop {
    ghost output = { λ stop. Some (text_of_stop stop) };

    fn fmt<W: fmt::Write>(&self, f: &mut fmt::Formatter<W>) -> fmt::Result {
        match self {
            Stop::Refused(refusal) => write!(f, "refused: {refusal}"),
            Stop::CannotRead => write!(f, "cannot read"),
            Stop::OutOfMemory => write!(f, "out of memory"),
        }
    }
}

impl Stop {
    /// The status that the command ends with.
    pub fn status(&self) -> u8
        ensures { result ≡ status_of self.now }
    {
        match self {
            Stop::Refused(_) => status::REFUSED,
            Stop::CannotRead => status::CANNOT_READ,
            Stop::OutOfMemory => status::OUT_OF_MEMORY,
        }
    }

    /// The line that is printed. It takes no memory; a text without room in a line is an error.
    pub fn line(&self) -> Result<Line, fmt::Error>
        ensures { IfOk result (λ line. line.bytes ≡ line_of self.now) }
    {
        let mut line = ArrayString::new();
        write!(line, "{self}\n")?;
        Ok(line)
    }
}

/// A fault of the files, while they are read.
impl From<FileFault> for Stop {
    ghost from_gives = { λ _ stop. stop ≡ CannotRead };

    fn from(_fault: FileFault) -> Stop {
        Stop::CannotRead
    }
}

impl From<AllocError> for Stop {
    ghost from_gives = { λ _ stop. stop ≡ OutOfMemory };

    fn from(_error: AllocError) -> Stop {
        Stop::OutOfMemory
    }
}

impl From<NotFine> for Stop {
    ghost from_gives = { λ fault stop. stop ≡ stop_of fault };

    fn from(fault: NotFine) -> Stop {
        match fault {
            NotFine::Refused(refusal) => Stop::Refused(refusal),
            NotFine::Memory(_) => Stop::OutOfMemory,
        }
    }
}
