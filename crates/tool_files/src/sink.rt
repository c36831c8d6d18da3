// Where a command prints, and the objects that stand for it.

ghost use Rattle.std.specs.Prelude.{◌≡◌, ℕ, ◌<◌, ◌≤◌, List, length, Option, IfOk};
ghost use Rattle.std.specs.Io.KnownBytes.{WriteAppends};
ghost use Rattle.tool_files.specs.Causes.{HasCause};

mod memory;
mod safe;

pub use memory::MemSink;
pub use safe::SafeSink;
use thiserror::Error;

/// Why a call on a sink failed.
#[derive(Clone, Copy, Debug, PartialEq, Eq, Error)]
pub enum SinkFault {
    /// What stands behind the sink refused.
    #[error("what stands behind the sink refused")]
    Failed,
}

/// Where text is printed.
pub trait Sink {
    /// The bytes that were written, where the object tells them.
    ghost written: { Self → Option (List ℕ) };

    /// How many faults came so far. It never falls.
    ghost faults: { Self → ℕ };

    /// Writes one byte or more of the front of a piece, and says how many.
    fn give(&mut self, piece: &[u8]) -> Result<usize, SinkFault>
        requires { 0 < length piece.now }
        ensures cause { HasCause (faults self.old) (faults self.new) result }
        ensures count { IfOk result (λ count. (0 < count) × (count ≤ length piece.now)) }
        ensures appends { WriteAppends (written self.old) (written self.new) result piece.now };
}
