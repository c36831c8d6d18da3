// The files that a command reads and writes, and the objects that stand for them.

ghost use Rattle.std.specs.Prelude.{◌≡◌, ℕ, ◌<◌, ◌≤◌, List, [], length, take, Bool, Option, IsTrue, IsErr, IfOk, OnOk, OnErr, is_ok, MatchResult};
ghost use Rattle.std.specs.Io.{ReadsAtMost};
ghost use Rattle.std.specs.Io.KnownBytes.{ReadConsumes};
ghost use Rattle.tool_files.specs.Calls.{one_more};
ghost use Rattle.tool_files.specs.Causes.{HasCause};
ghost use Rattle.tool_files.specs.Held.{Contents, Created, IsCreated, IsAbsent, Opens, Chooses, Sets, Grows};

mod memory;
mod pairs;
mod safe;

pub use memory::{FailAt, MemFiles};
pub use safe::SafeFiles;
use thiserror::Error;

/// Why a call on files failed.
#[derive(Clone, Copy, Debug, PartialEq, Eq, Error)]
pub enum FileFault {
    /// The file, or what stands behind it, refused.
    #[error("the file, or what stands behind it, refused")]
    Failed,
}

/// Files by name: one at a time is read from its front, and one at a time is written at its end.
pub trait Files {
    /// The bytes under each name, where the object tells them.
    ghost holds: { Self → Option Contents };

    /// The bytes still unread of the file that was begun last, where the object tells them.
    ghost left: { Self → Option (List ℕ) };

    /// How many faults of reading came so far. It never falls.
    ghost read_faults: { Self → ℕ };

    /// How many faults of writing came so far. It never falls.
    ghost write_faults: { Self → ℕ };

    /// The names that may be begun. Such a name stays one.
    ghost can_begin: { Self → List ℕ → Type 0 };

    /// A file was begun, and no later call of `begin` failed.
    ghost is_reading: { Self → Bool };

    /// The file that was last created.
    ghost created: { Self → Created };

    /// Begins to read a file from its front. An absent name fails, as what stands behind the files may.
    fn begin(&mut self, name: &str) -> Result<(), FileFault>
        requires { can_begin self.old name.now }
        ensures cause { HasCause (read_faults self.old) (read_faults self.new) result }
        ensures absent { IsAbsent (holds self.old) name.now → IsErr result }
        ensures whole { OnOk result (Opens (holds self.old) name.now (left self.new)) }
        ensures reading { is_reading self.new ≡ is_ok result }
        ensures held { holds self.new ≡ holds self.old }
        ensures created { created self.new ≡ created self.old }
        ensures writes { write_faults self.new ≡ write_faults self.old }
        ensures still { (other : List ℕ) → can_begin self.old other → can_begin self.new other };

    /// Reads one byte or more at the front of what is left, and none exactly at the end.
    fn take(&mut self, into: &mut [u8]) -> Result<usize, FileFault>
        requires reading { IsTrue (is_reading self.old) }
        requires room { 0 < length into.old }
        ensures cause { HasCause (read_faults self.old) (read_faults self.new) result }
        ensures within { ReadsAtMost result into.new }
        ensures front { ReadConsumes (left self.old) (left self.new) result into.new }
        ensures reading { is_reading self.new ≡ is_reading self.old }
        ensures held { holds self.new ≡ holds self.old }
        ensures created { created self.new ≡ created self.old }
        ensures writes { write_faults self.new ≡ write_faults self.old }
        ensures still { (other : List ℕ) → can_begin self.old other → can_begin self.new other };

    /// Makes a file empty, or makes an empty one, and chooses it for writing.
    fn create(&mut self, name: &str) -> Result<(), FileFault>
        ensures cause { HasCause (write_faults self.old) (write_faults self.new) result }
        ensures empties { OnOk result (Sets (holds self.old) (holds self.new) name.now []) }
        ensures chooses { OnOk result (Chooses (holds self.new) name.now (created self.new)) }
        ensures held { OnErr result (holds self.new ≡ holds self.old) }
        ensures created { OnErr result (created self.new ≡ created self.old) }
        ensures reading { is_reading self.new ≡ is_reading self.old }
        ensures reads { read_faults self.new ≡ read_faults self.old }
        ensures still { (other : List ℕ) → can_begin self.old other → can_begin self.new other };

    /// Appends one byte or more of the front of a piece to the file that was last created, and says how many.
    fn give(&mut self, piece: &[u8]) -> Result<usize, FileFault>
        requires chosen { IsCreated (created self.old) }
        requires some { 0 < length piece.now }
        ensures cause { HasCause (write_faults self.old) (write_faults self.new) result }
        ensures count { IfOk result (λ count. (0 < count) × (count ≤ length piece.now)) }
        ensures appends { IfOk result (λ count. Grows (holds self.old) (holds self.new) (created self.old) (take count piece.now)) }
        ensures held { OnErr result (holds self.new ≡ holds self.old) }
        ensures created { created self.new ≡ created self.old }
        ensures reading { is_reading self.new ≡ is_reading self.old }
        ensures reads { read_faults self.new ≡ read_faults self.old }
        ensures still { (other : List ℕ) → can_begin self.old other → can_begin self.new other };
}

/// Counts one more fault, up to the end of the count, and gives it.
pub fn fault(count: &mut u64) -> FileFault
    ensures counted { count.new ≡ one_more count.old }
    ensures later { count.old ≤ count.new }
{
    *count = count.saturating_add(1);
    FileFault::Failed
}
