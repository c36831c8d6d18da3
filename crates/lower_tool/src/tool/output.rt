ghost use Rattle.std.specs.Prelude.{◌≡◌, ℕ, ◌≤◌, List, length, OnOk, OnErr};
ghost use Rattle.tool_files.specs.Causes.{HasCause};
ghost use Rattle.tool_files.specs.Held.{Sets, Grows, IsCreated};
ghost use Rattle.lower_tool.specs.Statuses.{IsFrontOf, LeavesFront};

use crate::files::{FileFault, Files};

/// Creates a file, and writes all of the bytes to it. It takes no memory.
pub fn write_file<F: Files>(name: &str, bytes: &[u8], files: &mut F) -> Result<(), FileFault>
    ensures cause { HasCause (F.write_faults files.old) (F.write_faults files.new) result }
    ensures whole { OnOk result (Sets (F.holds files.old) (F.holds files.new) name.now bytes.now) }
    ensures cut { OnErr result (LeavesFront (F.holds files.old) (F.holds files.new) name.now bytes.now) }
    ensures reads { F.read_faults files.new ≡ F.read_faults files.old }
    ensures still { (other : List ℕ) → F.can_begin files.old other → F.can_begin files.new other }
{
    files.create(name)?;
    give_all(bytes, files)
}

fn give_all<F: Files>(bytes: &[u8], files: &mut F) -> Result<(), FileFault>
    requires { IsCreated (F.created files.old) }
    ensures cause { HasCause (F.write_faults files.old) (F.write_faults files.new) result }
    ensures whole { OnOk result (Grows (F.holds files.old) (F.holds files.new) (F.created files.old) bytes.now) }
    ensures cut { OnErr result ((front : List ℕ) × IsFrontOf front bytes.now × Grows (F.holds files.old) (F.holds files.new) (F.created files.old) front) }
    ensures reads { F.read_faults files.new ≡ F.read_faults files.old }
    ensures still { (other : List ℕ) → F.can_begin files.old other → F.can_begin files.new other }
{
    let mut done = 0;
    while done < bytes.len() {
        done += files.give(&bytes[done..])?;
    }
    Ok(())
}
