ghost use Rattle.std.specs.Prelude.{◌≡◌, ℕ, ◌≤◌, List, IsTrue, IfOk, IfErr, IfSome, IsErrOf};
ghost use Rattle.tool_files.specs.Causes.{Rose};
ghost use Rattle.tool_files.specs.Held.{WhereTold};
ghost use Rattle.lower_tool.specs.Commands.{command_of};
ghost use Rattle.lower_tool.specs.Inputs.{CanBegin, WhereInputs, TakesInput, front};
ghost use Rattle.lower_tool.specs.Statuses.{TakesWithinLimit};
ghost use Rattle.lower_tool.specs.Stops.{IfRefused};

use super::command::Command;
use super::stop::Stop;
use crate::files::Files;
use module_reading::FILE_LIMIT;
use num_core::lists::Bytes;
use std::alloc::Global;

/// How many bytes are asked of a file at once.
const PIECE: usize = 4096;

/// What a command reads: a module, and the text of a script, which is empty where it reads none. Of a file that is too
/// large there is one byte past the limit.
#[derive(Drop)]
pub struct Inputs {
    /// The bytes of the module.
    pub bytes: Bytes,
    /// The text of the script.
    pub text: Bytes,
}

/// The files that a command reads, that of the module first.
pub fn read_inputs<F: Files>(
    alloc: Global,
    command: Command<'_>,
    files: &mut F,
) -> Result<Inputs, Stop>
    requires { CanBegin (F.can_begin files.old) (command_of command) }
    ensures whole { IfOk result (λ inputs. WhereInputs (F.holds files.old) (command_of command.entry) (λ bytes text. (inputs.bytes ≡ front bytes) × (inputs.text ≡ front text))) }
    ensures refused { IfErr result (λ stop. IfRefused stop (λ refusal. ⊥)) }
    ensures read { IsErrOf result Stop.CannotRead → Rose (F.read_faults files.old) (F.read_faults files.new) }
    ensures taken { IsTrue (F.is_reading files.new) → IfSome (F.holds files.old) (λ held. TakesInput held (command_of command.entry) (F.left files.new)) }
    ensures later { F.read_faults files.old ≤ F.read_faults files.new }
    ensures held { F.holds files.new ≡ F.holds files.old }
    ensures created { F.created files.new ≡ F.created files.old }
    ensures writes { F.write_faults files.new ≡ F.write_faults files.old }
    ensures still { (other : List ℕ) → F.can_begin files.old other → F.can_begin files.new other }
{
    let bytes = read_file(alloc, command.input(), files)?;
    let text = match command.script() {
        Some(name) => read_file(alloc, name, files)?,
        None => Bytes::new(alloc),
    };
    Ok(Inputs { bytes, text })
}

/// All bytes of a file, up to one byte past the limit.
fn read_file<F: Files>(alloc: Global, name: &str, files: &mut F) -> Result<Bytes, Stop>
    requires { F.can_begin files.old name.now }
    ensures whole { IfOk result (λ bytes. WhereTold (F.holds files.old) name.now (λ held. bytes ≡ front held)) }
    ensures refused { IfErr result (λ stop. IfRefused stop (λ refusal. ⊥)) }
    ensures read { IsErrOf result Stop.CannotRead → Rose (F.read_faults files.old) (F.read_faults files.new) }
    ensures taken { IsTrue (F.is_reading files.new) → IfSome (F.holds files.old) (λ held. TakesWithinLimit (held name.now) (F.left files.new)) }
    ensures later { F.read_faults files.old ≤ F.read_faults files.new }
    ensures held { F.holds files.new ≡ F.holds files.old }
    ensures created { F.created files.new ≡ F.created files.old }
    ensures writes { F.write_faults files.new ≡ F.write_faults files.old }
    ensures still { (other : List ℕ) → F.can_begin files.old other → F.can_begin files.new other }
{
    files.begin(name)?;
    read_rest(alloc, files)
}

fn read_rest<F: Files>(alloc: Global, files: &mut F) -> Result<Bytes, Stop>
    requires { IsTrue (F.is_reading files.old) }
    ensures whole { IfOk result (λ bytes. IfSome (F.left files.old) (λ left. bytes ≡ front left)) }
    ensures refused { IfErr result (λ stop. IfRefused stop (λ refusal. ⊥)) }
    ensures read { IsErrOf result Stop.CannotRead → Rose (F.read_faults files.old) (F.read_faults files.new) }
    ensures taken { TakesWithinLimit (F.left files.old) (F.left files.new) }
    ensures later { F.read_faults files.old ≤ F.read_faults files.new }
    ensures held { F.holds files.new ≡ F.holds files.old }
    ensures created { F.created files.new ≡ F.created files.old }
    ensures writes { F.write_faults files.new ≡ F.write_faults files.old }
    ensures still { (other : List ℕ) → F.can_begin files.old other → F.can_begin files.new other }
{
    let mut bytes = Bytes::new(alloc);
    let mut piece = [0; PIECE];
    while bytes.as_slice().len() <= FILE_LIMIT {
        let room = PIECE.min(FILE_LIMIT + 1 - bytes.as_slice().len());
        let count = files.take(&mut piece[..room])?;
        if count == 0 {
            return Ok(bytes);
        }
        bytes.extend_from_slice(&piece[..count])?;
    }
    Ok(bytes)
}
