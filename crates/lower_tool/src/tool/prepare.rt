ghost use Rattle.std.specs.Prelude.{◌≡◌, ℕ, ◌≤◌, List, IsTrue, IfOk, IfErr, IfSome, IsErrOf};
ghost use Rattle.tool_files.specs.Causes.{Rose};
ghost use Rattle.lower_tool.specs.CommandVerdict.{Refuses};
ghost use Rattle.lower_tool.specs.Commands.{command_of};
ghost use Rattle.lower_tool.specs.Inputs.{CanBegin, WhereInputs, TakesInput};
ghost use Rattle.lower_tool.specs.Products.{IsFor, Makes};
ghost use Rattle.lower_tool.specs.Stops.{IfRefused, IfNotFine};
ghost use Rattle.lower_tool.specs.Words.{HasRoom};

use super::command::{Command, captures_of};
use super::input::{Inputs, read_inputs};
use super::product::Product;
use super::stop::Stop;
use crate::checking::check_bytes;
use crate::files::Files;
use crate::lowering::lower_bytes;
use crate::running::run_bytes;
use crate::verdict::{NotFine, Refusal};
use module_reading::FILE_LIMIT;
use std::alloc::Global;

/// What a command makes of its inputs. It reads those files alone, and writes nothing.
pub fn prepare<'a, F: Files>(
    alloc: Global,
    command: Command<'a>,
    files: &mut F,
) -> Result<Product<'a>, Stop>
    requires begins { CanBegin (F.can_begin files.old) (command_of command) }
    requires room { HasRoom (command_of command) }
    ensures fits { IfOk result (IsFor (command_of command.entry)) }
    ensures makes { IfOk result (λ product. WhereInputs (F.holds files.old) (command_of command.entry) (λ bytes text. Makes (command_of command.entry) bytes text product)) }
    ensures refused { IfErr result (λ stop. IfRefused stop (λ refusal. WhereInputs (F.holds files.old) (command_of command.entry) (Refuses (command_of command.entry) refusal))) }
    ensures read { IsErrOf result Stop.CannotRead → Rose (F.read_faults files.old) (F.read_faults files.new) }
    ensures taken { IsTrue (F.is_reading files.new) → IfSome (F.holds files.old) (λ held. TakesInput held (command_of command.entry) (F.left files.new)) }
    ensures later { F.read_faults files.old ≤ F.read_faults files.new }
    ensures held { F.holds files.new ≡ F.holds files.old }
    ensures created { F.created files.new ≡ F.created files.old }
    ensures writes { F.write_faults files.new ≡ F.write_faults files.old }
    ensures still { (other : List ℕ) → F.can_begin files.old other → F.can_begin files.new other }
{
    let inputs = read_inputs(alloc, command, files)?;
    Ok(make(alloc, command, inputs)?)
}

/// What a command makes of what it has read.
fn make<'a>(alloc: Global, command: Command<'a>, inputs: Inputs) -> Result<Product<'a>, NotFine>
    requires { HasRoom (command_of command) }
    ensures fits { IfOk result (IsFor (command_of command.entry)) }
    ensures makes { IfOk result (Makes (command_of command.entry) inputs.bytes inputs.text) }
    ensures refused { IfErr result (λ fault. IfNotFine fault (λ refusal. Refuses (command_of command.entry) refusal inputs.bytes inputs.text)) }
{
    let Inputs { bytes, text } = inputs;
    if bytes.as_slice().len() > FILE_LIMIT {
        return Err(NotFine::Refused(Refusal::TooLarge));
    }
    match command {
        Command::Lower(_, output, room) => {
            let captures = captures_of(room);
            Ok(Product::File(output, lower_bytes(alloc, bytes, captures)?))
        }
        Command::Check(version, _) => {
            check_bytes(alloc, version, bytes.as_slice())?;
            Ok(Product::Fine)
        }
        Command::Run(version, _, _, turns) => {
            Ok(Product::Run(run_bytes(alloc, version, bytes, text, turns)?))
        }
    }
}
