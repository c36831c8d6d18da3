ghost use Rattle.std.specs.Prelude.{◌≡◌, map, IfOk};
ghost use Rattle.core1_ast.specs.Typing.{Typed1 as IsTyped};
ghost use Rattle.host_kit.specs.Trace.{events};
ghost use Rattle.meaning_core1.specs.Runs.{trace1};
ghost use Rattle.run_core1.specs.Views.{mark_of};

use crate::mark::{Mark1, events};
use crate::program::Program;
use crate::state::State;
use crate::tasks::tasks_of;
use core1_ast::module::Module1;
use host_kit::{Event, Script};
use machine_kit::run_tasks;
use sqlite_items::Items;
use std::alloc::{AllocError, Global};
use valid_core1::Typed1;

/// The events that the host of a run sees, in their order: what the meaning says that a script over a typed module shows
/// within so many turns, each the entry of a function of the module or a further pass of a loop (the standard's
/// "Modules" of chapter 4, "Instantiation" and "Invocation"). A run that wants more turns shows those before it stops. It
/// fails for want of memory alone, and for a script of more than 2^32 items.
pub fn run_core1(
    alloc: Global,
    source: &Typed1,
    script: &Script,
    turns: u64,
) -> Result<Items<Event>, AllocError>
    ensures { IfOk result (λ seen. seen ≡ events (trace1 source.now script.now turns)) }
{
    let marks = run_marks(alloc, source.module(), script, turns)?;
    events(alloc, marks)
}

/// What a run leaves behind.
fn run_marks(
    alloc: Global,
    source: &Module1,
    script: &Script,
    turns: u64,
) -> Result<Vec<Mark1>, AllocError>
    requires { IsTyped source.now }
    ensures { IfOk result (λ marks. map mark_of marks.items ≡ trace1 source.now script.now turns) }
{
    let program = Program::new(alloc, source)?;
    let mut state = State::new(alloc, source, script)?;
    let tasks = tasks_of(alloc, source, script)?;
    run_tasks(
        alloc,
        &program,
        &program,
        tasks.as_slice(),
        &mut state,
        turns,
    )?;
    Ok(state.into_trace())
}
