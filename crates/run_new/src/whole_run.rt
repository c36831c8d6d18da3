ghost use Rattle.std.specs.Prelude.{◌≡◌, [], ◌∷◌, IfOk};
ghost use Rattle.host_kit.specs.declared.event.Event.TheVariants as shown;
ghost use Rattle.host_kit.specs.Trace.{events};
ghost use Rattle.typed_trees.specs.Typed.{module_of};
ghost use Rattle.meaning_new.specs.Runs.{trace};
ghost use Rattle.run_new.specs.Tasks.{end_of};

use crate::instances::instantiate;
use crate::program::Program;
use crate::state::State;
use crate::tasks::tasks_of;
use host_kit::{Event, Script};
use machine_kit::run_tasks;
use run_kit::events;
use sqlite_items::Items;
use std::alloc::{AllocError, Global};
use typed_trees::TypedModule;

/// What the host sees of the run of a script over a typed module within so many turns, each the entry of a function of the
/// module or a further pass of a loop (the standard's "Modules" of chapter 4, "Instantiation" and "Invocation"). The module
/// is that for which the typed code stands. It fails for want of memory alone, which no machine has for 2^32 references
/// or exceptions, nor for a memory of 2^48 bytes.
pub fn run_new(
    alloc: Global,
    m: &TypedModule,
    script: &Script,
    turns: u64,
) -> Result<Items<Event>, AllocError>
    ensures { IfOk result (λ seen. seen ≡ events (trace (module_of m.now) script.now turns)) }
{
    let program = Program::new(alloc, m)?;
    match instantiate(alloc, program.part(), script)? {
        Some(state) => {
            let seen = behind_segments(alloc, program, script, state, turns)?;
            Ok(seen)
        }
        None => {
            let seen = failed(alloc)?;
            Ok(seen)
        }
    }
}

/// What the host sees of a run whose segments are written, from this state on.
fn behind_segments<'p, 's>(
    alloc: Global,
    program: Program<'p>,
    script: &'s Script,
    state: State<'s>,
    turns: u64,
) -> Result<Items<Event>, AllocError>
    ensures { IfOk result (λ seen. seen ≡ events (end_of program.entry script.now state.entry turns).trace) }
{
    let mut state = state;
    let tasks = tasks_of(alloc, program.part().start, script.items.as_slice())?;
    run_tasks(
        alloc,
        &program,
        &program,
        tasks.as_slice(),
        &mut state,
        turns,
    )?;
    let seen = events(alloc, state.into_trace())?;
    Ok(seen)
}

/// What the host sees where a segment is not inside.
fn failed(alloc: Global) -> Result<Items<Event>, AllocError>
    ensures { IfOk result (λ seen. seen ≡ shown.Failed ∷ []) }
{
    let mut seen = Items::new(alloc);
    seen.push(Event::Failed)?;
    Ok(seen)
}
