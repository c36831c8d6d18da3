// What tasks in order come to, against what the rules give by hand.

use crate::rows::{COUNT, DOWN};
use crate::script::{Caller, Item};
use crate::steps::{Row, program_of};
use evaluation_kit::Jump;
use machine_kit::{Outcome, run_tasks};
use std::alloc::{AllocError, Global};
use std::test::Fail;

/// What is seen of a run.
#[derive(Clone, Copy, PartialEq, Eq, Debug)]
enum Seen {
    /// All was done, in so many turns.
    Done(u64),
    /// A trap ended it after so many turns.
    Trapped(u64),
    /// It was left in another way.
    Left,
    /// It wants another turn.
    Halted,
}

/// The functions, what the host does, the state before it, how many turns there are, what is seen, and the state after it.
type Case = (&'static [Row], &'static [Item], u64, u64, Seen, u64);

const CASES: [Case; 6] = [
    (&[DOWN], &[], 7, 0, Seen::Done(0), 7),
    (
        &[DOWN],
        &[Item::Put(7), Item::Call(0, 5)],
        0,
        1,
        Seen::Done(1),
        4,
    ),
    (
        &[DOWN],
        &[Item::Call(0, 5), Item::Stop, Item::Put(9)],
        0,
        9,
        Seen::Trapped(1),
        4,
    ),
    (
        &[DOWN],
        &[Item::Call(0, 0), Item::Put(9)],
        7,
        9,
        Seen::Trapped(1),
        7,
    ),
    (
        &[COUNT],
        &[Item::Call(0, 3), Item::Call(0, 3)],
        5,
        8,
        Seen::Done(8),
        0,
    ),
    (
        &[COUNT],
        &[Item::Call(0, 3), Item::Put(6), Item::Call(0, 3)],
        5,
        7,
        Seen::Halted,
        6,
    ),
];

fn seen_of(outcome: Outcome) -> Seen {
    match outcome {
        Outcome::Done(used, None) => Seen::Done(used),
        Outcome::Done(used, Some(Jump::Trap)) => Seen::Trapped(used),
        Outcome::Done(_, Some(_)) => Seen::Left,
        Outcome::Halted => Seen::Halted,
    }
}

/// The number of the first case in which something else is seen.
fn first_wrong(alloc: Global, cases: &[Case]) -> Result<Option<usize>, AllocError> {
    for (i, (rows, items, before, turns, seen, after)) in cases.iter().enumerate() {
        let program = program_of(alloc, rows)?;
        let mut state = *before;
        let outcome = run_tasks(alloc, &program, &Caller, items, &mut state, *turns)?;
        if (seen_of(outcome), state) != (*seen, *after) {
            return Ok(Some(i));
        }
    }
    Ok(None)
}

#[test]
fn tasks_are_done_in_order(rt: HostRuntime) -> Result<(), Fail> {
    assert_eq!(rt; first_wrong(rt.alloc(), &CASES)?, None);
    Ok(())
}
