// What programs do, against what the rules of the language give by hand.

use crate::op::Program;
use crate::rows::{
    BRANCH, BY_NOTHING, BY_TOP, CATCHES, COUNT, DOWN, FIRST, FRESH, GIVES, HOST, HOST_TAIL,
    HOST_THROW, KEEPS, MISSING, NEST, OUT, OUTSIDE, OVER, PASSES, TAIL, TAKES, THROW,
};
use crate::steps::{Row, program_of};
use evaluation_kit::Jump;
use machine_kit::{Called, Operands, Outcome, call};
use std::alloc::{AllocError, Global};
use std::test::Fail;

/// What is seen of a call.
#[derive(Clone, Copy, PartialEq, Eq, Debug)]
enum Seen {
    /// It ended after so many turns with so many operands, this one on top, or 0.
    Ended(u64, usize, u64),
    /// A trap after so many turns.
    Trapped(u64),
    /// An exception left it after so many turns.
    Thrown(u64, u32),
    /// It left by another jump.
    Left,
    /// It wants another turn.
    Halted,
}

/// The functions, the operands of a call of function 0, the state before it, how many turns it has, what is seen, and the
/// state after it.
type Case = (&'static [Row], &'static [u64], u64, u64, Seen, u64);

fn seen_of(called: &Called<u64>) -> Seen {
    match called.outcome {
        Outcome::Done(used, None) => Seen::Ended(
            used,
            called.operands.count(),
            called.operands.peek(0).unwrap_or(0),
        ),
        Outcome::Done(used, Some(jump)) => jump_seen(used, jump),
        Outcome::Halted => Seen::Halted,
    }
}

fn jump_seen(used: u64, jump: Jump) -> Seen {
    match jump {
        Jump::Trap => Seen::Trapped(used),
        Jump::Throw(exception) => Seen::Thrown(used, exception),
        _ => Seen::Left,
    }
}

/// What is seen of a call of function 0, and the state after it.
fn run(
    alloc: Global,
    program: &Program,
    arguments: &[u64],
    before: u64,
    turns: u64,
) -> Result<(Seen, u64), AllocError> {
    let mut operands = Operands::new(alloc);
    for argument in arguments {
        operands.push(*argument)?;
    }
    let mut state = before;
    let called = call(alloc, program, 0, operands, &mut state, turns)?;
    Ok((seen_of(&called), state))
}

/// The number of the first case in which something else is seen.
fn first_wrong(alloc: Global, cases: &[Case]) -> Result<Option<usize>, AllocError> {
    for (i, (rows, arguments, before, turns, seen, after)) in cases.iter().enumerate() {
        let program = program_of(alloc, rows)?;
        if run(alloc, &program, arguments, *before, *turns)? != (*seen, *after) {
            return Ok(Some(i));
        }
    }
    Ok(None)
}

#[test]
fn turns_are_counted(rt: HostRuntime) -> Result<(), Fail> {
    let cases: [Case; 6] = [
        (&[COUNT], &[5], 0, 6, Seen::Ended(6, 1, 0), 0),
        (&[COUNT], &[5], 0, 5, Seen::Halted, 0),
        (&[COUNT], &[5], 0, 0, Seen::Halted, 0),
        (&[NEST], &[3], 0, 4, Seen::Ended(4, 1, 4), 0),
        (&[NEST], &[3], 0, 3, Seen::Halted, 0),
        (&[TAIL], &[3], 0, 9, Seen::Ended(4, 1, 4), 0),
    ];
    assert_eq!(rt; first_wrong(rt.alloc(), &cases)?, None);
    Ok(())
}

#[test]
fn control_goes_where_the_rules_say(rt: HostRuntime) -> Result<(), Fail> {
    let cases: [Case; 5] = [
        (&[BRANCH], &[], 0, 9, Seen::Ended(1, 1, 3), 0),
        (&[OVER], &[], 0, 9, Seen::Ended(1, 2, 2), 0),
        (&[TAKES], &[], 0, 9, Seen::Ended(1, 2, 5), 0),
        (&[OUT], &[], 0, 9, Seen::Ended(2, 1, 7), 0),
        (&[DOWN], &[0], 0, 9, Seen::Trapped(1), 0),
    ];
    assert_eq!(rt; first_wrong(rt.alloc(), &cases)?, None);
    Ok(())
}

#[test]
fn calls_take_operands_and_locals_of_their_own(rt: HostRuntime) -> Result<(), Fail> {
    let cases: [Case; 6] = [
        (&[MISSING], &[], 0, 9, Seen::Trapped(1), 0),
        (&[BY_TOP, DOWN], &[], 0, 9, Seen::Ended(2, 1, 2), 0),
        (&[BY_NOTHING], &[], 0, 9, Seen::Trapped(1), 0),
        (&[KEEPS, FRESH], &[5], 0, 9, Seen::Ended(2, 1, 9), 0),
        (&[GIVES, FRESH], &[5], 0, 9, Seen::Ended(2, 1, 0), 0),
        (&[FIRST], &[7, 8], 0, 9, Seen::Ended(1, 1, 7), 0),
    ];
    assert_eq!(rt; first_wrong(rt.alloc(), &cases)?, None);
    Ok(())
}

#[test]
fn exceptions_come_to_their_handlers(rt: HostRuntime) -> Result<(), Fail> {
    let cases: [Case; 4] = [
        (&[CATCHES, THROW], &[], 0, 9, Seen::Ended(2, 2, 5), 0),
        (&[PASSES, THROW], &[], 0, 9, Seen::Thrown(2, 5), 0),
        (&[OUTSIDE, THROW], &[], 0, 9, Seen::Ended(2, 1, 5), 0),
        (&[CATCHES, THROW], &[], 0, 1, Seen::Halted, 0),
    ];
    assert_eq!(rt; first_wrong(rt.alloc(), &cases)?, None);
    Ok(())
}

#[test]
fn the_host_is_called_without_a_turn(rt: HostRuntime) -> Result<(), Fail> {
    let cases: [Case; 3] = [
        (&[HOST], &[], 10, 1, Seen::Ended(1, 1, 10), 3),
        (&[HOST_TAIL], &[], 10, 1, Seen::Ended(1, 1, 10), 3),
        (&[HOST_THROW], &[], 10, 1, Seen::Thrown(1, 2), 3),
    ];
    assert_eq!(rt; first_wrong(rt.alloc(), &cases)?, None);
    Ok(())
}

#[test]
fn a_million_calls_are_open_at_once(rt: HostRuntime) -> Result<(), Fail> {
    let cases: [Case; 4] = [
        (
            &[NEST],
            &[1_000_000],
            0,
            1_000_001,
            Seen::Ended(1_000_001, 1, 4),
            0,
        ),
        (&[NEST], &[1_000_000], 0, 1_000_000, Seen::Halted, 0),
        (
            &[TAIL],
            &[1_000_000],
            0,
            1_000_001,
            Seen::Ended(1_000_001, 1, 4),
            0,
        ),
        (
            &[COUNT],
            &[1_000_000],
            0,
            1_000_001,
            Seen::Ended(1_000_001, 1, 0),
            0,
        ),
    ];
    assert_eq!(rt; first_wrong(rt.alloc(), &cases)?, None);
    Ok(())
}
