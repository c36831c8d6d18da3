// Functions of the small language.

use crate::steps::{Row, Step};

/// Counts down from the operand in a loop: each pass takes a turn.
pub const COUNT: Row = (
    1,
    1,
    0,
    &[
        Step::Loop(0, 0),
        Step::Get(0),
        Step::Down,
        Step::Set(0),
        Step::Get(0),
        Step::BrIf(0),
        Step::End,
        Step::Get(0),
    ],
);

/// Calls itself on one less until the operand is 0, and then gives 4.
pub const NEST: Row = (
    1,
    1,
    0,
    &[
        Step::Get(0),
        Step::If(0, 1),
        Step::Get(0),
        Step::Down,
        Step::Call(1, 0),
        Step::Else,
        Step::Const(4),
        Step::End,
    ],
);

/// The same by calls in its own place.
pub const TAIL: Row = (
    1,
    1,
    0,
    &[
        Step::Get(0),
        Step::If(0, 0),
        Step::Get(0),
        Step::Down,
        Step::Tail(0),
        Step::Else,
        Step::End,
        Step::Const(4),
    ],
);

/// Throws exception 5.
pub const THROW: Row = (0, 0, 0, &[Step::Const(8), Step::Throw(5)]);

/// One less than its operand.
pub const DOWN: Row = (1, 1, 0, &[Step::Get(0), Step::Down]);

/// Branches out of three blocks with the top.
pub const BRANCH: Row = (
    0,
    1,
    0,
    &[
        Step::Block(0, 1),
        Step::Const(1),
        Step::Block(0, 0),
        Step::Const(2),
        Step::Block(0, 0),
        Step::Const(3),
        Step::Br(2),
        Step::End,
        Step::End,
        Step::End,
    ],
);

/// Branches out of a block over an operand that stays.
pub const OVER: Row = (
    0,
    2,
    0,
    &[
        Step::Const(9),
        Step::Block(0, 1),
        Step::Const(1),
        Step::Const(2),
        Step::Br(0),
        Step::End,
    ],
);

/// A block that takes one of two operands.
pub const TAKES: Row = (
    0,
    2,
    0,
    &[
        Step::Const(5),
        Step::Const(6),
        Step::Block(1, 1),
        Step::Down,
        Step::End,
    ],
);

/// Returns out of a block and a loop.
pub const OUT: Row = (
    0,
    1,
    0,
    &[
        Step::Block(0, 0),
        Step::Loop(0, 0),
        Step::Const(7),
        Step::Return,
        Step::End,
        Step::End,
        Step::Trap,
    ],
);

/// Calls a function that is not there.
pub const MISSING: Row = (0, 0, 0, &[Step::Call(0, 9)]);

/// Calls function 1 by an index on top.
pub const BY_TOP: Row = (0, 1, 0, &[Step::Const(3), Step::Const(1), Step::CallBy(1)]);

/// Picks no function.
pub const BY_NOTHING: Row = (0, 1, 0, &[Step::Const(4_294_967_296), Step::CallBy(0)]);

/// Writes a local, calls function 1, and gives the local.
pub const KEEPS: Row = (
    1,
    1,
    1,
    &[
        Step::Const(9),
        Step::Set(1),
        Step::Get(0),
        Step::Call(1, 1),
        Step::Set(0),
        Step::Get(1),
    ],
);

/// Gives its further local, which is 0.
pub const FRESH: Row = (1, 1, 1, &[Step::Const(2), Step::Set(0), Step::Get(1)]);

/// Writes a local, calls function 1, and gives its result.
pub const GIVES: Row = (
    1,
    1,
    1,
    &[Step::Const(9), Step::Set(1), Step::Get(0), Step::Call(1, 1)],
);

/// Gives the first of two operands.
pub const FIRST: Row = (2, 1, 0, &[Step::Get(0)]);

/// Catches exception 5 of function 1 over an operand that stays.
pub const CATCHES: Row = (
    0,
    2,
    0,
    &[
        Step::Const(6),
        Step::Block(0, 1),
        Step::Try(0, 0, 5),
        Step::Const(1),
        Step::Call(0, 1),
        Step::End,
        Step::Trap,
        Step::End,
    ],
);

/// Catches exception 4 alone.
pub const PASSES: Row = (
    0,
    2,
    0,
    &[
        Step::Const(6),
        Step::Block(0, 1),
        Step::Try(0, 0, 4),
        Step::Const(1),
        Step::Call(0, 1),
        Step::End,
        Step::Trap,
        Step::End,
    ],
);

/// Catches exception 5 outside a handler of exception 4.
pub const OUTSIDE: Row = (
    0,
    1,
    0,
    &[
        Step::Block(0, 1),
        Step::Try(0, 0, 5),
        Step::Try(0, 0, 4),
        Step::Call(0, 1),
        Step::End,
        Step::End,
        Step::Trap,
        Step::End,
    ],
);

/// Calls the function of the host.
pub const HOST: Row = (0, 1, 0, &[Step::Const(3), Step::Call(1, 1)]);

/// Calls the function of the host in its own place.
pub const HOST_TAIL: Row = (0, 1, 0, &[Step::Const(3), Step::Tail(1)]);

/// Calls the function of the host, and then throws.
pub const HOST_THROW: Row = (0, 1, 0, &[Step::Const(3), Step::Call(1, 1), Step::Throw(2)]);
