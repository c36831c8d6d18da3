// For each rule of code a smallest body that breaks it alone, and one that just does not.

mod control;
mod numeric;
mod state;

use crate::steps::Step;
pub use control::{blocks, calls, dead, jumps};
use core1_ast::module::{BlockType1, Op1, Ty1};
use num_core::operators::{Bin, Width};
pub use numeric::{operators, selections};
pub use state::{accesses, variables};

/// The results of a function, its code, and whether it is typed. Its parameters are an i32 and an i64, and it declares an
/// i64. Of the module `crate::bodies` says more.
pub type Row = (BlockType1, &'static [Step], bool);

/// No result.
pub const NONE: BlockType1 = BlockType1::Empty;

/// An i32.
pub const I32: BlockType1 = BlockType1::One(Ty1::I32);

/// An i64.
pub const I64: BlockType1 = BlockType1::One(Ty1::I64);

/// i32.const.
pub const C32: Step = Step::Op(Op1::I32Const(1));

/// i64.const.
pub const C64: Step = Step::Op(Op1::I64Const(1));

/// i32.add.
pub const ADD: Step = Step::Op(Op1::Binary(Width::W32, Bin::Add));
