// The parts of a module of 1.0, in the order of its sections, and its code.

mod code;
mod copies;
mod immediates;
mod op;
mod part_copies;
mod parts;
mod ty;

pub use code::{Body1, Code1, Instr1};
pub use immediates::{FloatImmediates1, MemArg1};
pub use op::{Conv1, Op1};
pub use parts::{Element1, Export1, ExportDesc1, Global1, Import1, ImportDesc1, Module1, Segment1};
pub use ty::{BlockType1, FuncType1, Limits1, Ty1};
