// The parts of a module, in the order of its sections, and its code.

mod code;
mod copies;
mod immediates;
mod op;
mod part_copies;
mod parts;
mod ty;

pub use code::{Body, Code, Instr};
pub use immediates::{Catch, FloatCode, FloatImmediates, MemArg};
pub use op::Op;
pub use parts::{
    Element, Export, ExportDesc, Global, Import, ImportDesc, Mode, Module, Segment, Table,
};
pub use ty::{BlockType, FuncType, Limits, Ty, type_code};
