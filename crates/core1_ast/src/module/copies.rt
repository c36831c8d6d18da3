ghost use Rattle.std.specs.Prelude.{◌≡◌, IfOk};

use super::code::{Body1, Code1, Instr1};
use num_core::lists::TryCopy;
use sqlite_items::Items;
use std::alloc::{AllocError, Global};

impl TryCopy for Instr1 {
    #[cycle(copies)]
    fn copy(&self, alloc: Global) -> Result<Instr1, AllocError> {
        Ok(match self {
            Instr1::Unreachable => Instr1::Unreachable,
            Instr1::Nop => Instr1::Nop,
            Instr1::Block(ty, code) => Instr1::Block(*ty, copy_of(code, alloc)?),
            Instr1::Loop(ty, code) => Instr1::Loop(*ty, copy_of(code, alloc)?),
            Instr1::If(ty, first, second) => {
                Instr1::If(*ty, copy_of(first, alloc)?, copy_of(second, alloc)?)
            }
            Instr1::Br(label) => Instr1::Br(*label),
            Instr1::BrIf(label) => Instr1::BrIf(*label),
            Instr1::BrTable(labels, last) => {
                Instr1::BrTable(Items::from_slice(alloc, labels.as_slice())?, *last)
            }
            Instr1::Return => Instr1::Return,
            Instr1::Call(func) => Instr1::Call(*func),
            Instr1::CallIndirect(ty) => Instr1::CallIndirect(*ty),
            Instr1::Drop => Instr1::Drop,
            Instr1::Select => Instr1::Select,
            Instr1::LocalGet(local) => Instr1::LocalGet(*local),
            Instr1::LocalSet(local) => Instr1::LocalSet(*local),
            Instr1::LocalTee(local) => Instr1::LocalTee(*local),
            Instr1::GlobalGet(global) => Instr1::GlobalGet(*global),
            Instr1::GlobalSet(global) => Instr1::GlobalSet(*global),
            Instr1::Load(op, at) => Instr1::Load(*op, *at),
            Instr1::Store(op, at) => Instr1::Store(*op, *at),
            Instr1::MemorySize => Instr1::MemorySize,
            Instr1::MemoryGrow => Instr1::MemoryGrow,
            Instr1::Pure(op) => Instr1::Pure(*op),
            Instr1::Float(code, immediates) => Instr1::Float(*code, *immediates),
        })
    }
}

/// The code again, instruction by instruction.
#[cycle(copies)]
fn copy_of(code: &Code1, alloc: Global) -> Result<Code1, AllocError>
    ensures { IfOk result (λ copy. copy ≡ code.now) }
{
    let mut copy = Items::new(alloc);
    for instr in code.as_slice() {
        copy.push(instr.copy(alloc)?)?;
    }
    Ok(copy)
}

impl TryCopy for Body1 {
    fn copy(&self, alloc: Global) -> Result<Body1, AllocError> {
        Ok(Body1 {
            locals: Items::from_slice(alloc, self.locals.as_slice())?,
            code: copy_of(&self.code, alloc)?,
        })
    }
}
