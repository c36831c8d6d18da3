ghost use Rattle.std.specs.Prelude.{◌≡◌, IfOk};

use super::code::{Body, Code, Instr};
use num_core::lists::TryCopy;
use sqlite_items::Items;
use std::alloc::{AllocError, Global};

impl TryCopy for Instr {
    #[cycle(copies)]
    fn copy(&self, alloc: Global) -> Result<Instr, AllocError> {
        Ok(match self {
            Instr::Unreachable => Instr::Unreachable,
            Instr::Nop => Instr::Nop,
            Instr::Block(ty, code) => Instr::Block(*ty, copy_of(code, alloc)?),
            Instr::Loop(ty, code) => Instr::Loop(*ty, copy_of(code, alloc)?),
            Instr::If(ty, first, second) => {
                Instr::If(*ty, copy_of(first, alloc)?, copy_of(second, alloc)?)
            }
            Instr::Throw(tag) => Instr::Throw(*tag),
            Instr::ThrowRef => Instr::ThrowRef,
            Instr::Br(label) => Instr::Br(*label),
            Instr::BrIf(label) => Instr::BrIf(*label),
            Instr::BrTable(labels, last) => {
                Instr::BrTable(Items::from_slice(alloc, labels.as_slice())?, *last)
            }
            Instr::Return => Instr::Return,
            Instr::Call(func) => Instr::Call(*func),
            Instr::CallIndirect(ty, table) => Instr::CallIndirect(*ty, *table),
            Instr::ReturnCall(func) => Instr::ReturnCall(*func),
            Instr::ReturnCallIndirect(ty, table) => Instr::ReturnCallIndirect(*ty, *table),
            Instr::TryTable(ty, clauses, code) => {
                let clauses = Items::from_slice(alloc, clauses.as_slice())?;
                Instr::TryTable(*ty, clauses, copy_of(code, alloc)?)
            }
            Instr::Drop => Instr::Drop,
            Instr::Select => Instr::Select,
            Instr::SelectTyped(types) => Instr::SelectTyped(types.copy(alloc)?),
            Instr::LocalGet(local) => Instr::LocalGet(*local),
            Instr::LocalSet(local) => Instr::LocalSet(*local),
            Instr::LocalTee(local) => Instr::LocalTee(*local),
            Instr::GlobalGet(global) => Instr::GlobalGet(*global),
            Instr::GlobalSet(global) => Instr::GlobalSet(*global),
            Instr::TableGet(table) => Instr::TableGet(*table),
            Instr::TableSet(table) => Instr::TableSet(*table),
            Instr::TableInit(segment, table) => Instr::TableInit(*segment, *table),
            Instr::ElemDrop(segment) => Instr::ElemDrop(*segment),
            Instr::TableCopy(to, from) => Instr::TableCopy(*to, *from),
            Instr::TableGrow(table) => Instr::TableGrow(*table),
            Instr::TableSize(table) => Instr::TableSize(*table),
            Instr::TableFill(table) => Instr::TableFill(*table),
            Instr::Load(op, at) => Instr::Load(*op, *at),
            Instr::Store(op, at) => Instr::Store(*op, *at),
            Instr::LoadVector(op, at) => Instr::LoadVector(*op, *at),
            Instr::StoreVector(at) => Instr::StoreVector(*at),
            Instr::LoadLane(shape, at, lane) => Instr::LoadLane(*shape, *at, *lane),
            Instr::StoreLane(shape, at, lane) => Instr::StoreLane(*shape, *at, *lane),
            Instr::MemorySize(memory) => Instr::MemorySize(*memory),
            Instr::MemoryGrow(memory) => Instr::MemoryGrow(*memory),
            Instr::MemoryInit(segment, memory) => Instr::MemoryInit(*segment, *memory),
            Instr::DataDrop(segment) => Instr::DataDrop(*segment),
            Instr::MemoryCopy(to, from) => Instr::MemoryCopy(*to, *from),
            Instr::MemoryFill(memory) => Instr::MemoryFill(*memory),
            Instr::Pure(op) => Instr::Pure(*op),
            Instr::Float(code, immediates) => Instr::Float(*code, *immediates),
        })
    }
}

/// The code again, instruction by instruction.
#[cycle(copies)]
fn copy_of(code: &Code, alloc: Global) -> Result<Code, AllocError>
    ensures { IfOk result (λ copy. copy ≡ code.now) }
{
    let mut copy = Items::new(alloc);
    for instr in code.as_slice() {
        copy.push(instr.copy(alloc)?)?;
    }
    Ok(copy)
}

impl TryCopy for Body {
    fn copy(&self, alloc: Global) -> Result<Body, AllocError> {
        Ok(Body {
            locals: self.locals.copy(alloc)?,
            code: copy_of(&self.code, alloc)?,
        })
    }
}
