ghost use Rattle.std.specs.Prelude.{◌≡◌};
ghost use Rattle.wasm_ast.specs.declared.module.code.Instr.{out-Instr};
ghost use Rattle.valid_new.specs.Groups.{group};

use wasm_ast::module::Instr;

/// The groups in which instructions are planned.
#[derive(Clone, Copy)]
pub enum Group {
    /// Parametric and variable instructions.
    Variables,
    /// Control instructions without code, operators, and instructions on floats.
    Control,
    /// Instructions on tables.
    Tables,
    /// Instructions on memories.
    Memories,
    /// Instructions that hold code, and br_table.
    Nested,
}

/// The group of an instruction.
pub fn group_of(instr: &Instr) -> Group
    ensures { result ≡ group (out-Instr instr.now) }
{
    match instr {
        Instr::Nop
        | Instr::Unreachable
        | Instr::Drop
        | Instr::Select
        | Instr::SelectTyped(_)
        | Instr::LocalGet(_)
        | Instr::LocalSet(_)
        | Instr::LocalTee(_)
        | Instr::GlobalGet(_)
        | Instr::GlobalSet(_) => Group::Variables,
        Instr::Br(_)
        | Instr::BrIf(_)
        | Instr::Return
        | Instr::Throw(_)
        | Instr::ThrowRef
        | Instr::Call(_)
        | Instr::CallIndirect(_, _)
        | Instr::ReturnCall(_)
        | Instr::ReturnCallIndirect(_, _)
        | Instr::Pure(_)
        | Instr::Float(_, _) => Group::Control,
        Instr::TableGet(_)
        | Instr::TableSet(_)
        | Instr::TableSize(_)
        | Instr::TableGrow(_)
        | Instr::TableFill(_)
        | Instr::TableCopy(_, _)
        | Instr::TableInit(_, _)
        | Instr::ElemDrop(_) => Group::Tables,
        Instr::Load(_, _)
        | Instr::Store(_, _)
        | Instr::LoadVector(_, _)
        | Instr::StoreVector(_)
        | Instr::LoadLane(_, _, _)
        | Instr::StoreLane(_, _, _)
        | Instr::MemorySize(_)
        | Instr::MemoryGrow(_)
        | Instr::MemoryFill(_)
        | Instr::MemoryCopy(_, _)
        | Instr::MemoryInit(_, _)
        | Instr::DataDrop(_) => Group::Memories,
        Instr::Block(_, _)
        | Instr::Loop(_, _)
        | Instr::If(_, _, _)
        | Instr::TryTable(_, _, _)
        | Instr::BrTable(_, _) => Group::Nested,
    }
}
