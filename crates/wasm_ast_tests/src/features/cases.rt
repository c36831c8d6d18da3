use crate::fixtures::{
    NARROW, WIDE, one, put_body, put_data, put_element, put_export, put_global, put_import,
    put_instr, put_table, put_type, types_of,
};
use sqlite_items::Items;
use std::alloc::{AllocError, Global};
use wasm_ast::lists::Types;
use wasm_ast::module::{BlockType, Code, ExportDesc, ImportDesc, Instr, Mode, Module, Op, Ty};

/// A part of a module.
#[derive(Clone, Copy)]
pub enum Case {
    /// A body of this operator.
    Operator(Op),
    /// Code of this operator.
    Code(Site, Op),
    /// A value that comes from there.
    Value(Site, Source),
    /// A place that names this type.
    Type(Place, Ty),
    /// A block type by index.
    Indexed(Place),
    /// An import.
    Import(ImportDesc),
    /// An export beside a global of this type.
    Export(ExportDesc, Ty),
    /// What has a feature by its size or its kind.
    Part(Part),
    /// A function of a type that takes exnref, of which a host meets this.
    Exnref(Met),
}

/// A place that names a value type.
#[derive(Clone, Copy)]
pub enum Place {
    Parameter,
    Result,
    Local,
    Global,
    ImportedGlobal,
    ImportedTable,
    Table,
    Element,
    Block,
    Loop,
    If,
    TryTable,
    Select,
    Null,
}

/// A place where code stands.
#[derive(Clone, Copy)]
pub enum Site {
    Body,
    Table,
    Global,
    Data,
    Offset,
    Entry,
    Block,
    Loop,
    First,
    Second,
    TryTable,
}

/// Where a value comes from.
#[derive(Clone, Copy)]
pub enum Source {
    Nothing,
    NoGlobal,
    ImportedGlobal,
}

/// What has a feature by its size, its kind or its index, where `true` is the one that has it.
#[derive(Clone, Copy)]
pub enum Part {
    Table(bool),
    ExportedTable(u32),
    ExportedImport(u32),
    Memory(bool),
    TwoMemories,
    SecondMemory,
    Results(bool),
    Tag,
    Data(bool),
}

/// What a host meets of a function type.
#[derive(Clone, Copy)]
pub enum Met {
    Nothing,
    Import(ImportDesc),
    OwnTag,
    Export,
}

/// Puts the part into the module.
pub fn put_case(alloc: Global, case: Case, m: &mut Module) -> Result<(), AllocError> {
    match case {
        Case::Operator(op) => put_instr(alloc, Instr::Pure(op), m),
        Case::Code(site, op) => put_code(alloc, site, one(alloc, Instr::Pure(op))?, m),
        Case::Value(site, source) => put_value(alloc, site, source, m),
        Case::Type(place, ty) => put_named(alloc, place, ty, m),
        Case::Indexed(place) => {
            let block = BlockType::Index(0);
            put_instr(alloc, with_block_type(alloc, place, block), m)
        }
        Case::Import(desc) => put_import(alloc, desc, m),
        Case::Export(desc, ty) => {
            put_global(ty, constant(alloc)?, m)?;
            put_export(alloc, desc, m)
        }
        Case::Part(part) => put_part(alloc, part, m),
        Case::Exnref(met) => put_exnref(alloc, met, m),
    }
}

/// The code of one constant.
fn constant(alloc: Global) -> Result<Code, AllocError> {
    one(alloc, Instr::Pure(Op::I32Const(0)))
}

/// Puts the code there.
fn put_code(alloc: Global, site: Site, code: Code, m: &mut Module) -> Result<(), AllocError> {
    match site {
        Site::Body => put_body(Types::new(alloc), code, m),
        Site::Table => put_table(Ty::Func, NARROW, Some(code), m),
        Site::Global => put_global(Ty::I32, code, m),
        Site::Data => put_data(alloc, Mode::Active(0, code), m),
        Site::Offset => put_element(Mode::Active(0, code), Ty::Func, Items::new(alloc), m),
        Site::Entry => put_element(Mode::Passive, Ty::Func, one(alloc, code)?, m),
        _ => put_instr(alloc, around(alloc, site, code), m),
    }
}

/// An instruction with this code inside.
fn around(alloc: Global, site: Site, code: Code) -> Instr {
    let ty = BlockType::Empty;
    match site {
        Site::Block => Instr::Block(ty, code),
        Site::Loop => Instr::Loop(ty, code),
        Site::First => Instr::If(ty, code, Items::new(alloc)),
        Site::Second => Instr::If(ty, Items::new(alloc), code),
        _ => Instr::TryTable(ty, Items::new(alloc), code),
    }
}

/// Puts a value there.
fn put_value(alloc: Global, site: Site, source: Source, m: &mut Module) -> Result<(), AllocError> {
    match source {
        Source::Nothing => put_code(alloc, site, Items::new(alloc), m),
        Source::NoGlobal => put_code(alloc, site, one(alloc, Instr::GlobalGet(0))?, m),
        Source::ImportedGlobal => {
            put_import(alloc, ImportDesc::Global(Ty::I32, false), m)?;
            put_code(alloc, site, one(alloc, Instr::GlobalGet(0))?, m)
        }
    }
}

/// Puts something there that names the type.
fn put_named(alloc: Global, place: Place, ty: Ty, m: &mut Module) -> Result<(), AllocError> {
    let types = [ty];
    match place {
        Place::Parameter => put_type(alloc, types.as_slice(), [].as_slice(), m),
        Place::Result => put_type(alloc, [].as_slice(), types.as_slice(), m),
        Place::Local => put_body(types_of(alloc, types.as_slice())?, Items::new(alloc), m),
        Place::Global => put_global(ty, constant(alloc)?, m),
        Place::ImportedGlobal => put_import(alloc, ImportDesc::Global(ty, false), m),
        Place::ImportedTable => put_import(alloc, ImportDesc::Table(ty, NARROW), m),
        Place::Table => put_table(ty, NARROW, None, m),
        Place::Element => put_element(Mode::Passive, ty, Items::new(alloc), m),
        Place::Select => {
            let types = types_of(alloc, types.as_slice())?;
            put_instr(alloc, Instr::SelectTyped(types), m)
        }
        Place::Null => put_instr(alloc, Instr::Pure(Op::RefNull(ty)), m),
        _ => put_instr(alloc, with_block_type(alloc, place, BlockType::One(ty)), m),
    }
}

/// An instruction of this block type.
fn with_block_type(alloc: Global, place: Place, block: BlockType) -> Instr {
    match place {
        Place::Loop => Instr::Loop(block, Items::new(alloc)),
        Place::If => Instr::If(block, Items::new(alloc), Items::new(alloc)),
        Place::TryTable => Instr::TryTable(block, Items::new(alloc), Items::new(alloc)),
        _ => Instr::Block(block, Items::new(alloc)),
    }
}

/// Puts the part into the module.
fn put_part(alloc: Global, part: Part, m: &mut Module) -> Result<(), AllocError> {
    let two: &[Ty] = &[Ty::I32, Ty::I64];
    match part {
        Part::Table(wide) => put_table(Ty::Func, if wide { WIDE } else { NARROW }, None, m),
        Part::ExportedTable(table) => {
            put_table(Ty::Func, NARROW, None, m)?;
            put_export(alloc, ExportDesc::Table(table), m)
        }
        Part::ExportedImport(table) => {
            put_import(alloc, ImportDesc::Table(Ty::Func, NARROW), m)?;
            put_export(alloc, ExportDesc::Table(table), m)
        }
        Part::Memory(wide) => m.memories.push(if wide { WIDE } else { NARROW }),
        Part::TwoMemories => {
            m.memories.push(NARROW)?;
            m.memories.push(NARROW)
        }
        Part::SecondMemory => {
            m.memories.push(NARROW)?;
            put_import(alloc, ImportDesc::Memory(NARROW), m)
        }
        Part::Results(true) => put_type(alloc, [].as_slice(), two, m),
        Part::Results(false) => put_type(alloc, two, [Ty::I32].as_slice(), m),
        Part::Tag => m.tags.push(0),
        Part::Data(true) => put_data(alloc, Mode::Passive, m),
        Part::Data(false) => put_data(alloc, Mode::Active(0, constant(alloc)?), m),
    }
}

/// Puts a function of a type that takes exnref into the module, and this of what a host meets.
fn put_exnref(alloc: Global, met: Met, m: &mut Module) -> Result<(), AllocError> {
    put_type(alloc, [Ty::Exn].as_slice(), [].as_slice(), m)?;
    m.funcs.push(0)?;
    match met {
        Met::Nothing => Ok(()),
        Met::Import(desc) => put_import(alloc, desc, m),
        Met::OwnTag => m.tags.push(0),
        Met::Export => put_export(alloc, ExportDesc::Func(0), m),
    }
}
