use super::code::{Body1, Code1};
use super::ty::{FuncType1, Limits1, Ty1};
use num_core::lists::{Bytes, Text};
use sqlite_items::Items;

/// What an import asks of the host.
#[derive(Clone, Copy, Debug, PartialEq, Eq)]
pub enum ImportDesc1 {
    /// A function of the type with this index.
    Func(u32),
    /// A table with these limits.
    Table(Limits1),
    /// A memory with these limits.
    Memory(Limits1),
    /// A global of this type, and whether it is mutable.
    Global(Ty1, bool),
}

/// An import: two names of the host's, and what it asks for (the standard's "Imports").
#[derive(Drop)]
pub struct Import1 {
    /// The name of the host's module.
    pub module: Text,
    /// The name within it.
    pub name: Text,
    /// What it asks for.
    pub desc: ImportDesc1,
}

/// A global of the module (the standard's "Globals").
#[derive(Drop)]
pub struct Global1 {
    /// Its type.
    pub ty: Ty1,
    /// Whether it can be changed.
    pub mutable: bool,
    /// The expression of its initial value.
    pub init: Code1,
}

/// What an export gives to the host, by its index among its kind.
#[derive(Clone, Copy, Debug, PartialEq, Eq)]
pub enum ExportDesc1 {
    /// A function.
    Func(u32),
    /// A table.
    Table(u32),
    /// A memory.
    Memory(u32),
    /// A global.
    Global(u32),
}

/// An export: a name of the host's, and what it names (the standard's "Exports").
#[derive(Drop)]
pub struct Export1 {
    /// The name.
    pub name: Text,
    /// What it names.
    pub desc: ExportDesc1,
}

/// An element segment: functions that come into a table while instantiating (the standard's "Element Segments").
#[derive(Drop)]
pub struct Element1 {
    /// The index of the table.
    pub table: u32,
    /// The expression of the place of the first entry.
    pub offset: Code1,
    /// The indices of the functions.
    pub items: Items<u32>,
}

/// A data segment: bytes that come into a memory while instantiating (the standard's "Data Segments").
#[derive(Drop)]
pub struct Segment1 {
    /// The index of the memory.
    pub memory: u32,
    /// The expression of the address of the first byte.
    pub offset: Code1,
    /// The bytes.
    pub bytes: Bytes,
}

/// A module of 1.0: each field is the content of its section, in order (the standard's "Modules").
#[derive(Drop)]
pub struct Module1 {
    /// The function types.
    pub types: Items<FuncType1>,
    /// The imports.
    pub imports: Items<Import1>,
    /// The type index of each function of the module.
    pub funcs: Items<u32>,
    /// The sizes of the tables.
    pub tables: Items<Limits1>,
    /// The sizes of the memories.
    pub memories: Items<Limits1>,
    /// The globals.
    pub globals: Items<Global1>,
    /// The exports.
    pub exports: Items<Export1>,
    /// The function that runs first, if there is one.
    pub start: Option<u32>,
    /// The element segments.
    pub elems: Items<Element1>,
    /// The bodies of the functions of the module.
    pub codes: Items<Body1>,
    /// The data segments.
    pub datas: Items<Segment1>,
}
