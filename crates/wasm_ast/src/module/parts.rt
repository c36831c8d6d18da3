use super::code::{Body, Code};
use super::ty::{FuncType, Limits, Ty};
use num_core::lists::{Bytes, Text};
use sqlite_items::Items;

/// What an import asks of the host.
#[derive(Clone, Copy, Debug, PartialEq, Eq)]
pub enum ImportDesc {
    /// A function of the type with this index.
    Func(u32),
    /// A table of this reference type, with these limits.
    Table(Ty, Limits),
    /// A memory with these limits.
    Memory(Limits),
    /// A global of this type, and whether it is mutable.
    Global(Ty, bool),
    /// A tag of the type with this index.
    Tag(u32),
}

/// An import: two names of the host's, and what it asks for (the standard's "Imports").
#[derive(Drop)]
pub struct Import {
    /// The name of the host's module.
    pub module: Text,
    /// The name within it.
    pub name: Text,
    /// What it asks for.
    pub desc: ImportDesc,
}

/// A table of the module (the standard's "Tables").
#[derive(Drop)]
pub struct Table {
    /// Its reference type.
    pub ty: Ty,
    /// Its size.
    pub limits: Limits,
    /// The expression of its first entries; without one they are null.
    pub init: Option<Code>,
}

/// A global of the module (the standard's "Globals").
#[derive(Drop)]
pub struct Global {
    /// Its type.
    pub ty: Ty,
    /// Whether it can be changed.
    pub mutable: bool,
    /// The expression of its initial value.
    pub init: Code,
}

/// What an export gives to the host, by its index among its kind.
#[derive(Clone, Copy, Debug, PartialEq, Eq)]
pub enum ExportDesc {
    /// A function.
    Func(u32),
    /// A table.
    Table(u32),
    /// A memory.
    Memory(u32),
    /// A global.
    Global(u32),
    /// A tag.
    Tag(u32),
}

/// An export: a name of the host's, and what it names (the standard's "Exports").
#[derive(Drop)]
pub struct Export {
    /// The name.
    pub name: Text,
    /// What it names.
    pub desc: ExportDesc,
}

/// How a segment comes into its table or memory (the standard's "Element Segments" and "Data Segments").
#[derive(Drop)]
pub enum Mode {
    /// While instantiating: into the table or memory with this index, at the offset that the expression gives.
    Active(u32, Code),
    /// By an instruction.
    Passive,
    /// Never: it only declares functions. A data segment is never declarative.
    Declarative,
}

/// An element segment: references for a table.
#[derive(Drop)]
pub struct Element {
    /// How it comes into its table.
    pub mode: Mode,
    /// The reference type of its entries.
    pub ty: Ty,
    /// The expressions of its entries; a function index f is `ref.func f`.
    pub items: Items<Code>,
}

/// A data segment: bytes for a memory.
#[derive(Drop)]
pub struct Segment {
    /// How it comes into its memory.
    pub mode: Mode,
    /// Its bytes.
    pub bytes: Bytes,
}

/// A module of 3.0: each field is the content of its section, in order (the standard's "Modules").
#[derive(Drop)]
pub struct Module {
    /// The function types.
    pub types: Items<FuncType>,
    /// The imports.
    pub imports: Items<Import>,
    /// The type index of each function of the module.
    pub funcs: Items<u32>,
    /// The tables.
    pub tables: Items<Table>,
    /// The sizes of the memories.
    pub memories: Items<Limits>,
    /// The type index of each tag.
    pub tags: Items<u32>,
    /// The globals.
    pub globals: Items<Global>,
    /// The exports.
    pub exports: Items<Export>,
    /// The function that runs first, if there is one.
    pub start: Option<u32>,
    /// The element segments.
    pub elems: Items<Element>,
    /// The count of the data segments that is told before the code, if there is one.
    pub data_count: Option<u32>,
    /// The bodies of the functions of the module.
    pub codes: Items<Body>,
    /// The data segments.
    pub datas: Items<Segment>,
}
