use num_core::lists::TryCopy;
use sqlite_items::Items;
use std::alloc::{AllocError, Global};

/// A value type of 1.0 (the standard's "Value Types").
#[derive(Clone, Copy, Debug, Default, PartialEq, Eq)]
pub enum Ty1 {
    /// An integer of 32 bits.
    #[default]
    I32,
    /// An integer of 64 bits.
    I64,
    /// A float of 32 bits. It is read, and no module that names it is typed.
    F32,
    /// A float of 64 bits. It is read, and no module that names it is typed.
    F64,
}

/// A function type: the types of the parameters and of the results (the standard's "Function Types"). A typed module
/// has at most one result in each.
#[derive(Drop)]
pub struct FuncType1 {
    /// The types of the parameters, first to last.
    pub params: Items<Ty1>,
    /// The types of the results, first to last.
    pub results: Items<Ty1>,
}

impl TryCopy for FuncType1 {
    fn copy(&self, alloc: Global) -> Result<FuncType1, AllocError> {
        Ok(FuncType1 {
            params: Items::from_slice(alloc, self.params.as_slice())?,
            results: Items::from_slice(alloc, self.results.as_slice())?,
        })
    }
}

/// The size limits of a memory in pages of 65,536 bytes, or of a table in entries (the standard's "Limits").
#[derive(Clone, Copy, Debug, PartialEq, Eq)]
pub struct Limits1 {
    /// The least size, with which it begins.
    pub min: u32,
    /// The greatest size, if there is one.
    pub max: Option<u32>,
}

/// The type of a block, which has no parameters (the standard's "Control Instructions", result types).
#[derive(Clone, Copy, Debug, PartialEq, Eq)]
pub enum BlockType1 {
    /// No result.
    Empty,
    /// One result.
    One(Ty1),
}
