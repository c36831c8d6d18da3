ghost use Rattle.std.specs.Prelude.{◌≡◌};
ghost use Rattle.wasm_ast.specs.Types.{type_code};

use crate::lists::Types;
use num_core::lists::TryCopy;
use std::alloc::{AllocError, Global};

/// A value type (the standard's "Value Types").
#[derive(Clone, Copy, Debug, Default, PartialEq, Eq)]
pub enum Ty {
    /// An integer of 32 bits.
    #[default]
    I32,
    /// An integer of 64 bits.
    I64,
    /// A float of 32 bits. It is read and then refused.
    F32,
    /// A float of 64 bits. It is read and then refused.
    F64,
    /// A vector of 128 bits.
    V128,
    /// funcref: null or a function.
    Func,
    /// externref: null or a value of the host's.
    Extern,
    /// exnref: null or an exception.
    Exn,
}

/// The byte that stands for the type in the binary format (the standard's chapter 5, "Types").
pub fn type_code(ty: Ty) -> u8
    ensures { result ≡ type_code ty }
{
    match ty {
        Ty::I32 => 0x7F,
        Ty::I64 => 0x7E,
        Ty::F32 => 0x7D,
        Ty::F64 => 0x7C,
        Ty::V128 => 0x7B,
        Ty::Func => 0x70,
        Ty::Extern => 0x6F,
        Ty::Exn => 0x69,
    }
}

/// A function type: the types of the parameters and of the results (the standard's "Function Types").
#[derive(Drop)]
pub struct FuncType {
    /// The types of the parameters, first to last.
    pub params: Types,
    /// The types of the results, first to last.
    pub results: Types,
}

impl TryCopy for FuncType {
    fn copy(&self, alloc: Global) -> Result<FuncType, AllocError> {
        Ok(FuncType {
            params: self.params.copy(alloc)?,
            results: self.results.copy(alloc)?,
        })
    }
}

/// The size limits of a memory in pages, or of a table in entries (the standard's "Limits").
#[derive(Clone, Copy, Debug, PartialEq, Eq)]
pub struct Limits {
    /// The least size, with which it begins.
    pub min: u64,
    /// The greatest size, if there is one.
    pub max: Option<u64>,
    /// Whether its addresses have 64 bits, and else 32.
    pub wide: bool,
}

/// The type of a block (the standard's "Block Types").
#[derive(Clone, Copy, PartialEq, Eq)]
pub enum BlockType {
    /// No parameters and no result.
    Empty,
    /// No parameters and one result.
    One(Ty),
    /// The function type with this index.
    Index(u32),
}
