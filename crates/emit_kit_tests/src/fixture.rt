// A module with a part of each kind, and a builder that begins with it.

use crate::calls::function;
use emit_kit::Emit;
use module_reading::FILE_LIMIT;
use read_new::read;
use sqlite_items::Items;
use std::alloc::{AllocError, Global};
use typed_trees::TypedFn;
use wasm_ast::module::{Module, Ty};

/// ```wat
/// (module
///   (type (func (param i32)))
///   (type (func (param i32)))
///   (type (func))
///   (type (func (result i64)))
///   (import "e" "f" (func (type 0)))
///   (import "e" "g" (global i32))
///   (import "e" "h" (global i64))
///   (table 2 3 funcref)
///   (memory 1 2)
///   (tag (type 1))
///   (global (mut i32) (i32.const 5))
///   (export "m" (memory 0))
///   (export "s" (func 2))
///   (start 1)
///   (elem (i32.const 0) func 1)
///   (data (i32.const 3) "abc")
///   (func (type 2) nop)
///   (func (type 3) (local i32 i64) i64.const 7))
/// ```
static BYTES: &[u8] =
    b"\x00asm\x01\x00\x00\x00\x01\x10\x04`\x01\x7F\x00`\x01\x7F\x00`\x00\x00`\x00\x01~\x02\x15\x03\x01e\x01f\x00\x00\x01e\x01g\x03\x7F\x00\x01e\x01h\x03~\x00\x03\x03\x02\x02\x03\x04\x05\x01p\x01\x02\x03\x05\x04\x01\x01\x01\x02\x0D\x03\x01\x00\x01\x06\x06\x01\x7F\x01A\x05\x0B\x07\x09\x02\x01m\x02\x00\x01s\x00\x02\x08\x01\x01\x09\x07\x01\x00A\x00\x0B\x01\x01\x0A\x0E\x02\x03\x00\x01\x0B\x08\x02\x01\x7F\x01~B\x07\x0B\x0B\x09\x01\x00A\x03\x0B\x03abc";

fn module(alloc: Global) -> Option<Module> {
    if BYTES.len() > FILE_LIMIT {
        return None;
    }
    read(alloc, BYTES).ok()
}

/// Bodies, whose locals are floats.
fn bodies(alloc: Global) -> Result<Items<TypedFn>, AllocError> {
    let mut fns = Items::new(alloc);
    for local in [Ty::F32, Ty::F64] {
        fns.push(function(alloc, local)?)?;
    }
    Ok(fns)
}

/// A builder that begins with the module and these bodies.
fn builder(alloc: Global, fns: Items<TypedFn>) -> Option<Emit> {
    match module(alloc) {
        Some(m) => Emit::new(alloc, m, fns).ok(),
        None => None,
    }
}

/// A builder that begins with the module and bodies.
pub fn begun(alloc: Global) -> Option<Emit> {
    match bodies(alloc) {
        Ok(fns) => builder(alloc, fns),
        Err(_) => None,
    }
}
