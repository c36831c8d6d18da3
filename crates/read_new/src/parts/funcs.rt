ghost use Rattle.wasm_frame.specs.Leb128.{u32};

use grammar_kit::{Entry, FormError};
use std::alloc::Global;
use wasm_frame::leb128::split_u32;

/// An entry of the function section: the type index of a function.
pub struct FuncEntry;

impl Entry for FuncEntry {
    type Value = u32;

    ghost form = { u32 };

    fn entry(_alloc: Global, bytes: &[u8]) -> Result<(u32, &[u8]), FormError> {
        split_u32(bytes).ok_or(FormError::Malformed)
    }
}
