// What a module exports.
ghost use Rattle.std.specs.Prelude.{◌≡◌, ℕ, List, IfOk, Some};
ghost use Rattle.meaning_core1.specs.Store.{host_value, value_from};
ghost use Rattle.host_kit.specs.Offered1.{exported1};
ghost use Rattle.meaning_core1.specs.Hosting.{exported_values};

use crate::program::Program;
use crate::slot::{ABSENT, Slot};
use crate::state::State;
use core1_ast::module::ExportDesc1;
use host_kit::{Value, Values};
use meaning_core1::Val1;
use sqlite_items::Items;
use std::alloc::{AllocError, Global};

/// A value as its host sees it.
pub fn host_value(value: Slot) -> Value
    ensures { result ≡ host_value value }
{
    match value.value() {
        Val1::I32(i) => Value::I32(i),
        Val1::I64(i) => Value::I64(i),
    }
}

/// A value of the host's, of which only integers meet a module of 1.0.
pub fn value_from(value: Value) -> Slot
    ensures { result ≡ value_from value }
{
    match value {
        Value::I32(i) => Slot::i32(i),
        Value::I64(i) => Slot::i64(i),
        _ => ABSENT,
    }
}

impl<'a> Program<'a> {
    /// What the module exports under a name.
    pub fn export(&self, name: &str) -> Option<ExportDesc1>
        ensures { result ≡ exported1 self.now name.now }
    {
        for export in self.module().exports.as_slice() {
            if export.name.as_str() == name {
                return Some(export.desc);
            }
        }
        None
    }

    /// The values of the exported globals, in export order. It fails for want of memory alone.
    pub fn exported_values(&self, alloc: Global, state: &State) -> Result<Values, AllocError>
        ensures { IfOk result (λ values. values ≡ exported_values self.now state.now) }
    {
        let mut values = Items::new(alloc);
        for export in self.module().exports.as_slice() {
            if let ExportDesc1::Global(global) = export.desc {
                values.push(host_value(state.global(global)))?;
            }
        }
        Ok(values)
    }
}
