// The module of a file whose payloads are in the grammar and within the limits.

ghost use Rattle.std.specs.Prelude.{◌≡◌, IfOk};
ghost use Rattle.module_reading.specs.Files.{payloads};
ghost use Rattle.read_new.specs.Made.{made};
ghost use Rattle.read_new.specs.Sizes.{declared_of};

use crate::parts::{
    BodyEntry, ElementEntry, ExportEntry, FuncEntry, GlobalEntry, ImportEntry, LimitsEntry,
    SegmentEntry, TableEntry,
};
use crate::three::TypesAndTags;
use module_reading::File;
use std::alloc::{AllocError, Global};
use wasm_ast::module::Module;

/// The module, of which the function types and the tags are built already.
#[tactic(auto, unfolding(crate::specs::Made::made))]
pub fn build(alloc: Global, file: &File<'_>, declared: TypesAndTags) -> Result<Module, AllocError>
    requires { declared ≡ declared_of (made (payloads file.now)) }
    ensures { IfOk result (λ m. m ≡ made (payloads file.now)) }
{
    Ok(Module {
        types: declared.types,
        imports: file.entries::<ImportEntry>(alloc, 2)?,
        funcs: file.entries::<FuncEntry>(alloc, 3)?,
        tables: file.entries::<TableEntry>(alloc, 4)?,
        memories: file.entries::<LimitsEntry>(alloc, 5)?,
        tags: declared.tags,
        globals: file.entries::<GlobalEntry>(alloc, 6)?,
        exports: file.entries::<ExportEntry>(alloc, 7)?,
        start: file.number(8),
        elems: file.entries::<ElementEntry>(alloc, 9)?,
        data_count: file.number(12),
        codes: file.entries::<BodyEntry>(alloc, 10)?,
        datas: file.entries::<SegmentEntry>(alloc, 11)?,
    })
}
