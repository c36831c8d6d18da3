ghost use Rattle.std.specs.Prelude.{◌≡◌, ◌||◌, not, IfOk};
ghost use Rattle.std.specs.List.{list_any};
ghost use Rattle.wasm_ast.specs.Facts.{facts_of};
ghost use Rattle.wasm_ast.specs.Features.{shows};
ghost use Rattle.wasm_ast.specs.Places.{in_bodies, anywhere, declares, holds};
ghost use Rattle.wasm_ast.specs.Spaces.{imported, is_global};
ghost use Rattle.wasm_ast.specs.Has.{has_of, import_passes, imports_some};

use super::declared::{declares, holds};
use super::exnref::names_exnref;
use super::exports::{exports_table, exports_wide_global};
use super::imports::{ImportTest, some_import};
use super::instructions::Shows;
use super::kind::Feature;
use super::parts::{
    has_computed_datas, has_computed_elements, has_computed_globals, has_initialisers, has_passive,
    has_several_results, has_table, has_two_memories, is_memory_wide, is_table_wide,
};
use super::places::{anywhere_given, outside_elements_given};
use crate::facts::{Facts, facts_of};
use crate::kept::keeps_table_given;
use crate::module::Module;
use crate::spaces::imported_globals;
use std::alloc::{AllocError, Global};

/// Whether the module has the feature, in code that cannot be reached too. It takes time linear in the module, but for
/// `Tables` one look-up in a map for each function type. It fails for want of memory alone. Where several features are
/// asked for, `has_given` walks the bodies once for all.
pub fn has(alloc: Global, m: &Module, feature: Feature) -> Result<bool, AllocError>
    ensures { IfOk result (λ yes. yes ≡ has_of m.now feature) }
{
    has_given(alloc, m, &facts_of(m), feature)
}

/// The same, where it is known what the bodies of the module show.
pub fn has_given(
    alloc: Global,
    m: &Module,
    facts: &Facts,
    feature: Feature,
) -> Result<bool, AllocError>
    requires { facts.now ≡ facts_of m.now }
    ensures { IfOk result (λ yes. yes ≡ has_of m.now feature) }
{
    match feature {
        Feature::WideGlobal => Ok(
            imports_some(m, ImportTest::WideGlobal) || exports_wide_global(alloc, m)?,
        ),
        Feature::HostExnref => names_exnref(alloc, m),
        Feature::Tables => Ok(
            in_code(m, facts.tables, feature)
                || (has_table(m) && !keeps_table_given(alloc, m, facts)?),
        ),
        Feature::WideTable => Ok(
            imports_some(m, ImportTest::WideTable) || is_table_wide(m.tables.as_slice()),
        ),
        Feature::TableInitialiser => Ok(has_initialisers(m.tables.as_slice())),
        Feature::ImportedTable => Ok(imports_some(m, ImportTest::Table)),
        Feature::ImportedTag => Ok(imports_some(m, ImportTest::Tag)),
        Feature::ImportedMutableGlobal => Ok(imports_some(m, ImportTest::MutableGlobal)),
        Feature::ImportedMemory => Ok(imports_some(m, ImportTest::Memory)),
        Feature::ExportedTable => Ok(exports_table(m)),
        Feature::ExnrefTable => Ok(holds(m, Feature::Exceptions)),
        Feature::WideMemory => Ok(
            imports_some(m, ImportTest::WideMemory) || is_memory_wide(m.memories.as_slice()),
        ),
        Feature::Memories => Ok(has_two_memories(m)),
        Feature::Constants => Ok(has_computed_values(m)),
        Feature::Multi => Ok(
            has_several_results(m.types.as_slice()) || in_code(m, facts.multi, feature),
        ),
        Feature::Bulk => Ok(has_passive(m.datas.as_slice()) || in_code(m, facts.bulk, feature)),
        Feature::Floats => Ok(is_anywhere(m, facts.floats, feature)),
        Feature::Simd => Ok(is_anywhere(m, facts.simd, feature)),
        Feature::Refs => {
            Ok(declares(m, feature) || outside_elements_given(facts.refs, &Shows { feature }, m))
        }
        Feature::Exceptions => Ok(has_exceptions(m, facts)),
        Feature::Sign => Ok(in_code(m, facts.sign, feature)),
        Feature::TypedSelect => Ok(in_code(m, facts.typed_select, feature)),
        Feature::LateLanes => Ok(in_code(m, facts.late_lanes, feature)),
        Feature::Tail => Ok(in_code(m, facts.tail, feature)),
    }
}

/// Whether one of the imports passes the test.
fn imports_some(m: &Module, test: ImportTest) -> bool
    ensures { result ≡ imports_some (import_passes test) m.now }
{
    some_import(m.imports.as_slice(), test)
}

/// Whether an instruction of the module shows the feature, where it is known of the bodies.
fn in_code(m: &Module, shown: bool, feature: Feature) -> bool
    requires { shown ≡ in_bodies (shows feature) m.now }
    ensures { result ≡ anywhere (shows feature) m.now }
{
    anywhere_given(shown, &Shows { feature }, m)
}

/// Whether a type or an instruction of the module shows the feature, where it is known of the instructions in bodies.
fn is_anywhere(m: &Module, shown: bool, feature: Feature) -> bool
    requires { shown ≡ in_bodies (shows feature) m.now }
    ensures { result ≡ (declares feature m.now || holds feature m.now || anywhere (shows feature) m.now) }
{
    declares(m, feature) || holds(m, feature) || in_code(m, shown, feature)
}

/// Whether an initial value or an offset is not one constant and not one imported global.
fn has_computed_values(m: &Module) -> bool
    ensures { result ≡ has_of m.now Feature.Constants }
{
    let count = imported_globals(m);
    has_computed_globals(m.globals.as_slice(), count)
        || has_computed_elements(m.elems.as_slice(), count)
        || has_computed_datas(m.datas.as_slice(), count)
}

/// Whether there is a tag, exnref or an instruction on exceptions.
fn has_exceptions(m: &Module, facts: &Facts) -> bool
    requires { facts.now ≡ facts_of m.now }
    ensures { result ≡ has_of m.now Feature.Exceptions }
{
    !m.tags.is_empty()
        || imports_some(m, ImportTest::Tag)
        || declares(m, Feature::Exceptions)
        || holds(m, Feature::Exceptions)
        || in_code(m, facts.exceptions, Feature::Exceptions)
}
