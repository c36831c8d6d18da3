// Where types stand in a module outside code, and whether they show a feature.

ghost use Rattle.std.specs.Prelude.{◌≡◌};
ghost use Rattle.std.specs.List.{list_any};
ghost use Rattle.wasm_ast.specs.Features.{type_shows};
ghost use Rattle.wasm_ast.specs.Places.{func_type_shows, declares, holds};

use super::imports::{ImportTest, some_import};
use super::kind::Feature;
use super::types::{type_shows, types_show};
use crate::module::{Body, Element, FuncType, Global, Module, Table};

/// Whether the function type names a type that shows the feature.
pub fn func_type_shows(ty: &FuncType, feature: Feature) -> bool
    ensures { result ≡ func_type_shows feature ty.now }
{
    types_show(ty.params.as_slice(), feature) || types_show(ty.results.as_slice(), feature)
}

/// Whether one of the function types names a type that shows the feature.
fn func_types_show(types: &[FuncType], feature: Feature) -> bool
    ensures { result ≡ list_any (func_type_shows feature) types.now }
{
    types.iter().any(|ty| func_type_shows(ty, feature))
}

/// Whether one of the globals has a type that shows the feature.
fn globals_show(globals: &[Global], feature: Feature) -> bool
    ensures { result ≡ list_any (λ g. type_shows feature g.ty) globals.now }
{
    globals.iter().any(|global| type_shows(global.ty, feature))
}

/// Whether one of the bodies declares a local of a type that shows the feature.
fn locals_show(bodies: &[Body], feature: Feature) -> bool
    ensures { result ≡ list_any (λ b. list_any (type_shows feature) b.locals) bodies.now }
{
    bodies
        .iter()
        .any(|body| types_show(body.locals.as_slice(), feature))
}

/// Whether a function type, a global or a local has a type that shows the feature.
pub fn declares(m: &Module, feature: Feature) -> bool
    ensures { result ≡ declares feature m.now }
{
    func_types_show(m.types.as_slice(), feature)
        || some_import(m.imports.as_slice(), ImportTest::GlobalShows(feature))
        || globals_show(m.globals.as_slice(), feature)
        || locals_show(m.codes.as_slice(), feature)
}

/// Whether one of the tables has a type that shows the feature.
fn tables_show(tables: &[Table], feature: Feature) -> bool
    ensures { result ≡ list_any (λ t. type_shows feature t.ty) tables.now }
{
    tables.iter().any(|table| type_shows(table.ty, feature))
}

/// Whether one of the element segments has a type that shows the feature.
fn elements_show(elements: &[Element], feature: Feature) -> bool
    ensures { result ≡ list_any (λ e. type_shows feature e.ty) elements.now }
{
    elements
        .iter()
        .any(|element| type_shows(element.ty, feature))
}

/// Whether a table or an element segment has a type that shows the feature.
pub fn holds(m: &Module, feature: Feature) -> bool
    ensures { result ≡ holds feature m.now }
{
    some_import(m.imports.as_slice(), ImportTest::TableShows(feature))
        || tables_show(m.tables.as_slice(), feature)
        || elements_show(m.elems.as_slice(), feature)
}
