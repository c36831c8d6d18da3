// Where code stands in a module, and whether an instruction that passes a test stands there.

ghost use Rattle.std.specs.Prelude.{◌≡◌};
ghost use Rattle.std.specs.List.{list_any};
ghost use Rattle.wasm_ast.specs.Occurrence.{some_in};
ghost use Rattle.wasm_ast.specs.Places.{in_offset, in_element, in_table, in_bodies, outside_elements, anywhere};

use crate::module::{Code, Element, Global, Mode, Module, Segment, Table};
use crate::occurrence::{InstrTest, occurs_in};

/// Whether an instruction that passes stands in the offset of an active segment.
fn in_offset<T: InstrTest>(test: &T, mode: &Mode) -> bool
    ensures { result ≡ in_offset (T.test test.now) mode.now }
{
    match mode {
        Mode::Active(_, offset) => occurs_in(test, offset.as_slice()),
        _ => false,
    }
}

/// Whether an instruction that passes stands in one of these expressions.
fn in_codes<T: InstrTest>(test: &T, codes: &[Code]) -> bool
    ensures { result ≡ list_any (some_in (T.test test.now)) codes.now }
{
    codes.iter().any(|code| occurs_in(test, code.as_slice()))
}

/// Whether an instruction that passes stands in the element segment.
fn in_element<T: InstrTest>(test: &T, element: &Element) -> bool
    ensures { result ≡ in_element (T.test test.now) element.now }
{
    in_offset(test, &element.mode) || in_codes(test, element.items.as_slice())
}

/// Whether an instruction that passes stands in the expression of the table.
fn in_table<T: InstrTest>(test: &T, table: &Table) -> bool
    ensures { result ≡ in_table (T.test test.now) table.now }
{
    match &table.init {
        Some(code) => occurs_in(test, code.as_slice()),
        None => false,
    }
}

/// Whether an instruction that passes stands in the expression of one of the tables.
fn in_tables<T: InstrTest>(test: &T, tables: &[Table]) -> bool
    ensures { result ≡ list_any (in_table (T.test test.now)) tables.now }
{
    tables.iter().any(|table| in_table(test, table))
}

/// Whether an instruction that passes stands in the initial value of one of the globals.
fn in_globals<T: InstrTest>(test: &T, globals: &[Global]) -> bool
    ensures { result ≡ list_any (λ g. some_in (T.test test.now) g.init) globals.now }
{
    globals
        .iter()
        .any(|global| occurs_in(test, global.init.as_slice()))
}

/// Whether an instruction that passes stands in the offset of one of the data segments.
fn in_datas<T: InstrTest>(test: &T, datas: &[Segment]) -> bool
    ensures { result ≡ list_any (λ s. in_offset (T.test test.now) s.mode) datas.now }
{
    datas.iter().any(|segment| in_offset(test, &segment.mode))
}

/// Whether an instruction that passes stands in one of the element segments.
fn in_elements<T: InstrTest>(test: &T, elements: &[Element]) -> bool
    ensures { result ≡ list_any (in_element (T.test test.now)) elements.now }
{
    elements.iter().any(|element| in_element(test, element))
}

/// Whether an instruction that passes stands in the module outside element segments, where it is known whether one
/// stands in the bodies.
#[tactic(auto, using(crate::proofs::Noting::or_placed))]
pub fn outside_elements_given<T: InstrTest>(shown: bool, test: &T, m: &Module) -> bool
    requires { shown ≡ in_bodies (T.test test.now) m.now }
    ensures { result ≡ outside_elements (T.test test.now) m.now }
{
    shown
        || in_tables(test, m.tables.as_slice())
        || in_globals(test, m.globals.as_slice())
        || in_datas(test, m.datas.as_slice())
}

/// Whether an instruction that passes stands anywhere in the module, where it is known whether one stands in the
/// bodies.
pub fn anywhere_given<T: InstrTest>(shown: bool, test: &T, m: &Module) -> bool
    requires { shown ≡ in_bodies (T.test test.now) m.now }
    ensures { result ≡ anywhere (T.test test.now) m.now }
{
    outside_elements_given(shown, test, m) || in_elements(test, m.elems.as_slice())
}
