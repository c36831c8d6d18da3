// The function types that indirect calls name, as flags by type index.

ghost use Rattle.std.specs.Prelude.{◌≡◌, [], flat_map, unwrap_or};
ghost use Rattle.wasm_ast.specs.declared.module.code.Instr.{out-Instr};
ghost use Rattle.wasm_ast.specs.Occurrence.{head_of, inside};
ghost use Rattle.wasm_ast.specs.Kept.{type_called, called, called_in, called_in_offset, called_in_element, called_anywhere};
ghost use Rattle.wasm_ast.specs.Marking.{marked};

use crate::marking::mark;
use crate::module::{Body, Code, Element, Global, Instr, Mode, Module, Segment, Table};

/// Marks the type that the instruction itself calls by.
fn mark_called(instr: &Instr, used: &mut [bool])
    ensures { used.new ≡ marked (type_called (head_of instr.now)) used.old }
{
    if let Instr::CallIndirect(ty, _) | Instr::ReturnCallIndirect(ty, _) = instr {
        mark(used, *ty);
    }
}

/// Marks the types that the instruction and those in its bodies call by.
#[cycle(marking)]
#[tactic(auto, using(std::proofs::lemmas::Grind::common_steps, crate::proofs::Flags::marking))]
fn mark_instr(instr: &Instr, used: &mut [bool])
    ensures { used.new ≡ marked (called instr.now) used.old }
{
    mark_called(instr, used);
    mark_inside(instr, used);
}

/// Marks the types that the instructions in the bodies call by.
#[cycle(marking)]
#[tactic(auto, using(std::proofs::lemmas::Grind::common_steps, crate::proofs::Flags::marking))]
fn mark_inside(instr: &Instr, used: &mut [bool])
    ensures { used.new ≡ marked (called_in (inside (out-Instr instr.now))) used.old }
{
    match instr {
        Instr::Block(_, code) | Instr::Loop(_, code) | Instr::TryTable(_, _, code) => {
            mark_code(code.as_slice(), used);
        }
        Instr::If(_, first, second) => {
            mark_code(first.as_slice(), used);
            mark_code(second.as_slice(), used);
        }
        _ => {}
    }
}

/// Marks the types that the code calls by.
#[cycle(marking)]
#[tactic(auto, using(std::proofs::lemmas::Grind::common_steps, crate::proofs::Flags::marking))]
fn mark_code(code: &[Instr], used: &mut [bool])
    ensures { used.new ≡ marked (called_in code.now) used.old }
{
    for instr in code {
        mark_instr(instr, used);
    }
}

/// Marks the types that the offset of an active segment calls by.
fn mark_offset(mode: &Mode, used: &mut [bool])
    ensures { used.new ≡ marked (called_in_offset mode.now) used.old }
{
    if let Mode::Active(_, offset) = mode {
        mark_code(offset.as_slice(), used);
    }
}

/// Marks the types that the expression of a table calls by.
fn mark_table(table: &Table, used: &mut [bool])
    ensures { used.new ≡ marked (called_in (unwrap_or table.now.init [])) used.old }
{
    if let Some(code) = &table.init {
        mark_code(code.as_slice(), used);
    }
}

/// Marks the types that an element segment calls by.
#[tactic(auto, using(std::proofs::lemmas::Grind::common_steps, crate::proofs::Flags::marking))]
fn mark_element(element: &Element, used: &mut [bool])
    ensures { used.new ≡ marked (called_in_element element.now) used.old }
{
    mark_offset(&element.mode, used);
    mark_codes(element.items.as_slice(), used);
}

/// Marks the types that the expressions call by.
#[tactic(auto, using(std::proofs::lemmas::Grind::common_steps, crate::proofs::Flags::marking))]
fn mark_codes(codes: &[Code], used: &mut [bool])
    ensures { used.new ≡ marked (flat_map called_in codes.now) used.old }
{
    for code in codes {
        mark_code(code.as_slice(), used);
    }
}

/// Marks the types that the expressions of the tables call by.
#[tactic(auto, using(std::proofs::lemmas::Grind::common_steps, crate::proofs::Flags::marking))]
fn mark_tables(tables: &[Table], used: &mut [bool])
    ensures { used.new ≡ marked (flat_map (λ t. called_in (unwrap_or t.init [])) tables.now) used.old }
{
    for table in tables {
        mark_table(table, used);
    }
}

/// Marks the types that the initial values of the globals call by.
#[tactic(auto, using(std::proofs::lemmas::Grind::common_steps, crate::proofs::Flags::marking))]
fn mark_globals(globals: &[Global], used: &mut [bool])
    ensures { used.new ≡ marked (flat_map (λ g. called_in g.init) globals.now) used.old }
{
    for global in globals {
        mark_code(global.init.as_slice(), used);
    }
}

/// Marks the types that the bodies call by.
#[tactic(auto, using(std::proofs::lemmas::Grind::common_steps, crate::proofs::Flags::marking))]
fn mark_bodies(bodies: &[Body], used: &mut [bool])
    ensures { used.new ≡ marked (flat_map (λ b. called_in b.code) bodies.now) used.old }
{
    for body in bodies {
        mark_code(body.code.as_slice(), used);
    }
}

/// Marks the types that the data segments call by.
#[tactic(auto, using(std::proofs::lemmas::Grind::common_steps, crate::proofs::Flags::marking))]
fn mark_datas(segments: &[Segment], used: &mut [bool])
    ensures { used.new ≡ marked (flat_map (λ s. called_in_offset s.mode) segments.now) used.old }
{
    for segment in segments {
        mark_offset(&segment.mode, used);
    }
}

/// Marks the types that the element segments call by.
#[tactic(auto, using(std::proofs::lemmas::Grind::common_steps, crate::proofs::Flags::marking))]
fn mark_elements(elements: &[Element], used: &mut [bool])
    ensures { used.new ≡ marked (flat_map called_in_element elements.now) used.old }
{
    for element in elements {
        mark_element(element, used);
    }
}

/// Marks the types that indirect calls of the module name.
#[tactic(auto, using(std::proofs::lemmas::Grind::common_steps, crate::proofs::Flags::marking))]
pub fn mark_module(m: &Module, used: &mut [bool])
    ensures { used.new ≡ marked (called_anywhere m.now) used.old }
{
    mark_tables(m.tables.as_slice(), used);
    mark_globals(m.globals.as_slice(), used);
    mark_bodies(m.codes.as_slice(), used);
    mark_datas(m.datas.as_slice(), used);
    mark_elements(m.elems.as_slice(), used);
}
