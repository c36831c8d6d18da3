// The types of the functions in active segments, as flags by type index.

ghost use Rattle.std.specs.Prelude.{◌≡◌, flat_map, option_to_list};
ghost use Rattle.wasm_ast.specs.Kept.{entry_type, types_placed};
ghost use Rattle.wasm_ast.specs.Marking.{marked};

use super::conditions::entry_func;
use crate::marking::mark;
use crate::module::{Code, Element, Instr, Mode};

/// The type index of the function of an entry that is one ref.func, by the type index of each function.
fn entry_type(indices: &[u32], entry: &[Instr]) -> Option<u32>
    ensures { result ≡ entry_type indices.now entry.now }
{
    match entry_func(entry) {
        Some(func) => indices.get(func as usize).copied(),
        None => None,
    }
}

/// Marks the type of the function of an entry.
fn mark_entry(indices: &[u32], entry: &[Instr], used: &mut [bool])
    ensures { used.new ≡ marked (option_to_list (entry_type indices.now entry.now)) used.old }
{
    if let Some(ty) = entry_type(indices, entry) {
        mark(used, ty);
    }
}

/// Marks the types of the functions of the entries.
#[tactic(auto, using(std::proofs::lemmas::Grind::common_steps, crate::proofs::Flags::marking))]
fn mark_entries(indices: &[u32], entries: &[Code], used: &mut [bool])
    ensures { used.new ≡ marked (flat_map (λ entry. option_to_list (entry_type indices.now entry)) entries.now) used.old }
{
    for entry in entries {
        mark_entry(indices, entry.as_slice(), used);
    }
}

/// Marks the types of the functions in the segment, if it is active.
fn mark_element(indices: &[u32], element: &Element, used: &mut [bool])
    ensures { used.new ≡ marked (types_placed indices.now element.now) used.old }
{
    if let Mode::Active(_, _) = &element.mode {
        mark_entries(indices, element.items.as_slice(), used);
    }
}

/// Marks the types of the functions in active segments.
#[tactic(auto, using(std::proofs::lemmas::Grind::common_steps, crate::proofs::Flags::marking))]
pub fn mark_placed(indices: &[u32], elements: &[Element], used: &mut [bool])
    ensures { used.new ≡ marked (flat_map (types_placed indices.now) elements.now) used.old }
{
    for element in elements {
        mark_element(indices, element, used);
    }
}
