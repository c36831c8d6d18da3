// Instructions that hold code.

ghost use Rattle.std.specs.Prelude.{◌≡◌, ◌++◌, ◌∷◌, true, [], option_map, IfOk};
ghost use Rattle.wasm_ast.specs.declared.module.code.Instr.{out-Instr};
ghost use Rattle.std.specs.List.{list_all};
ghost use Rattle.wasm_ast.specs.declared.module.ty.FuncType.{FuncType};
ghost use Rattle.typed_trees.specs.Contexts.{block_type};
ghost use Rattle.typed_trees.specs.Forms.{clause_fits, label_takes};
ghost use Rattle.typed_trees.specs.Matching.{all_match};
ghost use Rattle.typed_trees.specs.Trees.{with_bodies};
ghost use Rattle.valid_new.specs.Nested.{shape_of, holds_code, handed, NestedIs};
ghost use Rattle.valid_new.specs.Scopes.{context_of, labels_of};

use crate::scope::{Scope, label_types, tag_type, type_at};
use crate::types::{all_match, is_value_type, matches, one};
use num_core::lists::TryCopy;
use sqlite_items::Items;
use std::alloc::{AllocError, Global};
use wasm_ast::module::{BlockType, Catch, Instr, Ty};

/// What a block takes and gives.
#[derive(Clone, Copy)]
pub struct BlockShape<'a> {
    /// The types that it takes.
    pub takes: &'a [Ty],
    /// The types that it gives.
    pub gives: &'a [Ty],
}

/// An instruction that holds code, as it is typed.
#[derive(Clone, Copy)]
pub struct Nested<'a> {
    /// What a branch to its label takes.
    pub label: &'a [Ty],
    /// What its code takes; an if takes an i32 above it.
    pub takes: &'a [Ty],
    /// What it gives.
    pub gives: &'a [Ty],
    /// Its code.
    pub first: &'a [Instr],
    /// The second arm of an if.
    pub second: Option<&'a [Instr]>,
}

/// What a block of the type takes and gives, where the type is one of the module.
fn block_shape<'a>(scope: Scope<'a>, ty: BlockType) -> Option<BlockShape<'a>>
    ensures { option_map shape_of result ≡ block_type (context_of scope.entry) ty }
{
    match ty {
        BlockType::Empty => Some(BlockShape {
            takes: &[],
            gives: &[],
        }),
        BlockType::One(ty) => {
            if is_value_type(ty) {
                Some(BlockShape {
                    takes: &[],
                    gives: one(ty),
                })
            } else {
                None
            }
        }
        BlockType::Index(index) => match type_at(scope, index) {
            Some(ty) => Some(BlockShape {
                takes: ty.params.as_slice(),
                gives: ty.results.as_slice(),
            }),
            None => None,
        },
    }
}

/// The instruction, where it holds code and its type is one of the module.
pub fn nested_of<'a>(scope: Scope<'a>, labels: &[&'a [Ty]], instr: &'a Instr) -> Option<Nested<'a>>
    requires { holds_code (out-Instr instr.now) ≡ true }
    ensures { NestedIs (context_of scope.entry) (labels_of labels.now) instr.now result }
{
    match instr {
        Instr::Block(ty, code) => match block_shape(scope, *ty) {
            Some(shape) => Some(Nested {
                label: shape.gives,
                takes: shape.takes,
                gives: shape.gives,
                first: code.as_slice(),
                second: None,
            }),
            None => None,
        },
        Instr::Loop(ty, code) => match block_shape(scope, *ty) {
            Some(shape) => Some(Nested {
                label: shape.takes,
                takes: shape.takes,
                gives: shape.gives,
                first: code.as_slice(),
                second: None,
            }),
            None => None,
        },
        Instr::If(ty, first, second) => match block_shape(scope, *ty) {
            Some(shape) => Some(Nested {
                label: shape.gives,
                takes: shape.takes,
                gives: shape.gives,
                first: first.as_slice(),
                second: Some(second.as_slice()),
            }),
            None => None,
        },
        Instr::TryTable(ty, clauses, code) => match block_shape(scope, *ty) {
            Some(shape) => {
                if fit_clauses(scope, labels, clauses.as_slice()) {
                    Some(Nested {
                        label: shape.gives,
                        takes: shape.takes,
                        gives: shape.gives,
                        first: code.as_slice(),
                        second: None,
                    })
                } else {
                    None
                }
            }
            None => None,
        },
        _ => None,
    }
}

/// Whether the label of each clause takes what the clause hands on.
fn fit_clauses(scope: Scope<'_>, labels: &[&[Ty]], clauses: &[Catch]) -> bool
    ensures { result ≡ list_all (clause_fits (context_of scope.entry) (labels_of labels.now)) clauses.now }
{
    clauses
        .iter()
        .all(|clause| clause_fits(scope, labels, *clause))
}

/// Whether the label of the clause takes what the clause hands on.
fn clause_fits(scope: Scope<'_>, labels: &[&[Ty]], clause: Catch) -> bool
    ensures { result ≡ clause_fits (context_of scope.entry) (labels_of labels.now) clause }
{
    match clause {
        Catch::Tag(tag, label) => match tag_type(scope, tag) {
            Some(ty) => label_takes(labels, label, ty.params.as_slice(), false),
            None => false,
        },
        Catch::TagRef(tag, label) => match tag_type(scope, tag) {
            Some(ty) => label_takes(labels, label, ty.params.as_slice(), true),
            None => false,
        },
        Catch::All(label) => label_takes(labels, label, &[], false),
        Catch::AllRef(label) => label_takes(labels, label, &[], true),
    }
}

/// Whether a branch to the label takes these types, and an exception above them or not.
fn label_takes(labels: &[&[Ty]], label: u32, types: &[Ty], exception: bool) -> bool
    ensures { result ≡ label_takes (labels_of labels.now) label (handed types.now exception) }
{
    match label_types(labels, label) {
        Some(wanted) => takes_handed(wanted, types, exception),
        None => false,
    }
}

/// Whether these types, and an exception above them or not, may stand where the wanted ones are asked for.
fn takes_handed(wanted: &[Ty], types: &[Ty], exception: bool) -> bool
    ensures { result ≡ all_match (handed types.now exception) wanted.now }
{
    if exception {
        match_with_top(types, Ty::Exn, wanted)
    } else {
        all_match(types, wanted)
    }
}

/// Whether these types, and one more above them, may stand where the wanted ones are asked for.
#[tactic(auto, using(crate::proofs::Matching::all_match_with_top, crate::proofs::Matching::all_match_nothing))]
fn match_with_top(types: &[Ty], top: Ty, wanted: &[Ty]) -> bool
    ensures { result ≡ all_match (types.now ++ top ∷ []) wanted.now }
{
    match wanted.split_last() {
        Some((last, below)) => all_match(types, below) && matches(top, *last),
        None => false,
    }
}

/// Whether the instruction holds code.
pub fn holds_code(instr: &Instr) -> bool
    ensures { result ≡ holds_code (out-Instr instr.now) }
{
    matches!(
        instr,
        Instr::Block(_, _) | Instr::Loop(_, _) | Instr::If(_, _, _) | Instr::TryTable(_, _, _)
    )
}

/// The instruction without the code that it holds.
pub fn emptied(alloc: Global, instr: &Instr) -> Result<Instr, AllocError>
    requires { holds_code (out-Instr instr.now) ≡ true }
    ensures { IfOk result (λ head. out-Instr head ≡ with_bodies (out-Instr instr.now) [] []) }
{
    Ok(match instr {
        Instr::Block(ty, _) => Instr::Block(*ty, Items::new(alloc)),
        Instr::Loop(ty, _) => Instr::Loop(*ty, Items::new(alloc)),
        Instr::If(ty, _, _) => Instr::If(*ty, Items::new(alloc), Items::new(alloc)),
        Instr::TryTable(ty, clauses, _) => {
            let clauses = Items::from_slice(alloc, clauses.as_slice())?;
            Instr::TryTable(*ty, clauses, Items::new(alloc))
        }
        _ => instr.copy(alloc)?,
    })
}
