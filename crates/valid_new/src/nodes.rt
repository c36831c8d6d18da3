// The node of an instruction, by its plan and what it met.

ghost use Rattle.std.specs.Prelude.{◌≡◌, [], ◌∷◌, ◌++◌, IfOk};
ghost use Rattle.typing_kit.specs.Steps.{with_top};
ghost use Rattle.valid_new.specs.Bodies.{leaf_types, type_met};
ghost use Rattle.valid_new.specs.Nodes.{NodeIs};

use crate::types::{one, two};
use num_core::lists::TryCopy;
use sqlite_items::{Boxed, Items};
use std::alloc::{AllocError, Global};
use typed_trees::{Bodies, Node, Nodes, Signature};
use typing_kit::{Met, Operand, Plan};
use wasm_ast::lists::Types;
use wasm_ast::module::{Instr, Ty};

/// No nodes yet, and memory for so many.
pub fn room_for(alloc: Global, count: usize) -> Result<Nodes, AllocError>
    ensures { IfOk result (λ nodes. nodes ≡ []) }
{
    Ok(Items::from_vec(Vec::with_capacity(alloc, count)?))
}

/// The types, and one more on top.
fn types_of(alloc: Global, types: &[Ty], top: Ty) -> Result<Types, AllocError>
    ensures { IfOk result (λ list. list ≡ types.now ++ top ∷ []) }
{
    let mut list = Types::new(alloc);
    for ty in types {
        list.push(*ty)?;
    }
    list.push(top)?;
    Ok(list)
}

/// What is taken, maybe with one more type on top, and what is given.
fn signature_of(
    alloc: Global,
    takes: &[Ty],
    top: Option<Ty>,
    gives: &[Ty],
) -> Result<Signature, AllocError>
    ensures { IfOk result (λ signature. signature ≡ (with_top takes.now top, gives.now)) }
{
    match top {
        Some(ty) => {
            let takes = types_of(alloc, takes, ty)?;
            Signature::new(alloc, takes.as_slice(), gives)
        }
        None => Signature::new(alloc, takes, gives),
    }
}

/// A node without code in it.
fn leaf(
    alloc: Global,
    instr: &Instr,
    takes: &[Ty],
    top: Option<Ty>,
    gives: &[Ty],
) -> Result<Node, AllocError>
    ensures { IfOk result (λ node. NodeIs instr.now (with_top takes.now top) gives.now [] [] node) }
{
    Ok(Node {
        head: instr.copy(alloc)?,
        types: signature_of(alloc, takes, top, gives)?,
        bodies: None,
    })
}

/// The node of an instruction that holds no code and is reached, by its plan and the type that it met.
pub fn leaf_of(
    alloc: Global,
    instr: &Instr,
    plan: Plan<'_, Ty>,
    met: Met<Ty>,
) -> Result<Node, AllocError>
    ensures { IfOk result (λ node. NodeIs instr.now (leaf_types plan.entry (type_met met)).0 (leaf_types plan.entry (type_met met)).1 [] [] node) }
{
    match plan {
        Plan::Flat(takes, top, gives) => leaf(alloc, instr, takes, top, gives),
        Plan::Any(_, gives) => match type_met(met) {
            Some(ty) => leaf(alloc, instr, one(ty), None, gives),
            None => leaf(alloc, instr, &[], None, gives),
        },
        Plan::Select => match type_met(met) {
            Some(ty) => leaf(alloc, instr, two(ty), Some(Ty::I32), one(ty)),
            None => leaf(alloc, instr, &[], None, &[]),
        },
        Plan::Leaves(takes, top) => leaf(alloc, instr, takes, top, &[]),
        Plan::Table(last, _) => leaf(alloc, instr, last, Some(Ty::I32), &[]),
        Plan::Untyped | Plan::Nested => leaf(alloc, instr, &[], None, &[]),
    }
}

/// The type that an instruction met where its plan leaves it open.
fn type_met(met: Met<Ty>) -> Option<Ty>
    ensures { result ≡ type_met met }
{
    match met {
        Met::One(Operand::Known(ty)) => Some(ty),
        Met::One(Operand::Bottom) | Met::Planned | Met::Untyped => None,
    }
}

/// A node with code in it.
pub fn node_of(
    alloc: Global,
    head: Instr,
    takes: &[Ty],
    top: Option<Ty>,
    gives: &[Ty],
    first: Nodes,
    second: Nodes,
) -> Result<Node, AllocError>
    ensures { IfOk result (λ node. NodeIs head (with_top takes.now top) gives.now first second node) }
{
    Ok(Node {
        head,
        types: signature_of(alloc, takes, top, gives)?,
        bodies: Some(Boxed::new(alloc, Bodies { first, second })?),
    })
}
