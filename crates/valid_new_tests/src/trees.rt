// The nodes that bodies are given as: what can be reached, each node with its types.

use crate::steps::Index::{Br, Call, GlobalSet, LocalGet};
use crate::steps::Plain::{Drop, Return, Select};
use crate::steps::Step::{Block, BrTable, If, Loop, Plain, Pure, Try};
use crate::steps::{
    self, I32_CONST, I64_CONST, NULL_EXTERN, Step, UNREACHABLE, V128_CONST, code_of,
};
use crate::trial::{Trial, holds};
use crate::world::annotated;
use lane_core::vector::V;
use num_core::operators::{Bin, Load, Width};
use sqlite_items::Items;
use std::alloc::{AllocError, Global};
use std::test::Fail;
use typed_trees::{Node, TypedFn};
use valid_new::Spaces;
use wasm_ast::module::BlockType::{Empty, Index, One};
use wasm_ast::module::Ty::{Exn, Extern, I32, I64, V128};
use wasm_ast::module::{BlockType, Catch, Instr, MemArg, Op, Ty};

/// The head of a node.
#[derive(Clone, Copy)]
pub enum Head {
    Unreachable,
    Return,
    Drop,
    Select,
    Br(u32),
    BrTable(&'static [u32], u32),
    Named(Named, u32),
    Load(Load, MemArg),
    Pure(Op),
    Block(BlockType),
    Loop(BlockType),
    If(BlockType),
    Try(BlockType, &'static [Catch]),
}

/// An instruction with one index.
#[derive(Clone, Copy)]
pub enum Named {
    Call,
    LocalGet,
    GlobalSet,
}

/// A node: its head, what it takes and gives, and the nodes in it.
pub struct Seen(
    pub Head,
    pub &'static [Ty],
    pub &'static [Ty],
    pub &'static [Seen],
    pub &'static [Seen],
);

fn is_table(instr: &Instr, labels: &[u32], last: u32) -> bool {
    match instr {
        Instr::BrTable(found, found_last) => found.as_slice() == labels && *found_last == last,
        _ => false,
    }
}

fn is_named(instr: &Instr, named: Named, index: u32) -> bool {
    match named {
        Named::Call => matches!(instr, Instr::Call(x) if *x == index),
        Named::LocalGet => matches!(instr, Instr::LocalGet(x) if *x == index),
        Named::GlobalSet => matches!(instr, Instr::GlobalSet(x) if *x == index),
    }
}

fn is_load(instr: &Instr, op: Load, at: MemArg) -> bool {
    match instr {
        Instr::Load(found, found_at) => *found == op && *found_at == at,
        _ => false,
    }
}

/// Whether the instruction is this one, of the kinds that the tables of this crate have.
fn is_pure(instr: &Instr, op: Op) -> bool {
    let Instr::Pure(found) = instr else {
        return false;
    };
    match (*found, op) {
        (Op::I32Const(n), Op::I32Const(other)) => n == other,
        (Op::I64Const(n), Op::I64Const(other)) => n == other,
        (Op::V128Const(v), Op::V128Const(other)) => v == other,
        (Op::RefNull(ty), Op::RefNull(other)) => ty == other,
        (Op::RefIsNull, Op::RefIsNull) => true,
        _ => false,
    }
}

fn is_if(instr: &Instr, ty: BlockType) -> bool {
    match instr {
        Instr::If(found, first, second) => *found == ty && first.is_empty() && second.is_empty(),
        _ => false,
    }
}

fn is_try(instr: &Instr, ty: BlockType, clauses: &[Catch]) -> bool {
    match instr {
        Instr::TryTable(found, found_clauses, code) => *found == ty
            && found_clauses.as_slice() == clauses
            && code.is_empty(),
        _ => false,
    }
}

/// Whether the instruction is this head, with its immediates and without code.
fn is_head(instr: &Instr, head: Head) -> bool {
    match head {
        Head::Unreachable => matches!(instr, Instr::Unreachable),
        Head::Return => matches!(instr, Instr::Return),
        Head::Drop => matches!(instr, Instr::Drop),
        Head::Select => matches!(instr, Instr::Select),
        Head::Br(label) => matches!(instr, Instr::Br(found) if *found == label),
        Head::BrTable(labels, last) => is_table(instr, labels, last),
        Head::Named(named, index) => is_named(instr, named, index),
        Head::Load(op, at) => is_load(instr, op, at),
        Head::Pure(op) => is_pure(instr, op),
        Head::Block(ty) =>
            matches!(instr, Instr::Block(found, code) if *found == ty && code.is_empty()),
        Head::Loop(ty) =>
            matches!(instr, Instr::Loop(found, code) if *found == ty && code.is_empty()),
        Head::If(ty) => is_if(instr, ty),
        Head::Try(ty, clauses) => is_try(instr, ty, clauses),
    }
}

#[cycle(nodes)]
fn is_node(node: &Node, seen: &Seen) -> bool {
    let Seen(head, takes, gives, first, second) = seen;
    is_head(&node.head, *head)
        && node.takes() == *takes
        && node.gives() == *gives
        && are_nodes(node.first(), first)
        && are_nodes(node.second(), second)
}

/// Whether the nodes are these.
#[cycle(nodes)]
pub fn are_nodes(nodes: &[Node], seen: &[Seen]) -> bool {
    if nodes.len() != seen.len() {
        return false;
    }
    for (k, node) in nodes.iter().enumerate() {
        if !is_node(node, &seen[k]) {
            return false;
        }
    }
    true
}

const ADD: Step = Pure(Op::Binary(Width::W32, Bin::Add));

const DROP: Step = Plain(Drop);

/// In the memory of 64-bit addresses.
const AT: MemArg = MemArg {
    memory: 1,
    align: 0,
    offset: 9,
};

/// A body, the results of its function, and its nodes.
pub type TreeRow = (&'static [Step], &'static [Ty], &'static [Seen]);

/// Code that is reached to its end.
static REACHED: [TreeRow; 5] = [
    (&[], &[], &[]),
    (
        &[I32_CONST, I64_CONST, DROP, DROP],
        &[],
        &[
            Seen(Head::Pure(Op::I32Const(5)), &[], &[I32], &[], &[]),
            Seen(Head::Pure(Op::I64Const(5)), &[], &[I64], &[], &[]),
            Seen(Head::Drop, &[I64], &[], &[], &[]),
            Seen(Head::Drop, &[I32], &[], &[], &[]),
        ],
    ),
    (
        &[I64_CONST, I64_CONST, I32_CONST, Plain(Select)],
        &[I64],
        &[
            Seen(Head::Pure(Op::I64Const(5)), &[], &[I64], &[], &[]),
            Seen(Head::Pure(Op::I64Const(5)), &[], &[I64], &[], &[]),
            Seen(Head::Pure(Op::I32Const(5)), &[], &[I32], &[], &[]),
            Seen(Head::Select, &[I64, I64, I32], &[I64], &[], &[]),
        ],
    ),
    (
        &[NULL_EXTERN, Pure(Op::RefIsNull), V128_CONST],
        &[I32, V128],
        &[
            Seen(Head::Pure(Op::RefNull(Extern)), &[], &[Extern], &[], &[]),
            Seen(Head::Pure(Op::RefIsNull), &[Extern], &[I32], &[], &[]),
            Seen(Head::Pure(Op::V128Const(V(5))), &[], &[V128], &[], &[]),
        ],
    ),
    (
        &[Try(One(I32), &[Catch::All(0)], &[I32_CONST]), DROP],
        &[],
        &[
            Seen(
                Head::Try(One(I32), &[Catch::All(0)]),
                &[],
                &[I32],
                &[Seen(Head::Pure(Op::I32Const(5)), &[], &[I32], &[], &[])],
                &[],
            ),
            Seen(Head::Drop, &[I32], &[], &[], &[]),
        ],
    ),
];

/// Code that is left before its end.
static LEFT: [TreeRow; 8] = [
    (
        &[UNREACHABLE, ADD],
        &[I32],
        &[Seen(Head::Unreachable, &[], &[], &[], &[])],
    ),
    (
        &[UNREACHABLE, UNREACHABLE, Block(Empty, &[I32_CONST, DROP])],
        &[],
        &[Seen(Head::Unreachable, &[], &[], &[], &[])],
    ),
    // a branch takes what its label takes, and not what lies below
    (
        &[V128_CONST, I32_CONST, Step::Named(Br, 0), ADD],
        &[I32],
        &[
            Seen(Head::Pure(Op::V128Const(V(5))), &[], &[V128], &[], &[]),
            Seen(Head::Pure(Op::I32Const(5)), &[], &[I32], &[], &[]),
            Seen(Head::Br(0), &[I32], &[], &[], &[]),
        ],
    ),
    (
        &[I64_CONST, I32_CONST, BrTable(&[0], 0), Block(Empty, &[])],
        &[I64],
        &[
            Seen(Head::Pure(Op::I64Const(5)), &[], &[I64], &[], &[]),
            Seen(Head::Pure(Op::I32Const(5)), &[], &[I32], &[], &[]),
            Seen(Head::BrTable(&[0], 0), &[I64, I32], &[], &[], &[]),
        ],
    ),
    // what follows a block that is left inside is reached
    (
        &[Block(One(I32), &[I32_CONST, Step::Named(Br, 0), ADD]), DROP],
        &[],
        &[
            Seen(
                Head::Block(One(I32)),
                &[],
                &[I32],
                &[
                    Seen(Head::Pure(Op::I32Const(5)), &[], &[I32], &[], &[]),
                    Seen(Head::Br(0), &[I32], &[], &[], &[]),
                ],
                &[],
            ),
            Seen(Head::Drop, &[I32], &[], &[], &[]),
        ],
    ),
    (
        &[
            I32_CONST,
            If(One(I64), &[UNREACHABLE, I64_CONST], &[I64_CONST]),
            Plain(Return),
            ADD,
            DROP,
        ],
        &[I64],
        &[
            Seen(Head::Pure(Op::I32Const(5)), &[], &[I32], &[], &[]),
            Seen(
                Head::If(One(I64)),
                &[I32],
                &[I64],
                &[Seen(Head::Unreachable, &[], &[], &[], &[])],
                &[Seen(Head::Pure(Op::I64Const(5)), &[], &[I64], &[], &[])],
            ),
            Seen(Head::Return, &[I64], &[], &[], &[]),
        ],
    ),
    // an if with parameters takes its condition above them
    (
        &[
            NULL_EXTERN,
            I32_CONST,
            If(Index(2), &[UNREACHABLE], &[UNREACHABLE]),
        ],
        &[I64, Extern],
        &[
            Seen(Head::Pure(Op::RefNull(Extern)), &[], &[Extern], &[], &[]),
            Seen(Head::Pure(Op::I32Const(5)), &[], &[I32], &[], &[]),
            Seen(
                Head::If(Index(2)),
                &[Extern, I32],
                &[I64, Extern],
                &[Seen(Head::Unreachable, &[], &[], &[], &[])],
                &[Seen(Head::Unreachable, &[], &[], &[], &[])],
            ),
        ],
    ),
    (
        &[
            NULL_EXTERN,
            Loop(Index(2), &[Step::Named(Br, 0), ADD, DROP]),
        ],
        &[I64, Extern],
        &[
            Seen(Head::Pure(Op::RefNull(Extern)), &[], &[Extern], &[], &[]),
            Seen(
                Head::Loop(Index(2)),
                &[Extern],
                &[I64, Extern],
                &[Seen(Head::Br(0), &[Extern], &[], &[], &[])],
                &[],
            ),
        ],
    ),
];

/// Instructions with immediates.
static IMMEDIATES: [TreeRow; 1] = [(
    &[
        Step::Named(LocalGet, 0),
        Step::Access(steps::Access::Load(Load::I64From8S), AT),
        Step::Named(GlobalSet, 1),
        Step::Named(Call, 4),
    ],
    &[],
    &[
        Seen(Head::Named(Named::LocalGet, 0), &[], &[I64], &[], &[]),
        Seen(Head::Load(Load::I64From8S, AT), &[I64], &[I64], &[], &[]),
        Seen(Head::Named(Named::GlobalSet, 1), &[I64], &[], &[], &[]),
        Seen(Head::Named(Named::Call, 4), &[], &[], &[], &[]),
    ],
)];

/// Whether the body is this code.
pub fn is_body(found: Option<TypedFn>, seen: &[Seen]) -> bool {
    match found {
        Some(typed) => are_nodes(typed.body.as_slice(), seen),
        None => false,
    }
}

/// Whether each body has the nodes that its row says.
fn are_bodies(alloc: Global, spaces: &Spaces<'_>, rows: &[TreeRow]) -> Result<bool, AllocError> {
    for (code, results, seen) in rows {
        let code = code_of(alloc, code)?;
        if !is_body(annotated(alloc, spaces, &[], code, results)?, seen) {
            return Ok(false);
        }
    }
    Ok(true)
}

/// The same of each table.
pub fn are_trees(
    alloc: Global,
    spaces: &Spaces<'_>,
    tables: &[&[TreeRow]],
) -> Result<bool, AllocError> {
    for rows in tables {
        if !are_bodies(alloc, spaces, rows)? {
            return Ok(false);
        }
    }
    Ok(true)
}

#[test]
fn nodes_are_what_can_be_reached_with_its_types(rt: HostRuntime) -> Result<(), Fail> {
    assert!(rt; holds(rt.alloc(), Trial::Trees(&[&REACHED, &LEFT, &IMMEDIATES]))?);
    Ok(())
}

/// Whether the declared locals of a body are kept.
pub fn are_locals_kept(alloc: Global, spaces: &Spaces<'_>) -> Result<bool, AllocError> {
    match annotated(alloc, spaces, &[I64, Exn], Items::new(alloc), &[])? {
        Some(typed) => Ok(typed.locals.as_slice() == [I64, Exn].as_slice()),
        None => Ok(false),
    }
}

#[test]
fn the_declared_locals_are_kept(rt: HostRuntime) -> Result<(), Fail> {
    assert!(rt; holds(rt.alloc(), Trial::KeptLocals)?);
    Ok(())
}
