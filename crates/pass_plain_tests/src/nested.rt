// What becomes of nodes in nested bodies, in every form that has some.

use num_core::operators::Conv;
use pass_plain::{Sign, Trim};
use rewriting_kit::{keep, rewrite};
use sqlite_items::Items;
use std::alloc::{AllocError, Global};
use std::test::Fail;
use typed_trees::{Node, Nodes, Signature};
use wasm_ast::module::{BlockType, Instr, Op, Ty};

/// An instruction without bodies that takes and gives these types, as a node behind others.
fn put(alloc: Global, head: Instr, types: Signature, out: &mut Nodes) -> Result<(), AllocError> {
    let none = Items::new(alloc);
    keep(alloc, head, types, Items::new(alloc), none, out)
}

/// A nop, and an extension of a byte.
fn extension(alloc: Global) -> Result<Nodes, AllocError> {
    let mut body = Items::new(alloc);
    let nothing = Signature::new(alloc, &[], &[])?;
    put(alloc, Instr::Nop, nothing, &mut body)?;
    let byte = Signature::new(alloc, &[Ty::I32], &[Ty::I32])?;
    let extend = Instr::Pure(Op::Convert(Conv::S8of32));
    put(alloc, extend, byte, &mut body)?;
    Ok(body)
}

/// An instruction that holds such code, as a node behind others.
fn put_form(alloc: Global, head: Instr, out: &mut Nodes) -> Result<(), AllocError> {
    let nothing = Signature::new(alloc, &[], &[])?;
    let first = extension(alloc)?;
    let second = extension(alloc)?;
    keep(alloc, head, nothing, first, second, out)
}

/// A block, a loop, a try_table and an if.
fn forms(alloc: Global) -> Result<Nodes, AllocError> {
    let none = BlockType::Empty;
    let mut nodes = Items::new(alloc);
    let block = Instr::Block(none, Items::new(alloc));
    put_form(alloc, block, &mut nodes)?;
    let cycle = Instr::Loop(none, Items::new(alloc));
    put_form(alloc, cycle, &mut nodes)?;
    let guard = Instr::TryTable(none, Items::new(alloc), Items::new(alloc));
    put_form(alloc, guard, &mut nodes)?;
    let choice = Instr::If(none, Items::new(alloc), Items::new(alloc));
    put_form(alloc, choice, &mut nodes)?;
    Ok(nodes)
}

/// Whether code is the shifts to the left and back by 24 bits.
fn is_shifts(code: &[Node]) -> bool {
    let count = match code.first() {
        Some(node) => matches!(node.head, Instr::Pure(Op::I32Const(24))),
        None => false,
    };
    code.len() == 4 && count
}

/// Whether each body holds shifts and nothing else.
fn are_rewritten(nodes: &[Node]) -> bool {
    for node in nodes {
        if !is_shifts(node.first()) || !is_shifts(node.second()) {
            return false;
        }
    }
    nodes.len() == 4
}

/// They without nops and sign extensions.
fn rewritten_forms(alloc: Global) -> Result<Nodes, AllocError> {
    let trimmed = rewrite(alloc, &Trim, forms(alloc)?)?;
    rewrite(alloc, &Sign, trimmed)
}

#[test]
fn nops_and_sign_extensions_go_in_every_form(rt: HostRuntime) -> Result<(), Fail> {
    let alloc = rt.alloc();
    let shifted = rewritten_forms(alloc)?;
    assert!(rt; are_rewritten(shifted.as_slice()));
    Ok(())
}
