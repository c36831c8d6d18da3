// All nodes of a body, one after another.

ghost use Rattle.std.specs.Prelude.{◌≡◌, ◌++◌, [], ◌∷◌, IsTrue, IfOk, OnOk};
ghost use Rattle.rewriting_kit.specs.Rewrites.{Layer, Stays, rewrite, rewritten};
ghost use Rattle.wasm_ast.specs.declared.module.code.Instr.{Instr};

use crate::kept::{all_stay, is_kept_leaf};
use owned_lists::Drain;
use sqlite_items::Items;
use std::alloc::{AllocError, Global};
use typed_trees::{Bodies, Node, Nodes, Signature};
use wasm_ast::module::Instr;

/// What becomes of each node of typed code. E is what is known of an open body.
pub trait Rewriting<E: Copy> {
    /// What is known of the bodies of an instruction.
    ghost entry: { Self → Instr → E };

    /// What becomes of a node.
    ghost layer: { Self → Layer E };

    /// What is known of the bodies of an instruction.
    fn entry(&self, head: &Instr) -> E
        ensures { result ≡ entry self.now head.now };

    /// Whether a node with this instruction is known to stay as it is; to say no is always right.
    fn stays(&self, head: &Instr) -> bool
        ensures { IsTrue result → Stays (layer self.now) head.now };

    /// Puts what becomes of a node behind other nodes: by what is known of the bodies around it, the outermost first, its
    /// instruction without its bodies, the types that it takes and gives, and its bodies, which are rewritten already. It
    /// fails for want of memory alone.
    fn layer(
        &self,
        alloc: Global,
        around: &[E],
        head: Instr,
        types: Signature,
        first: Nodes,
        second: Nodes,
        out: &mut Nodes,
    ) -> Result<(), AllocError>
        ensures { OnOk result (out.new ≡ out.old ++ layer self.now around.now head types.0 types.1 first second) };
}

/// The nodes of a body, rewritten. Where all are known to stay they are given as they are, and else what stays of them is
/// moved. It fails for want of memory alone. The recursion goes as deep as blocks nest.
pub fn rewrite<E: Copy, R: Rewriting<E>>(
    alloc: Global,
    rewriting: &R,
    nodes: Nodes,
) -> Result<Nodes, AllocError>
    ensures { IfOk result (λ new. new ≡ rewritten (R.entry rewriting.now) (R.layer rewriting.now) nodes []) }
{
    if all_stay(rewriting, nodes.as_slice()) {
        return Ok(nodes);
    }
    let mut around = Vec::new(alloc);
    rewrite_all(alloc, rewriting, &mut around, nodes)
}

/// The nodes of a body, inside the bodies of which this is known.
#[cycle(rewriting)]
fn rewrite_all<E: Copy, R: Rewriting<E>>(
    alloc: Global,
    rewriting: &R,
    around: &mut Vec<E>,
    nodes: Nodes,
) -> Result<Nodes, AllocError>
    ensures nodes { IfOk result (λ new. new ≡ rewritten (R.entry rewriting.now) (R.layer rewriting.now) nodes around.old.items) }
    ensures around { IfOk result (λ new. around.new.items ≡ around.old.items) }
{
    let mut new = Items::from_vec(Vec::with_capacity(alloc, nodes.len())?);
    let mut rest = Drain::new(alloc, nodes)?;
    while let Some(node) = rest.next() {
        rewrite_node(alloc, rewriting, around, node, &mut new)?;
    }
    Ok(new)
}

/// One node, whose bodies are rewritten first.
#[cycle(rewriting)]
fn rewrite_node<E: Copy, R: Rewriting<E>>(
    alloc: Global,
    rewriting: &R,
    around: &mut Vec<E>,
    node: Node,
    out: &mut Nodes,
) -> Result<(), AllocError>
    ensures nodes { OnOk result (out.new ≡ out.old ++ rewrite (R.entry rewriting.now) (R.layer rewriting.now) node around.old.items) }
    ensures around { OnOk result (around.new.items ≡ around.old.items) }
{
    if is_kept_leaf(rewriting, &node) {
        return out.push(node);
    }
    let Node {
        head,
        types,
        bodies,
    } = node;
    let Some(bodies) = bodies else {
        let (first, second) = (Items::new(alloc), Items::new(alloc));
        return rewriting.layer(alloc, around.as_slice(), head, types, first, second, out);
    };
    let Bodies { first, second } = bodies.into_inner();
    let depth = around.len();
    around.push(rewriting.entry(&head))?;
    let first = rewrite_all(alloc, rewriting, around, first)?;
    let second = rewrite_all(alloc, rewriting, around, second)?;
    around.truncate(depth);
    rewriting.layer(alloc, around.as_slice(), head, types, first, second, out)
}
