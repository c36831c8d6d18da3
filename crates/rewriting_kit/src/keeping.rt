// Nodes that stay.

ghost use Rattle.std.specs.Prelude.{◌≡◌, ◌++◌, [], ◌∷◌, IfOk, OnOk};
ghost use Rattle.rewriting_kit.specs.Rewrites.{held, node_of};

use sqlite_items::Boxed;
use std::alloc::{AllocError, Global};
use typed_trees::{Bodies, Node, Nodes, Signature};
use wasm_ast::module::Instr;

/// The bodies of a node, if it has any.
fn held(
    alloc: Global,
    first: Nodes,
    second: Nodes,
) -> Result<Option<Boxed<Bodies<Node>>>, AllocError>
    ensures { IfOk result (λ bodies. bodies ≡ held first second) }
{
    if first.is_empty() && second.is_empty() {
        return Ok(None);
    }
    Ok(Some(Boxed::new(alloc, Bodies { first, second })?))
}

/// Puts a node with this instruction, these types and these bodies behind other nodes. It fails for want of memory alone.
pub fn keep(
    alloc: Global,
    head: Instr,
    types: Signature,
    first: Nodes,
    second: Nodes,
    out: &mut Nodes,
) -> Result<(), AllocError>
    ensures { OnOk result (out.new ≡ out.old ++ node_of head types.0 types.1 first second ∷ []) }
{
    let bodies = held(alloc, first, second)?;
    out.push(Node {
        head,
        types,
        bodies,
    })
}
