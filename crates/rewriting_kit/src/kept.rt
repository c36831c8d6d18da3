// Bodies in which each node is known to stay.

ghost use Rattle.std.specs.Prelude.{◌≡◌, List, [], ◌∷◌, Some, IsTrue};
ghost use Rattle.rewriting_kit.specs.Rewrites.{held, rewrite, rewritten};

use crate::rewriting::Rewriting;
use typed_trees::{Bodies, Node};

/// Whether all nodes of a body are known to stay, those in their bodies too.
#[cycle(staying)]
pub(crate) fn all_stay<E: Copy, R: Rewriting<E>>(rewriting: &R, nodes: &[Node]) -> bool
    ensures { IsTrue result → (x : List E) → rewritten (R.entry rewriting.now) (R.layer rewriting.now) nodes.now x ≡ nodes.now }
{
    for node in nodes {
        if !node_stays(rewriting, node) {
            return false;
        }
    }
    true
}

/// Whether a node is known to stay. One with two bodies without nodes becomes one without bodies.
#[cycle(staying)]
fn node_stays<E: Copy, R: Rewriting<E>>(rewriting: &R, node: &Node) -> bool
    ensures { IsTrue result → (x : List E) → rewrite (R.entry rewriting.now) (R.layer rewriting.now) node.now x ≡ node.now ∷ [] }
{
    if !rewriting.stays(&node.head) {
        return false;
    }
    let Some(bodies) = &node.bodies else {
        return true;
    };
    let bodies = bodies.get();
    if !have_nodes(bodies) {
        return false;
    }
    if !all_stay(rewriting, bodies.first.as_slice()) {
        return false;
    }
    all_stay(rewriting, bodies.second.as_slice())
}

/// Whether a node without bodies is known to stay, as most are: it is then moved whole.
#[inline(always)]
pub(crate) fn is_kept_leaf<E: Copy, R: Rewriting<E>>(rewriting: &R, node: &Node) -> bool
    ensures { IsTrue result → (x : List E) → rewrite (R.entry rewriting.now) (R.layer rewriting.now) node.now x ≡ node.now ∷ [] }
{
    match &node.bodies {
        Some(_) => false,
        None => rewriting.stays(&node.head),
    }
}

/// Whether some node stands in one of the bodies.
fn have_nodes(bodies: &Bodies<Node>) -> bool
    ensures { IsTrue result → held bodies.now.first bodies.now.second ≡ Some bodies.now }
{
    if !bodies.first.is_empty() {
        return true;
    }
    !bodies.second.is_empty()
}
