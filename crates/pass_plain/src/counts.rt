// Whether a body names a data segment.

ghost use Rattle.std.specs.Prelude.{◌≡◌};
ghost use Rattle.std.specs.List.{list_any};
ghost use Rattle.wasm_ast.specs.Counts.{is_data_use};
ghost use Rattle.wasm_ast.specs.Occurrence.{head_of};
ghost use Rattle.pass_plain.specs.Trimming.{asks, asks_for_count};

use typed_trees::{Node, TypedFn};
use wasm_ast::module::Instr;

/// Whether some body names a data segment, so that a count of them is asked for. The recursion goes as deep as blocks nest.
pub(crate) fn ask_for_count(fns: &[TypedFn]) -> bool
    ensures { result ≡ asks_for_count fns.now }
{
    for f in fns {
        if any_asks(f.body.as_slice()) {
            return true;
        }
    }
    false
}

/// Whether some node asks for the count.
#[cycle(asking)]
fn any_asks(nodes: &[Node]) -> bool
    ensures { result ≡ list_any asks nodes.now }
{
    for node in nodes {
        if node_asks(node) {
            return true;
        }
    }
    false
}

/// Whether a node or one in it does.
#[cycle(asking)]
fn node_asks(node: &Node) -> bool
    ensures { result ≡ asks node.now }
{
    if names_segment(&node.head) {
        return true;
    }
    if any_asks(node.first()) {
        return true;
    }
    any_asks(node.second())
}

/// Whether an instruction names a data segment.
fn names_segment(head: &Instr) -> bool
    ensures { result ≡ is_data_use (head_of head.now) }
{
    matches!(head, Instr::MemoryInit(..) | Instr::DataDrop(_))
}
