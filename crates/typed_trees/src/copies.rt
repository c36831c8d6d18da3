ghost use Rattle.std.specs.Prelude.{◌≡◌, IfOk};

use crate::module::TypedFn;
use crate::node::{Bodies, Node, Nodes};
use num_core::lists::TryCopy;
use sqlite_items::{Boxed, Items};
use std::alloc::{AllocError, Global};

impl TryCopy for Node {
    #[cycle(copies)]
    fn copy(&self, alloc: Global) -> Result<Node, AllocError> {
        let bodies = match &self.bodies {
            Some(bodies) => {
                let first = copy_of(&bodies.get().first, alloc)?;
                let second = copy_of(&bodies.get().second, alloc)?;
                Some(Boxed::new(alloc, Bodies { first, second })?)
            }
            None => None,
        };
        Ok(Node {
            head: self.head.copy(alloc)?,
            types: self.types.copy(alloc)?,
            bodies,
        })
    }
}

/// The nodes again, one by one.
#[cycle(copies)]
fn copy_of(nodes: &Nodes, alloc: Global) -> Result<Nodes, AllocError>
    ensures { IfOk result (λ copy. copy ≡ nodes.now) }
{
    let mut copy = Items::new(alloc);
    for node in nodes.as_slice() {
        copy.push(node.copy(alloc)?)?;
    }
    Ok(copy)
}

impl TryCopy for TypedFn {
    fn copy(&self, alloc: Global) -> Result<TypedFn, AllocError> {
        Ok(TypedFn {
            locals: self.locals.copy(alloc)?,
            body: copy_of(&self.body, alloc)?,
        })
    }
}
