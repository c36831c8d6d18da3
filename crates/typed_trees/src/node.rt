ghost use Rattle.std.specs.Prelude.{◌≡◌};
ghost use Rattle.typed_trees.specs.Trees.{takes_of, gives_of, first_of, second_of};

use crate::signature::Signature;
use sqlite_items::{Boxed, Items};
use wasm_ast::module::{Instr, Ty};

/// An instruction in code that can be reached, with the types of its operands and results.
#[derive(Drop)]
pub struct Node {
    /// The instruction and its immediates. The bodies that an instruction holds are empty in it.
    pub head: Instr,
    /// The types that it takes from the operand stack and those that it leaves there, the top last. An instruction
    /// behind which nothing is reached leaves none.
    pub types: Signature,
    /// The code that it holds, if any.
    pub bodies: Option<Boxed<Bodies<Node>>>,
}

// A tree takes memory in proportion to its nodes: 64 bytes of each are its head.
const _: () = prove!(size_of::<Node>() == 96);

/// Nodes in order. Nothing stands behind a node that cannot be left at its end.
pub type Nodes = Items<Node>;

/// The code that an instruction holds.
#[derive(Drop)]
pub struct Bodies<T> {
    /// Its code; of an if, the code for an operand that is not 0.
    pub first: Items<T>,
    /// The code of an if for the operand 0; of every other instruction there is none.
    pub second: Items<T>,
}

impl Node {
    /// The types that it takes from the operand stack, the top last.
    pub fn takes(&self) -> &[Ty]
        ensures { result.now ≡ takes_of self.now }
    {
        self.types.takes()
    }

    /// The types that it leaves there, the top last.
    pub fn gives(&self) -> &[Ty]
        ensures { result.now ≡ gives_of self.now }
    {
        self.types.gives()
    }

    /// The code that it holds; of an if, the code for an operand that is not 0.
    pub fn first(&self) -> &[Node]
        ensures { result.now ≡ first_of self.now }
    {
        match &self.bodies {
            Some(bodies) => bodies.get().first.as_slice(),
            None => &[],
        }
    }

    /// The code of an if for the operand 0.
    pub fn second(&self) -> &[Node]
        ensures { result.now ≡ second_of self.now }
    {
        match &self.bodies {
            Some(bodies) => bodies.get().second.as_slice(),
            None => &[],
        }
    }
}
