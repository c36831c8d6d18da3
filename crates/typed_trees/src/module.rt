ghost use Rattle.std.specs.Prelude.{◌≡◌, ◌<◌, Some, length, slice_get};
ghost use Rattle.typed_trees.specs.Typed.{IsTypedTree};

use crate::node::Nodes;
use num_core::lists::TryCopy;
use sqlite_items::Items;
use std::alloc::{AllocError, Global};
use std::marker::Model;
use wasm_ast::lists::Types;
use wasm_ast::module::Module;

/// The body of a function, typed: reachable code alone.
#[derive(Drop)]
pub struct TypedFn {
    /// The types of the locals that it declares, the parameters not among them.
    pub locals: Types,
    /// Its code.
    pub body: Nodes,
}

/// A module of 3.0 whose code is kept with its types. It is typed by the rules of 3.0 ("Modules" of chapter 3), and
/// contracts see it as its parts beside bodies and its bodies.
#[derive(Drop)]
pub struct TypedModule {
    part: Module,
    fns: Items<TypedFn>,
}

impl Model for TypedModule {
    ghost use Rattle.std.specs.Prelude.{List};
    ghost use Rattle.wasm_ast.specs.declared.module.parts.Module.{Module};
    ghost use Rattle.typed_trees.specs.declared.module.TypedFn.{TypedFn};
    ghost use Rattle.typed_trees.specs.Typed.{IsTypedTree};
    ghost use Rattle.std.specs.Coded.{codes};
    ghost use Rattle.wasm_ast.specs.contracts.module.code.Instr as instr;
    ghost use Rattle.typed_trees.specs.contracts.node.Node as node;

    ghost Value = { Module × List TypedFn };

    ghost coded = { Prim.hlevel (codes, instr.the_row.coded, node.the_row.coded) };

    ghost view = { λ m. (m.part, m.fns) };

    ghost invariant = { λ m. IsTypedTree (m.part, m.fns) };
}

impl TypedModule {
    /// The module of these parts, which has no bodies, and these bodies, one for each function. It takes no memory.
    pub fn build(part: Module, fns: Items<TypedFn>) -> TypedModule
        requires { IsTypedTree (part, fns) }
        ensures { result ≡ (part, fns) }
    {
        TypedModule { part, fns }
    }

    /// The parts beside bodies: the module without bodies.
    pub fn part(&self) -> &Module
        ensures { result.now ≡ self.now.0 }
    {
        &self.part
    }

    /// The bodies in order.
    pub fn functions(&self) -> &[TypedFn]
        ensures { result.now ≡ self.now.1 }
    {
        self.fns.as_slice()
    }

    /// The parts and the bodies, which are typed.
    pub fn tree(&self) -> (&Module, &[TypedFn])
        ensures part { result.0.now ≡ self.now.0 }
        ensures functions { result.1.now ≡ self.now.1 }
        ensures typed { IsTypedTree self.now }
    {
        (&self.part, self.fns.as_slice())
    }

    /// The parts and the bodies by value. It takes no memory.
    pub fn into_tree(self) -> (Module, Items<TypedFn>)
        ensures tree { result ≡ self }
        ensures typed { IsTypedTree self }
    {
        let TypedModule { part, fns } = self;
        (part, fns)
    }

    /// The body at this place, counted from 0.
    pub fn function(&self, f: u32) -> &TypedFn
        requires { f < length self.now.1 }
        ensures { slice_get self.now.1 f ≡ Some result.now }
    {
        &self.fns.as_slice()[f as usize]
    }
}

impl TryCopy for TypedModule {
    fn copy(&self, alloc: Global) -> Result<TypedModule, AllocError> {
        let part = self.part.copy(alloc)?;
        let fns = self.fns.copy(alloc)?;
        Ok(TypedModule { part, fns })
    }
}
