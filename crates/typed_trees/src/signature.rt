ghost use Rattle.std.specs.Prelude.{◌≡◌, IfOk};

use crate::few_types::{FEW, FewTypes};
use num_core::lists::TryCopy;
use sqlite_items::{Boxed, Items};
use std::alloc::{AllocError, Global};
use std::marker::Model;
use wasm_ast::module::Ty;

/// The types of a node in two lists of their own.
#[derive(Drop)]
pub struct ManyTypes {
    takes: Items<Ty>,
    gives: Items<Ty>,
}

/// How a signature is kept.
#[derive(Drop)]
pub enum Kept {
    /// In place: at most six types are taken, and at most six given.
    Few(FewTypes, FewTypes),
    /// Elsewhere.
    Many(Boxed<ManyTypes>),
}

/// The types of the operands and of the results of a node, the top last. Contracts see it as the pair of both lists. In
/// place it has sixteen bytes, which hold up to six types of each.
#[derive(Drop)]
pub struct Signature {
    kept: Kept,
}

impl Model for Signature {
    ghost use Rattle.std.specs.Prelude.{List};
    ghost use Rattle.wasm_ast.specs.declared.module.ty.Ty.{Ty};
    ghost use Rattle.typed_trees.specs.Signatures.{lists};

    ghost Value = { List Ty × List Ty };

    ghost view = { λ signature. lists signature.kept };
}

impl Signature {
    /// The signature of these types. It takes no memory for at most six of each.
    pub fn new(alloc: Global, takes: &[Ty], gives: &[Ty]) -> Result<Signature, AllocError>
        ensures { IfOk result (λ signature. signature ≡ (takes.now, gives.now)) }
    {
        if takes.len() <= FEW && gives.len() <= FEW {
            return Ok(Signature {
                kept: Kept::Few(FewTypes::new(takes), FewTypes::new(gives)),
            });
        }
        let many = ManyTypes {
            takes: Items::from_slice(alloc, takes)?,
            gives: Items::from_slice(alloc, gives)?,
        };
        Ok(Signature {
            kept: Kept::Many(Boxed::new(alloc, many)?),
        })
    }

    /// The types that are taken from the operand stack.
    pub fn takes(&self) -> &[Ty]
        ensures { result.now ≡ self.now.0 }
    {
        match &self.kept {
            Kept::Few(takes, _) => takes.as_slice(),
            Kept::Many(many) => many.get().takes.as_slice(),
        }
    }

    /// The types that are left there.
    pub fn gives(&self) -> &[Ty]
        ensures { result.now ≡ self.now.1 }
    {
        match &self.kept {
            Kept::Few(_, gives) => gives.as_slice(),
            Kept::Many(many) => many.get().gives.as_slice(),
        }
    }
}

impl TryCopy for Signature {
    fn copy(&self, alloc: Global) -> Result<Signature, AllocError> {
        Signature::new(alloc, self.takes(), self.gives())
    }
}
