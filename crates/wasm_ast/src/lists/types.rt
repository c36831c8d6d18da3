ghost use Rattle.std.specs.Prelude.{◌≡◌, [], ◌∷◌, ◌++◌, IfOk, OnOk, OnErr};

use crate::module::Ty;
use num_core::lists::TryCopy;
use smallvec::SmallVec;
use std::alloc::{AllocError, Global};
use std::marker::Model;

/// A list of value types. Up to four stand in the value itself.
#[derive(Drop)]
pub struct Types {
    types: SmallVec<Ty, 4>,
}

impl Model for Types {
    ghost use Rattle.std.specs.Prelude.{List};
    ghost use Rattle.wasm_ast.specs.declared.module.ty.Ty.{Ty};

    ghost Value = { List Ty };

    ghost view = { λ t. t.types.items };
}

impl Types {
    /// No types. It takes no memory.
    pub fn new(alloc: Global) -> Types
        ensures { result ≡ [] }
    {
        Types {
            types: SmallVec::new(alloc),
        }
    }

    /// The types as a slice.
    pub fn as_slice(&self) -> &[Ty]
        ensures { result.now ≡ self.now }
    {
        self.types.as_slice()
    }

    /// Appends one type. For want of memory nothing changes.
    pub fn push(&mut self, ty: Ty) -> Result<(), AllocError>
        ensures ok { OnOk result (self.new ≡ self.old ++ ty ∷ []) }
        ensures err { OnErr result (self.new ≡ self.old) }
    {
        self.types.push(ty)?;
        Ok(())
    }
}

impl TryCopy for Types {
    fn copy(&self, alloc: Global) -> Result<Types, AllocError> {
        let types = SmallVec::from_slice(alloc, self.as_slice())?;
        Ok(Types { types })
    }
}
