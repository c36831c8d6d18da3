ghost use Rattle.std.specs.Prelude.{◌≡◌, ◌≤◌, length};

use std::marker::Model;
use wasm_ast::module::Ty;

/// How many types stand in a `FewTypes` at most.
pub(crate) const FEW: usize = 6;

/// A list of at most six value types, in seven bytes.
#[derive(Drop)]
pub struct FewTypes {
    types: [Ty; 6],
    len: u8,
}

impl Model for FewTypes {
    ghost use Rattle.std.specs.Prelude.{◌≤◌, List, take};
    ghost use Rattle.wasm_ast.specs.declared.module.ty.Ty.{Ty};

    ghost Value = { List Ty };

    ghost view = { λ few. take few.len few.types };

    ghost invariant = { λ few. few.len ≤ 6 };
}

impl FewTypes {
    /// These types.
    pub fn new(types: &[Ty]) -> FewTypes
        requires { length types.now ≤ 6 }
        ensures { result ≡ types.now }
    {
        let mut kept = [Ty::I32; 6];
        kept[..types.len()].copy_from_slice(types);
        FewTypes {
            types: kept,
            len: types.len() as u8,
        }
    }

    /// The types as a slice.
    pub fn as_slice(&self) -> &[Ty]
        ensures { result.now ≡ self.now }
    {
        &self.types[..self.len as usize]
    }
}
