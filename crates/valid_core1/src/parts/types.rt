ghost use Rattle.std.specs.Prelude.{◌≡◌, ◌&&◌, ◌<◌, nat_le, length};
ghost use Rattle.std.specs.List.{list_all};
ghost use Rattle.core1_ast.specs.Typing.{TypedFuncType};
ghost use Rattle.valid_core1.specs.Checks.{Decided};
ghost use Rattle.valid_core1.specs.Forms.{is_integer as is_integer_type};

use crate::labels::is_integer;
use crate::search::PartTest;
use core1_ast::module::{FuncType1, Ty1};

/// Whether all types are integers.
pub fn all_integers(types: &[Ty1]) -> bool
    ensures { result ≡ list_all is_integer_type types.now }
{
    for ty in types {
        if !is_integer(*ty) {
            return false;
        }
    }
    true
}

/// Whether a function type is typed.
fn func_type_is_typed(ty: &FuncType1) -> bool
    ensures { result ≡ (list_all is_integer_type ty.now.params && list_all is_integer_type ty.now.results && nat_le (length ty.now.results) 1) }
{
    all_integers(ty.params.as_slice())
        && all_integers(ty.results.as_slice())
        && ty.results.len() <= 1
}

/// The test of function types.
#[derive(Drop)]
pub struct TypeTest;

impl PartTest for TypeTest {
    ghost use Rattle.core1_ast.specs.Typing.{TypedFuncType};

    type Part = FuncType1;

    ghost may = { λ _. Unit {0} };

    ghost typed = { λ _ k t. TypedFuncType t };

    #[tactic(auto, using(crate::proofs::Deciding::type_decided))]
    fn is_typed(&self, _place: usize, ty: &FuncType1) -> bool
        ensures { Decided result (TypedFuncType ty.now) }
    {
        func_type_is_typed(ty)
    }
}

/// The test of the functions of a module with so many types.
#[derive(Drop)]
pub struct FuncTest {
    /// How many types there are.
    pub types: usize,
}

impl PartTest for FuncTest {
    ghost use Rattle.std.specs.Prelude.{◌<◌};

    type Part = u32;

    ghost may = { λ _. Unit {0} };

    ghost typed = { λ self k t. t < self.types };

    fn is_typed(&self, _place: usize, ty: &u32) -> bool
        ensures { Decided result (ty.now < self.now.types) }
    {
        (*ty as usize) < self.types
    }
}
