ghost use Rattle.std.specs.Prelude.{◌≡◌, ◌&&◌, map};
ghost use Rattle.core1_ast.specs.Spaces.{imported_globals};
ghost use Rattle.core1_ast.specs.Typing.{TypedGlobal};
ghost use Rattle.valid_core1.specs.Checks.{Decided};
ghost use Rattle.valid_core1.specs.Constants.{is_constant as is_constant_of};
ghost use Rattle.valid_core1.specs.Forms.{is_integer as is_integer_type};
ghost use Rattle.valid_core1.specs.Scopes.{global_type};

use crate::labels::is_integer;
use crate::parts::constants::is_constant;
use crate::search::PartTest;
use crate::spaces::GlobalTy;
use core1_ast::module::{Global1, Module1};

/// Whether a global is typed, whose initial value may name these globals.
fn global_is_typed(globals: &[GlobalTy], global: &Global1) -> bool
    ensures { result ≡ (is_integer_type global.now.ty && is_constant_of (map global_type globals.now) global.now.init global.now.ty) }
{
    is_integer(global.ty) && is_constant(globals, &global.init, global.ty)
}

/// The test of globals.
#[derive(Drop)]
pub struct GlobalTest<'a> {
    /// The module.
    pub module: &'a Module1,
    /// The imported globals.
    pub imported: &'a [GlobalTy],
}

impl<'a> PartTest for GlobalTest<'a> {
    ghost use Rattle.std.specs.Prelude.{◌≡◌, map};
    ghost use Rattle.core1_ast.specs.Spaces.{imported_globals};
    ghost use Rattle.core1_ast.specs.Typing.{TypedGlobal};
    ghost use Rattle.valid_core1.specs.Scopes.{global_type};

    type Part = Global1;

    ghost may = { λ self. map global_type self.imported.now ≡ imported_globals self.module.now };

    ghost typed = { λ self k g. TypedGlobal self.module.now g };

    fn is_typed(&self, _place: usize, global: &Global1) -> bool
        requires { map global_type self.now.imported.now ≡ imported_globals self.now.module.now }
        ensures { Decided result (TypedGlobal self.now.module.now global.now) }
    {
        global_is_typed(self.imported, global)
    }
}
