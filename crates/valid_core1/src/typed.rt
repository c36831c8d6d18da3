ghost use Rattle.std.specs.Prelude.{◌≡◌};
ghost use Rattle.core1_ast.specs.Typing.{Typed1 as IsTyped};

use core1_ast::module::Module1;
use std::marker::Model;

/// A module of 1.0 that is typed.
#[derive(Drop)]
pub struct Typed1<'a> {
    module: &'a Module1,
}

impl<'a> Model for Typed1<'a> {
    ghost use Rattle.core1_ast.specs.declared.module.parts.Module1.{Module1};
    ghost use Rattle.core1_ast.specs.Typing.{Typed1 as IsTyped};
    ghost use Rattle.core1_ast.specs.contracts.module.code.Instr1 as instr;
    ghost use Rattle.std.specs.Coded.{codes};

    ghost Value = { Module1 };

    ghost coded = { Prim.hlevel (codes, instr.the_row.coded) };

    ghost view = { λ t. t.module.now };

    ghost invariant = { λ t. IsTyped t.module.now };
}

impl<'a> Typed1<'a> {
    /// The module, which is known to be typed.
    pub(crate) fn new(source: &'a Module1) -> Typed1<'a>
        requires { IsTyped source.now }
        ensures { result ≡ source.now }
    {
        Typed1 { module: source }
    }

    /// The module.
    pub fn module(&self) -> &Module1
        ensures value { result.now ≡ self.now }
        ensures typed { IsTyped self.now }
    {
        self.module
    }
}
