ghost use Rattle.std.specs.Prelude.{◌≡◌, ◌++◌, slice_get};
ghost use Rattle.std.specs.Option.{option_copied, option_map};
ghost use Rattle.core1_ast.specs.Code.{func_type};
ghost use Rattle.core1_ast.specs.Spaces.{all_globals};
ghost use Rattle.valid_core1.specs.Forms.{is_some_of};
ghost use Rattle.valid_core1.specs.Scopes.{AreSpaces, context_of, global_type};

use crate::spaces::{GlobalTy, Spaces};
use core1_ast::module::{BlockType1, FuncType1, Module1, Ty1};

/// What the code of a function may name.
#[derive(Drop)]
pub struct Scope<'a> {
    /// The module.
    pub module: &'a Module1,
    /// Its index spaces.
    pub spaces: &'a Spaces,
    /// The types of the parameters.
    pub params: &'a [Ty1],
    /// The types of the declared locals.
    pub locals: &'a [Ty1],
    /// The results of the function.
    pub results: BlockType1,
}

impl Scope<'_> {
    /// The type of a local: the parameters come first.
    pub fn local(&self, index: u32) -> Option<Ty1>
        ensures { result ≡ slice_get (context_of self.now).locals index }
    {
        let index = index as usize;
        if index < self.params.len() {
            self.params.get(index).copied()
        } else {
            self.locals.get(index - self.params.len()).copied()
        }
    }

    /// The type of a global.
    pub fn global(&self, index: u32) -> Option<GlobalTy>
        requires { AreSpaces self.now.module.now self.now.spaces.now }
        ensures { option_map global_type result ≡ slice_get (context_of self.now).globals index }
    {
        self.spaces.globals.get(index as usize).copied()
    }

    /// Whether there is a memory.
    pub fn has_memory(&self) -> bool
        requires { AreSpaces self.now.module.now self.now.spaces.now }
        ensures { result ≡ is_some_of (context_of self.now).memories }
    {
        self.spaces.memories > 0
    }

    /// Whether there is a table.
    pub fn has_table(&self) -> bool
        requires { AreSpaces self.now.module.now self.now.spaces.now }
        ensures { result ≡ is_some_of (context_of self.now).tables }
    {
        self.spaces.tables > 0
    }

    /// The type with this index.
    pub fn type_at(&self, index: u32) -> Option<&FuncType1>
        ensures { option_copied result ≡ slice_get (context_of self.now).types index }
    {
        self.module.types.get(index as usize)
    }

    /// The type of a function.
    pub fn func_type(&self, index: u32) -> Option<&FuncType1>
        requires { AreSpaces self.now.module.now self.now.spaces.now }
        ensures { option_copied result ≡ func_type (context_of self.now) index }
    {
        match self.spaces.funcs.get(index as usize) {
            Some(ty) => self.type_at(*ty),
            None => None,
        }
    }
}
