// Function types, functions, tags and imports.

ghost use Rattle.std.specs.Prelude.{◌≡◌, ◌<◌, [], length, option_map, slice_get, true, IfOk};
ghost use Rattle.std.specs.List.{AllByRecursion, list_all};
ghost use Rattle.typed_trees.specs.Contexts.{is_value_type};
ghost use Rattle.typed_trees.specs.Modules.{TypedFuncType, TypedImport, TypedTag};
ghost use Rattle.valid_new.specs.Judged.{Decided};

use crate::parts::limits::{memory_is_typed, table_type_is_typed};
use crate::search::PartTest;
use std::alloc::AllocError;
use valid_new::is_value_type;
use wasm_ast::module::{FuncType, Import, ImportDesc, Module, Ty};

/// Whether each is the type of values.
fn are_value_types(types: &[Ty]) -> bool
    ensures { result ≡ list_all is_value_type types.now }
{
    types.iter().all(|ty| is_value_type(*ty))
}

/// Whether a function type is typed.
#[tactic(auto, using(crate::proofs::Deciding::type_decided))]
fn func_type_is_typed(ty: &FuncType) -> bool
    ensures { Decided result (TypedFuncType ty.now) }
{
    are_value_types(ty.params.as_slice()) && are_value_types(ty.results.as_slice())
}

/// Whether there are no types.
#[tactic(auto, using(crate::proofs::Deciding::empty_decided))]
pub fn is_nothing(types: &[Ty]) -> bool
    ensures { Decided result (types.now ≡ []) }
{
    types.is_empty()
}

/// The function type with an index.
fn type_at(m: &Module, index: u32) -> Option<&FuncType>
    ensures { option_map (λ t. t.now) result ≡ slice_get m.now.types index }
{
    m.types.as_slice().get(index as usize)
}

/// Whether the index is that of a type without results.
fn tag_is_typed(m: &Module, index: u32) -> bool
    ensures { Decided result (TypedTag m.now index) }
{
    match type_at(m, index) {
        Some(ty) => is_nothing(ty.results.as_slice()),
        None => false,
    }
}

/// Whether what an import asks for is typed.
fn import_is_typed(m: &Module, desc: ImportDesc) -> bool
    ensures { Decided result (TypedImport m.now desc) }
{
    match desc {
        ImportDesc::Func(ty) => (ty as usize) < m.types.len(),
        ImportDesc::Table(ty, limits) => table_type_is_typed(ty, limits),
        ImportDesc::Memory(limits) => memory_is_typed(limits),
        ImportDesc::Global(ty, _) => is_value_type(ty),
        ImportDesc::Tag(ty) => tag_is_typed(m, ty),
    }
}

/// The test of function types.
#[derive(Drop)]
pub struct TypeTest;

impl PartTest for TypeTest {
    ghost use Rattle.typed_trees.specs.Modules.{TypedFuncType};

    type Part = FuncType;

    ghost may = { λ _. Unit {0} };

    ghost typed = { λ _ t. TypedFuncType t };

    fn is_typed(&self, ty: &FuncType) -> Result<bool, AllocError>
        ensures { IfOk result (λ yes. Decided yes (TypedFuncType ty.now)) }
    {
        Ok(func_type_is_typed(ty))
    }
}

/// The test of imports.
#[derive(Drop)]
pub struct ImportTest<'a> {
    /// The module.
    pub module: &'a Module,
}

impl<'a> PartTest for ImportTest<'a> {
    ghost use Rattle.typed_trees.specs.Modules.{TypedImport};

    type Part = Import;

    ghost may = { λ _. Unit {0} };

    ghost typed = { λ self i. TypedImport self.module.now i.desc };

    fn is_typed(&self, import: &Import) -> Result<bool, AllocError>
        ensures { IfOk result (λ yes. Decided yes (TypedImport self.now.module.now import.now.desc)) }
    {
        Ok(import_is_typed(self.module, import.desc))
    }
}

/// The test of the functions of a module with so many types.
#[derive(Drop)]
pub struct FuncTest {
    /// How many types there are.
    pub types: usize,
}

impl PartTest for FuncTest {
    ghost use Rattle.std.specs.Prelude.{◌<◌};

    type Part = u32;

    ghost may = { λ _. Unit {0} };

    ghost typed = { λ self t. t < self.types };

    fn is_typed(&self, ty: &u32) -> Result<bool, AllocError>
        ensures { IfOk result (λ yes. Decided yes (ty.now < self.now.types)) }
    {
        Ok((*ty as usize) < self.types)
    }
}

/// The test of tags.
#[derive(Drop)]
pub struct TagTest<'a> {
    /// The module.
    pub module: &'a Module,
}

impl<'a> PartTest for TagTest<'a> {
    ghost use Rattle.typed_trees.specs.Modules.{TypedTag};

    type Part = u32;

    ghost may = { λ _. Unit {0} };

    ghost typed = { λ self t. TypedTag self.module.now t };

    fn is_typed(&self, ty: &u32) -> Result<bool, AllocError>
        ensures { IfOk result (λ yes. Decided yes (TypedTag self.now.module.now ty.now)) }
    {
        Ok(tag_is_typed(self.module, *ty))
    }
}
