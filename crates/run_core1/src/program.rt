ghost use Rattle.meaning_core1.specs.declared.val1.Val1.{Val1};
ghost use Rattle.std.specs.Prelude.{◌≡◌, ℕ, List, [], ◌∷◌, ◌++◌, map, filter_map, slice_get, IfOk};
ghost use Rattle.std.specs.Option.{option_copied};
ghost use Rattle.core1_ast.specs.Spaces.{func_import, func_indices};
ghost use Rattle.meaning_core1.specs.Store.{State1, zero_of_type};
ghost use Rattle.host_kit.specs.Offered1.{func_type1};
ghost use Rattle.meaning_core1.specs.Language.{parameter_count, equal_types, equal_func_types, pick1, callee1};
ghost use Rattle.run_core1.specs.Changes.{Lie};
ghost use Rattle.run_core1.specs.Callees.{CalleeIs};
ghost use Rattle.run_core1.specs.Constants.{HasConstants};

use crate::slot::Slot;
use crate::state::State;
use core1_ast::module::{Body1, FuncType1, Import1, ImportDesc1, Module1, Ty1};
use std::alloc::{AllocError, Global};
use std::marker::Model;

/// A module that runs, with the types of its functions at hand.
#[derive(Drop)]
pub struct Program<'a> {
    module: &'a Module1,
    funcs: Vec<u32>,
    imported: usize,
}

impl<'a> Model for Program<'a> {
    ghost use Rattle.std.specs.Prelude.{◌≡◌};
    ghost use Rattle.core1_ast.specs.Spaces.{func_indices};
    ghost use Rattle.core1_ast.specs.declared.module.parts.Module1.{Module1};
    ghost use Rattle.meaning_core1.specs.Language.{imported_count};
    ghost use Rattle.run_core1.specs.Constants.{HasConstants};
    ghost use Rattle.core1_ast.specs.contracts.module.code.Instr1 as instr;
    ghost use Rattle.std.specs.Coded.{codes};

    ghost Value = { Module1 };

    ghost coded = { Prim.hlevel (codes, instr.the_row.coded) };

    ghost view = { λ p. p.module.now };

    ghost invariant = { λ p. (p.funcs.items ≡ func_indices p.module.now) × (p.imported ≡ imported_count p.module.now) × HasConstants p.module.now };
}

/// What the index of a function names.
#[derive(Drop)]
pub enum Callee1<'a> {
    /// No function.
    Missing,
    /// A function of the module, with this type and this body.
    Own(&'a FuncType1, &'a Body1),
    /// A function of the host's, with this type.
    Host(&'a FuncType1),
}

impl<'a> Program<'a> {
    /// The module, made ready to run. It fails for want of memory alone.
    pub fn new(alloc: Global, source: &'a Module1) -> Result<Program<'a>, AllocError>
        requires { HasConstants source.now }
        ensures { IfOk result (λ program. program ≡ source.now) }
    {
        let mut funcs = imported_funcs(alloc, source.imports.as_slice())?;
        let imported = funcs.len();
        funcs.extend_from_slice(source.funcs.as_slice())?;
        Ok(Program {
            module: source,
            funcs,
            imported,
        })
    }

    /// The module.
    pub fn module(&self) -> &'a Module1
        ensures value { result.now ≡ self.now }
        ensures constants { HasConstants self.now }
    {
        self.module
    }

    /// The type of a function, where there is one.
    pub fn func_type(&self, func: u32) -> Option<&'a FuncType1>
        ensures { option_copied result ≡ func_type1 self.now func }
    {
        let ty = *self.funcs.get(func as usize)?;
        self.module.types.as_slice().get(ty as usize)
    }

    /// How many operands a call of a function takes.
    pub fn parameters(&self, func: u32) -> usize
        ensures { result ≡ parameter_count (func_type1 self.now func) }
    {
        match self.func_type(func) {
            Some(ty) => ty.params.len(),
            None => 0,
        }
    }

    /// How many operands a call of a function of a type takes.
    pub fn type_parameters(&self, ty: u32) -> usize
        ensures { result ≡ parameter_count (slice_get self.now.types ty) }
    {
        match self.module.types.as_slice().get(ty as usize) {
            Some(ty) => ty.params.len(),
            None => 0,
        }
    }

    /// The function that call_indirect finds in the table at the place on the top, where there is one and it has the type
    /// (the standard's "Control Instructions").
    pub fn find_in_table(&self, ty: u32, state: &State, top: Slot) -> Option<u32>
        ensures { (operands locals : List Val1) → Lie (top ∷ []) operands → result ≡ pick1 self.now ty (record { operands = operands; locals = locals; state = state.now }) }
    {
        let func = state.entry(top.number())?;
        if equal_func_types(
            self.func_type(func),
            self.module.types.as_slice().get(ty as usize),
        ) {
            Some(func)
        } else {
            None
        }
    }

    /// What the index of a function names.
    pub fn find(&self, func: u32) -> Callee1<'a>
        ensures { CalleeIs self.now func (callee1 self.now func) result }
    {
        let Some(ty) = self.func_type(func) else {
            return Callee1::Missing;
        };
        let func = func as usize;
        if func < self.imported {
            return Callee1::Host(ty);
        }
        match self.module.codes.as_slice().get(func - self.imported) {
            Some(body) => Callee1::Own(ty, body),
            None => Callee1::Missing,
        }
    }
}

/// What a declared local of a type begins with (the standard's "Invocation").
pub fn zero(ty: Ty1) -> Slot
    ensures { result ≡ zero_of_type ty }
{
    match ty {
        Ty1::I64 => Slot::i64(0),
        Ty1::I32 | Ty1::F32 | Ty1::F64 => Slot::i32(0),
    }
}

/// The index of the type of each imported function.
fn imported_funcs(alloc: Global, imports: &[Import1]) -> Result<Vec<u32>, AllocError>
    ensures { IfOk result (λ funcs. funcs.items ≡ filter_map (λ i. func_import i.desc) imports.now) }
{
    let mut funcs = Vec::new(alloc);
    for import in imports {
        if let ImportDesc1::Func(ty) = import.desc {
            funcs.push(ty)?;
        }
    }
    Ok(funcs)
}

/// Whether two lists of types are equal.
fn equal_types(left: &[Ty1], right: &[Ty1]) -> bool
    ensures { result ≡ equal_types left.now right.now }
{
    left == right
}

/// Whether there are two types of functions, and they are equal.
fn equal_func_types(left: Option<&FuncType1>, right: Option<&FuncType1>) -> bool
    ensures { result ≡ equal_func_types (option_copied left.entry) (option_copied right.entry) }
{
    match (left, right) {
        (Some(left), Some(right)) => {
            equal_types(left.params.as_slice(), right.params.as_slice())
                && equal_types(left.results.as_slice(), right.results.as_slice())
        }
        _ => false,
    }
}
