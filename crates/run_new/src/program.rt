ghost use Rattle.meaning_new.specs.declared.val.Val.{Val};
ghost use Rattle.std.specs.Prelude.{◌≡◌, ℕ, List, [], ◌∷◌, ◌++◌, length, map, filter_map, count_by, slice_get, bytes_eq, option_map, option_and_then, IfOk, Some};
ghost use Rattle.wasm_ast.specs.Types.{type_key};
ghost use Rattle.std.specs.Option.{option_copied};
ghost use Rattle.host_kit.specs.Offered.{func_type, exported};
ghost use Rattle.typed_trees.specs.declared.module.TypedFn.{TypedFn};
ghost use Rattle.typed_trees.specs.Typed.{module_of};
ghost use Rattle.meaning_new.specs.Interface.{tag_import, tag_indices};
ghost use Rattle.meaning_new.specs.Forms.{type_of_tag, param_count, type_of_block, takes, gives, result_count, same_type, of_type, pick, tail_call_by, imported_funcs, is_func};
ghost use Rattle.run_kit.specs.Changes.{Lie};
ghost use Rattle.meaning_new.specs.Store.{missing};
ghost use Rattle.run_new.specs.Nodes.{node_callee};
ghost use Rattle.run_new.specs.Leaves.{Does};
ghost use Rattle.run_new.specs.States.{whole};
ghost use Rattle.run_new.specs.Callees.{CalleeIs, equal_types};

use crate::slot::Slot;
use crate::state::State;
use crate::values::function_of;
use evaluation_kit::Jump;
use run_kit::Change;
use sqlite_items::Items;
use std::alloc::{AllocError, Global};
use std::marker::Model;
use typed_trees::{TypedFn, TypedModule};
use wasm_ast::module::{BlockType, ExportDesc, FuncType, Import, ImportDesc, Module, Ty};
use wasm_ast::spaces::func_indices;

/// A module that runs, with the types of its functions and tags at hand. Contracts see it as its parts beside bodies and
/// its bodies.
#[derive(Drop)]
pub struct Program<'a> {
    part: &'a Module,
    fns: &'a [TypedFn],
    funcs: Items<u32>,
    imported: usize,
    tags: Vec<u32>,
}

impl<'a> Model for Program<'a> {
    ghost use Rattle.std.specs.Prelude.{◌≡◌, List};
    ghost use Rattle.wasm_ast.specs.Spaces.{func_indices};
    ghost use Rattle.wasm_ast.specs.declared.module.parts.Module.{Module};
    ghost use Rattle.typed_trees.specs.declared.module.TypedFn.{TypedFn};
    ghost use Rattle.meaning_new.specs.Interface.{tag_indices};
    ghost use Rattle.meaning_new.specs.Forms.{imported_funcs};
    ghost use Rattle.std.specs.Coded.{codes};
    ghost use Rattle.wasm_ast.specs.contracts.module.code.Instr as instr;
    ghost use Rattle.typed_trees.specs.contracts.node.Node as node;

    ghost Value = { Module × List TypedFn };

    ghost coded = { Prim.hlevel (codes, instr.the_row.coded, node.the_row.coded) };

    ghost view = { λ p. (p.part.now, p.fns.now) };

    ghost invariant = { λ p. (p.funcs ≡ func_indices p.part.now) × (p.imported ≡ imported_funcs p.part.now) × (p.tags.items ≡ tag_indices p.part.now) };
}

/// What the index of a function names.
#[derive(Drop)]
pub enum Callee<'a> {
    /// No function.
    Missing,
    /// A function of the module, with this type and this body.
    Own(&'a FuncType, &'a TypedFn),
    /// A function of the host's, with this type.
    Host(&'a FuncType),
}

impl<'a> Program<'a> {
    /// The module, made ready to run. It fails for want of memory alone.
    pub fn new(alloc: Global, source: &'a TypedModule) -> Result<Program<'a>, AllocError>
        ensures { IfOk result (λ program. program ≡ source.now) }
    {
        let part = source.part();
        Ok(Program {
            part,
            fns: source.functions(),
            funcs: func_indices(alloc, part)?,
            imported: imported_funcs(part.imports.as_slice()),
            tags: all_tags(alloc, part)?,
        })
    }

    /// The parts of the module beside bodies.
    pub fn part(&self) -> &'a Module
        ensures { result.now ≡ self.now.0 }
    {
        self.part
    }

    /// The type of a function, where there is one.
    pub fn func_type(&self, func: u32) -> Option<&'a FuncType>
        ensures { option_copied result ≡ func_type (module_of self.now) func }
    {
        let ty = *self.funcs.get(func as usize)?;
        self.ty(ty)
    }

    /// The function type with this index, where there is one.
    pub fn ty(&self, ty: u32) -> Option<&'a FuncType>
        ensures { option_copied result ≡ slice_get (module_of self.now).types ty }
    {
        self.part.types.as_slice().get(ty as usize)
    }

    /// How many values an exception of a tag has.
    pub fn tag_values(&self, tag: u32) -> usize
        ensures { result ≡ param_count (type_of_tag (module_of self.now) tag) }
    {
        match self.tags.as_slice().get(tag as usize) {
            Some(ty) => param_count(self.ty(*ty)),
            None => 0,
        }
    }

    /// How many operands a block takes (the standard's "Block Types").
    pub fn takes(&self, ty: BlockType) -> usize
        ensures { result ≡ takes (module_of self.now) ty }
    {
        match ty {
            BlockType::Empty | BlockType::One(_) => 0,
            BlockType::Index(ty) => param_count(self.ty(ty)),
        }
    }

    /// How many operands a block gives.
    pub fn gives(&self, ty: BlockType) -> usize
        ensures { result ≡ gives (module_of self.now) ty }
    {
        match ty {
            BlockType::Empty => 0,
            BlockType::One(_) => 1,
            BlockType::Index(ty) => result_count(self.ty(ty)),
        }
    }

    /// The function that an indirect call finds in a table at the place on the top, where there is one and it has the
    /// type (the standard's "Control Instructions").
    pub fn find_in_table(&self, ty: u32, table: u32, state: &State, top: Slot) -> Option<u32>
        ensures { (operands locals : List Val) → Lie missing (top ∷ []) operands → result ≡ pick (module_of self.now) ty table (record { operands = operands; locals = locals; state = whole state.now }) }
    {
        let func = function_of(state.store.entry(table, top)?)?;
        if same_type(self.func_type(func), self.ty(ty)) {
            Some(func)
        } else {
            None
        }
    }

    /// What return_call_indirect does: it leaves by the tail call that it finds, or traps.
    pub fn tail_call(&self, ty: u32, table: u32, state: &State, top: Slot) -> Change<Slot>
        ensures { Does (tail_call_by (module_of self.now) ty table) (top ∷ []) (whole state.now) result (whole state.now) }
    {
        match self.find_in_table(ty, table, state, top) {
            Some(func) => Change::Exit(1, Jump::TailCall(func)),
            None => Change::Exit(1, Jump::Trap),
        }
    }

    /// What the index of a function names.
    pub fn find(&self, func: u32) -> Callee<'a>
        ensures { CalleeIs self.now func (node_callee self.now func) result }
    {
        let Some(ty) = self.func_type(func) else {
            return Callee::Missing;
        };
        let func = func as usize;
        if func < self.imported {
            return Callee::Host(ty);
        }
        match self.fns.get(func - self.imported) {
            Some(body) => Callee::Own(ty, body),
            None => Callee::Missing,
        }
    }

    /// What the module exports under a name.
    pub fn export(&self, name: &str) -> Option<ExportDesc>
        ensures { result ≡ exported (module_of self.now) name.now }
    {
        self.part
            .exports
            .as_slice()
            .iter()
            .find(|export| export.name.as_str() == name)
            .map(|export| export.desc)
    }
}

/// How many operands a function type takes.
pub(crate) fn param_count(ty: Option<&FuncType>) -> usize
    ensures { result ≡ param_count (option_copied ty.entry) }
{
    match ty {
        Some(ty) => ty.params.as_slice().len(),
        None => 0,
    }
}

/// How many operands a function type gives.
fn result_count(ty: Option<&FuncType>) -> usize
    ensures { result ≡ result_count (option_copied ty.entry) }
{
    match ty {
        Some(ty) => ty.results.as_slice().len(),
        None => 0,
    }
}

/// How many of the imports are functions.
fn imported_funcs(imports: &[Import]) -> usize
    ensures { result ≡ count_by (λ i. is_func i.desc) imports.now }
{
    imports
        .iter()
        .filter(|import| matches!(import.desc, ImportDesc::Func(_)))
        .count()
}

/// The type index of a tag that is imported.
fn tag_import(desc: ImportDesc) -> Option<u32>
    ensures { result ≡ tag_import desc }
{
    match desc {
        ImportDesc::Tag(ty) => Some(ty),
        _ => None,
    }
}

/// The type index of each imported tag.
fn imported_tags(alloc: Global, imports: &[Import]) -> Result<Vec<u32>, AllocError>
    ensures { IfOk result (λ tags. tags.items ≡ filter_map (λ i. tag_import i.desc) imports.now) }
{
    imports
        .iter()
        .filter_map(|import| tag_import(import.desc))
        .collect(alloc)
}

/// The type index of each tag, imports first.
fn all_tags(alloc: Global, part: &Module) -> Result<Vec<u32>, AllocError>
    ensures { IfOk result (λ tags. tags.items ≡ tag_indices part.now) }
{
    let mut tags = imported_tags(alloc, part.imports.as_slice())?;
    tags.extend_from_slice(part.tags.as_slice())?;
    Ok(tags)
}

/// Whether two lists of types are equal.
fn equal_types(left: &[Ty], right: &[Ty]) -> bool
    ensures { result ≡ equal_types left.now right.now }
{
    left == right
}

/// Whether two function types are equal.
fn equal_func_types(left: &FuncType, right: &FuncType) -> bool
    ensures { result ≡ bytes_eq (type_key left.now) (type_key right.now) }
{
    equal_types(left.params.as_slice(), right.params.as_slice())
        && equal_types(left.results.as_slice(), right.results.as_slice())
}

/// Whether there are two function types, and they are equal.
fn same_type(left: Option<&FuncType>, right: Option<&FuncType>) -> bool
    ensures { result ≡ same_type (option_copied left.entry) (option_copied right.entry) }
{
    match (left, right) {
        (Some(left), Some(right)) => equal_func_types(left, right),
        _ => false,
    }
}
