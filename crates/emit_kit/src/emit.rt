ghost use Rattle.std.specs.Prelude.{◌≡◌, ◌<◌, ◌≢◌, Ok, length, IfOk, IfSome, OnErr, OnOk};
ghost use Rattle.std.specs.List.{AllByRecursion};
ghost use Rattle.wasm_ast.specs.Spaces.{func_indices};
ghost use Rattle.typed_trees.specs.Modules.{all_globals};
ghost use Rattle.typed_trees.specs.Typed.{IsTypedTree};
ghost use Rattle.emit_kit.specs.Built.{AddsType, with_body, with_function, with_global};

use crate::default_values::new_global;
use crate::first_types::FirstTypes;
use crate::keys::type_key;
use crate::next_index::next_index;
use num_core::lists::Text;
use sqlite_items::Items;
use std::alloc::{AllocError, Global};
use std::marker::Model;
use typed_trees::{TypedFn, TypedModule};
use wasm_ast::module::{Export, ExportDesc, FuncType, Module, Ty};
use wasm_ast::spaces::{imported_func_count, imported_globals};

/// A module in the making: its parts beside bodies and its bodies, which contracts see as they would be finished.
#[derive(Drop)]
pub struct Emit {
    alloc: Global,
    part: Module,
    fns: Items<TypedFn>,
    first_types: FirstTypes,
    imported_funcs: usize,
    imported_globals: usize,
}

impl Model for Emit {
    ghost use Rattle.std.specs.Prelude.{List};
    ghost use Rattle.wasm_ast.specs.declared.module.parts.Module.{Module};
    ghost use Rattle.typed_trees.specs.declared.module.TypedFn.{TypedFn};
    ghost use Rattle.std.specs.Coded.{codes};
    ghost use Rattle.wasm_ast.specs.contracts.module.code.Instr as instr;
    ghost use Rattle.typed_trees.specs.contracts.node.Node as node;
    ghost use Rattle.emit_kit.specs.Counted.{Counted};

    ghost Value = { Module × List TypedFn };

    ghost coded = { Prim.hlevel (codes, instr.the_row.coded, node.the_row.coded) };

    ghost view = { λ e. (e.part, e.fns) };

    ghost invariant = { λ e. Counted e.part e.first_types e.imported_funcs e.imported_globals };
}

impl Emit {
    /// A builder that begins with these parts and bodies, which need not be typed yet. It takes time linear in the types
    /// and the imports, and fails for want of memory alone.
    pub fn new(alloc: Global, part: Module, fns: Items<TypedFn>) -> Result<Emit, AllocError>
        ensures { IfOk result (λ built. built ≡ (part, fns)) }
    {
        let first_types = FirstTypes::of_types(alloc, part.types.as_slice())?;
        let imported_funcs = imported_func_count(&part);
        let imported_globals = imported_globals(&part);
        Ok(Emit {
            alloc,
            part,
            fns,
            first_types,
            imported_funcs,
            imported_globals,
        })
    }

    /// The parts beside bodies, as they stand.
    pub fn part(&self) -> &Module
        ensures { result.now ≡ self.now.0 }
    {
        &self.part
    }

    /// The bodies in order, as they stand.
    pub fn functions(&self) -> &[TypedFn]
        ensures { result.now ≡ self.now.1 }
    {
        self.fns.as_slice()
    }

    /// The first index of the type, which is put last where it is new. For want of memory nothing changes.
    pub fn add_type(&mut self, t: FuncType) -> Result<u32, AllocError>
        ensures added { IfOk result (λ index. AddsType self.old t index self.new) }
        ensures refused { OnErr result (self.new ≡ self.old) }
    {
        let key = type_key(self.alloc, &t)?;
        match self.first_types.get(key.as_slice()) {
            Some(index) => Ok(index),
            None => self.first_types.push_type(&mut self.part.types, t, key),
        }
    }

    /// The index of a new global: mutable, with the default value of its type, and put last, as is its export under the
    /// name, if one is given. For want of memory nothing changes.
    pub fn add_global(&mut self, ty: Ty, export: Option<Text>) -> Result<u32, AllocError>
        requires { IfSome export (λ name. AllByRecursion (λ e. e.name ≢ name) self.old.0.exports) }
        ensures index { IfOk result (λ index. index ≡ length (all_globals self.old.0)) }
        ensures added { OnOk result (self.new ≡ with_global self.old ty export) }
        ensures refused { OnErr result (self.new ≡ self.old) }
    {
        let index = next_index(self.imported_globals, self.part.globals.len())?;
        let global = new_global(self.alloc, ty)?;
        self.part.globals.push(global)?;
        if let Some(name) = export {
            let desc = ExportDesc::Global(index);
            if self.part.exports.push(Export { name, desc }).is_err() {
                self.part.globals.pop();
                return Err(AllocError);
            }
        }
        Ok(index)
    }

    /// The index of a new function of the type with this index, which is put last with its body. For want of memory
    /// nothing changes.
    pub fn add_function(&mut self, ty: u32, f: TypedFn) -> Result<u32, AllocError>
        requires { ty < length self.old.0.types }
        ensures index { IfOk result (λ index. index ≡ length (func_indices self.old.0)) }
        ensures added { OnOk result (self.new ≡ with_function self.old ty f) }
        ensures refused { OnErr result (self.new ≡ self.old) }
    {
        let index = next_index(self.imported_funcs, self.part.funcs.len())?;
        self.part.funcs.push(ty)?;
        if self.fns.push(f).is_err() {
            self.part.funcs.pop();
            return Err(AllocError);
        }
        Ok(index)
    }

    /// Puts this body at a place, counted from 0, in place of the one there. It takes no memory.
    pub fn replace(&mut self, f: u32, t: TypedFn)
        requires { f < length self.old.1 }
        ensures { self.new ≡ with_body self.old f t }
    {
        self.fns.set(f as usize, t);
    }

    /// The module of the parts and bodies. It never fails.
    pub fn finish(self) -> Result<TypedModule, AllocError>
        requires { IsTypedTree self }
        ensures { result ≡ Ok self }
    {
        let Emit { part, fns, .. } = self;
        Ok(TypedModule::build(part, fns))
    }
}
