ghost use Rattle.std.specs.Prelude.{◌≡◌, map, filter_map, IfOk};
ghost use Rattle.core1_ast.specs.Lengths.{IsShortModule};
ghost use Rattle.core1_ast.specs.Spaces.{func_import, global_import};
ghost use Rattle.valid_core1.specs.Scopes.{AreSpaces, global_type};

use crate::parts::{count_memories, count_tables};
use core1_ast::module::{Global1, Import1, ImportDesc1, Module1, Ty1};
use sqlite_items::Items;
use std::alloc::{AllocError, Global};

/// The type of a global (the standard's "Global Types").
#[derive(Clone, Copy)]
pub struct GlobalTy {
    /// The type of its value.
    pub ty: Ty1,
    /// Whether it can be changed.
    pub mutable: bool,
}

/// The index spaces of a module, as far as typing asks for them, with the imports first.
#[derive(Drop)]
pub struct Spaces {
    /// The index of the type of each function.
    pub funcs: Items<u32>,
    /// The globals.
    pub globals: Items<GlobalTy>,
    /// How many of the globals are imported.
    pub imported_globals: usize,
    /// How many tables there are.
    pub tables: usize,
    /// How many memories there are.
    pub memories: usize,
}

/// The index of the type of each imported function.
fn imported_funcs(alloc: Global, imports: &[Import1]) -> Result<Items<u32>, AllocError>
    ensures { IfOk result (λ funcs. funcs ≡ filter_map (λ i. func_import i.desc) imports.now) }
{
    let mut funcs = Items::new(alloc);
    for import in imports {
        if let ImportDesc1::Func(ty) = import.desc {
            funcs.push(ty)?;
        }
    }
    Ok(funcs)
}

/// The imported globals.
fn imported_globals(alloc: Global, imports: &[Import1]) -> Result<Items<GlobalTy>, AllocError>
    ensures { IfOk result (λ globals. map global_type globals ≡ filter_map (λ i. global_import i.desc) imports.now) }
{
    let mut globals = Items::new(alloc);
    for import in imports {
        if let ImportDesc1::Global(ty, mutable) = import.desc {
            globals.push(GlobalTy { ty, mutable })?;
        }
    }
    Ok(globals)
}

/// The globals of the module itself.
fn declared_globals(alloc: Global, declared: &[Global1]) -> Result<Items<GlobalTy>, AllocError>
    ensures { IfOk result (λ globals. map global_type globals ≡ map (λ g. record { type = g.ty; mutable = g.mutable }) declared.now) }
{
    let mut globals = Items::new(alloc);
    for global in declared {
        globals.push(GlobalTy {
            ty: global.ty,
            mutable: global.mutable,
        })?;
    }
    Ok(globals)
}

/// The index spaces of a module.
pub fn spaces_of(alloc: Global, m: &Module1) -> Result<Spaces, AllocError>
    requires { IsShortModule m.now }
    ensures { IfOk result (AreSpaces m.now) }
{
    let imports = m.imports.as_slice();
    let mut funcs = imported_funcs(alloc, imports)?;
    funcs.append(Items::from_slice(alloc, m.funcs.as_slice())?)?;
    let mut globals = imported_globals(alloc, imports)?;
    let imported_globals = globals.len();
    globals.append(declared_globals(alloc, m.globals.as_slice())?)?;
    Ok(Spaces {
        funcs,
        globals,
        imported_globals,
        tables: count_tables(imports) + m.tables.len(),
        memories: count_memories(imports) + m.memories.len(),
    })
}
