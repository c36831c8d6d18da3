// The index spaces of a module, and those by which its tables and globals are typed.

ghost use Rattle.std.specs.Prelude.{◌≡◌, IfOk};
ghost use Rattle.typed_trees.specs.Modules.{all_globals, context, early_context, global_import, imported_of};
ghost use Rattle.valid_new.specs.Scopes.{spaces_context};
ghost use Rattle.valid_mod.specs.Hidden.{AreHidden};

use sqlite_items::Items;
use std::alloc::{AllocError, Global};
use valid_new::Spaces;
use wasm_ast::module::{Limits, Module, Ty};

/// The index spaces that tables and globals do not see.
#[derive(Drop)]
pub struct Hidden {
    /// The index of the type of each tag.
    pub tags: Items<u32>,
    /// The reference type of each table.
    pub tables: Items<Ty>,
    /// The reference type of each element segment.
    pub elems: Items<Ty>,
    /// The limits of each memory.
    pub memories: Items<Limits>,
    /// How many data segments there are.
    pub datas: usize,
}

/// The index spaces by which tables are typed, with the imported globals alone, and those that they do not see. What is
/// large is moved and not copied.
pub fn hide<'m>(
    alloc: Global,
    m: &Module,
    spaces: Spaces<'m>,
) -> Result<(Spaces<'m>, Hidden), AllocError>
    requires { spaces_context spaces ≡ context m.now }
    ensures seen { IfOk result (λ both. spaces_context both.0 ≡ early_context m.now (imported_of global_import m.now)) }
    ensures hidden { IfOk result (λ both. AreHidden m.now both.1) }
{
    let Spaces {
        types,
        funcs,
        tags,
        tables,
        elems,
        memories,
        datas,
        globals,
        refs,
    } = spaces;
    let imported = globals.len() - m.globals.len();
    let seen = Items::from_slice(alloc, &globals.as_slice()[..imported])?;
    let early = Spaces {
        types,
        funcs,
        tags: Items::new(alloc),
        tables: Items::new(alloc),
        elems: Items::new(alloc),
        memories: Items::new(alloc),
        datas: 0,
        globals: seen,
        refs,
    };
    let hidden = Hidden {
        tags,
        tables,
        elems,
        memories,
        datas,
    };
    Ok((early, hidden))
}

/// All index spaces, once all globals are among those that are seen.
pub fn show<'m>(m: &Module, seen: Spaces<'m>, hidden: Hidden) -> Spaces<'m>
    requires seen { spaces_context seen ≡ early_context m.now (all_globals m.now) }
    requires hidden { AreHidden m.now hidden }
    ensures { spaces_context result ≡ context m.now }
{
    Spaces {
        types: seen.types,
        funcs: seen.funcs,
        tags: hidden.tags,
        tables: hidden.tables,
        elems: hidden.elems,
        memories: hidden.memories,
        datas: hidden.datas,
        globals: seen.globals,
        refs: seen.refs,
    }
}
