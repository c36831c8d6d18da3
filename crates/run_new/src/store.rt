ghost use Rattle.std.specs.Prelude.{◌≡◌, List, [], ◌∷◌, ◌++◌, map, length, slice_get, slice_index_or, option_and_then, IfOk};
ghost use Rattle.std.specs.Option.{option_copied};
ghost use Rattle.meaning_new.specs.Store.{missing, number, on_store, page_count, sizes};
ghost use Rattle.meaning_new.specs.Tables.{with_global, global_get, global_set};
ghost use Rattle.run_new.specs.Leaves.{DoesInStore};

use crate::exception::Exception;
use crate::memory::Memory;
use crate::slot::{MISSING, Slot};
use crate::table::Table;
use run_kit::Change;
use sqlite_items::Items;
use std::alloc::{AllocError, Global};
use std::marker::Model;

/// The store of a module: all that its code can read or change (the standard's "Store"). The bytes of data segments are
/// borrowed.
#[derive(Drop)]
pub struct Store<'a> {
    pub(crate) alloc: Global,
    pub(crate) globals: Vec<Slot>,
    pub(crate) memories: Vec<Memory>,
    pub(crate) tables: Vec<Table>,
    pub(crate) elems: Vec<Items<Slot>>,
    pub(crate) datas: Vec<&'a [u8]>,
    pub(crate) exceptions: Vec<Exception>,
}

impl<'a> Model for Store<'a> {
    ghost use Rattle.std.specs.Prelude.{map};
    ghost use Rattle.meaning_new.specs.Store.{Store};

    ghost Value = { Store };

    ghost view = { λ s. record {
      globals = s.globals.items;
      memories = s.memories.items;
      tables = s.tables.items;
      elems = s.elems.items;
      datas = map (λ d. d.now) s.datas.items;
      exceptions = s.exceptions.items;
    } };
}

impl<'a> Store<'a> {
    /// What global.get does (the standard's "Variable Instructions").
    pub fn global_get(&self, global: u32) -> Change<Slot>
        ensures { DoesInStore (on_store (global_get global)) [] self.now result self.now }
    {
        Change::Put(0, self.global(global))
    }

    /// What global.set does (the standard's "Variable Instructions").
    pub fn global_set(&mut self, global: u32, top: Slot) -> Change<Slot>
        ensures { DoesInStore (on_store (global_set global)) (top ∷ []) self.old result self.new }
    {
        self.put_global(global, top);
        Change::Take(1)
    }

    /// The value of a global, or 0 where there is none.
    pub(crate) fn global(&self, global: u32) -> Slot
        ensures { result ≡ slice_index_or self.now.globals global missing }
    {
        let value = self.globals.get(global as usize).copied();
        value.unwrap_or(MISSING)
    }

    /// Sets a global, where it is there.
    pub(crate) fn put_global(&mut self, global: u32, value: Slot)
        ensures { self.new ≡ with_global global value self.old }
    {
        if let Some(place) = self.globals.get_mut(global as usize) {
            *place = value;
        }
    }

    /// The sizes of all memories in pages, and then of all tables in entries. It fails for want of memory alone.
    pub(crate) fn sizes(&self) -> Result<Items<usize>, AllocError>
        ensures { IfOk result (λ all. all ≡ sizes self.now) }
    {
        sizes(self.alloc, self.memories.as_slice(), self.tables.as_slice())
    }

    /// The exception of a number, where it was made.
    pub(crate) fn exception(&self, number: u32) -> Option<&Exception>
        ensures { option_copied result ≡ slice_get self.now.exceptions number }
    {
        self.exceptions.as_slice().get(number as usize)
    }

    /// The entry of a table at a place, where there is one.
    pub(crate) fn entry(&self, table: u32, at: Slot) -> Option<Slot>
        ensures { result ≡ option_and_then (λ t. slice_get t.entries (number at)) (slice_get self.now.tables table) }
    {
        self.tables.as_slice().get(table as usize)?.get(at)
    }
}

/// The sizes of memories in pages, and then of tables in entries.
fn sizes(alloc: Global, memories: &[Memory], tables: &[Table]) -> Result<Items<usize>, AllocError>
    ensures { IfOk result (λ sizes. sizes ≡ map page_count memories.now ++ map (λ t. length t.entries) tables.now) }
{
    let mut sizes = Items::new(alloc);
    for memory in memories {
        sizes.push(memory.pages() as usize)?;
    }
    for table in tables {
        sizes.push(table.len() as usize)?;
    }
    Ok(sizes)
}
