// memory.grow and table.grow (the standard's "Growing Memories" and "Growing Tables").
ghost use Rattle.std.specs.Prelude.{◌≡◌, List, [], ◌∷◌, IfOk, OnOk, Some, slice_get, set};
ghost use Rattle.meaning_new.specs.declared.val.Val.{Val};
ghost use Rattle.meaning_new.specs.Store.{Memory, Table, number, on_growth};
ghost use Rattle.meaning_new.specs.Memories.{memory_grow, larger_memory};
ghost use Rattle.meaning_new.specs.Tables.{table_grow, larger_table};
ghost use Rattle.run_new.specs.Leaves.{Does};
ghost use Rattle.run_new.specs.States.{whole};

use crate::slot::Slot;
use crate::state::State;
use crate::store::Store;
use evaluation_kit::Jump;
use run_kit::Change;
use std::alloc::AllocError;

impl<'a> State<'a> {
    /// What memory.grow does: it takes the next answer of the host's, and is told of. It fails for want of memory alone,
    /// and what it then leaves is no state of the run.
    pub fn memory_grow(&mut self, memory: u32, top: Slot) -> Result<Change<Slot>, AllocError>
        ensures { IfOk result (λ change. Does (on_growth (memory_grow memory)) (top ∷ []) (whole self.old) change (whole self.new)) }
    {
        let more = top.number();
        let Some(place) = self.store.memories.as_slice().get(memory as usize) else {
            return Ok(Change::Exit(0, Jump::Trap));
        };
        let size = place.size();
        let failed = place.all_ones();
        let room = place.has_room(more);
        let granted = self.next_answer();
        let grown = room && granted;
        if grown {
            self.store.add_pages(memory, more)?;
        }
        self.tell_growth(grown)?;
        Ok(Change::Put(1, if grown { size } else { failed }))
    }

    /// What table.grow does: how many entries lie on the top, and the reference below. It takes the next answer of the
    /// host's, and is told of. It fails for want of memory alone, and what it then leaves is no state of the run.
    pub fn table_grow(
        &mut self,
        table: u32,
        top: Slot,
        next: Slot,
    ) -> Result<Change<Slot>, AllocError>
        ensures { IfOk result (λ change. Does (on_growth (table_grow table)) (top ∷ next ∷ []) (whole self.old) change (whole self.new)) }
    {
        let more = top.number();
        let Some(place) = self.store.tables.as_slice().get(table as usize) else {
            return Ok(Change::Exit(0, Jump::Trap));
        };
        let size = place.len();
        let room = place.has_room(more);
        let granted = self.next_answer();
        let grown = room && granted;
        if grown {
            self.store.add_entries(table, more, next)?;
        }
        self.tell_growth(grown)?;
        Ok(Change::Put(2, Slot::i32(if grown { size } else { u32::MAX })))
    }
}

impl<'a> Store<'a> {
    /// Adds so many pages to a memory. It fails for want of memory alone.
    fn add_pages(&mut self, memory: u32, more: u128) -> Result<(), AllocError>
        ensures { OnOk result ((m : Memory) → slice_get self.old.memories memory ≡ Some m → self.new ≡ larger_memory memory m more self.old) }
    {
        match self.memories.get_mut(memory as usize) {
            Some(memory) => memory.grow(more),
            None => Ok(()),
        }
    }

    /// Adds so many entries to a table. It fails for want of memory alone.
    fn add_entries(&mut self, table: u32, more: u128, reference: Slot) -> Result<(), AllocError>
        ensures { OnOk result ((t : Table) → slice_get self.old.tables table ≡ Some t → self.new ≡ larger_table table t more reference self.old) }
    {
        match self.tables.get_mut(table as usize) {
            Some(table) => table.grow(more, reference),
            None => Ok(()),
        }
    }
}
