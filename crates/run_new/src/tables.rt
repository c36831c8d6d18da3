// Instructions on tables (the standard's "Table Instructions").
ghost use Rattle.meaning_new.specs.declared.val.Val.{Val};
ghost use Rattle.std.specs.Prelude.{◌≡◌, List, [], ◌∷◌, set, slice_index_or, IfOk, Some, None, false, if◌then◌else◌};
ghost use Rattle.evaluation_kit.specs.Leaves.{below};
ghost use Rattle.run_kit.specs.Changes.{Lie};
ghost use Rattle.meaning_new.specs.Store.{on_store, missing};
ghost use Rattle.meaning_new.specs.Tables.{table_get, table_set, table_size, table_fill, table_copy, table_init, elem_drop};
ghost use Rattle.run_new.specs.Leaves.{DoesInStore};

use crate::slot::Slot;
use crate::store::Store;
use crate::values::fits_or_trap;
use evaluation_kit::Jump;
use run_kit::{Change, read_range};
use sqlite_items::Items;
use std::alloc::AllocError;

impl<'a> Store<'a> {
    /// What table.get does: the place lies on the top.
    pub fn table_get(&self, table: u32, top: Slot) -> Change<Slot>
        ensures { DoesInStore (on_store (table_get table)) (top ∷ []) self.now result self.now }
    {
        match self.entry(table, top) {
            Some(value) => Change::Put(1, value),
            None => Change::Exit(0, Jump::Trap),
        }
    }

    /// What table.set does: the reference lies on the top, and the place below it.
    pub fn table_set(&mut self, table: u32, top: Slot, next: Slot) -> Change<Slot>
        ensures { DoesInStore (on_store (table_set table)) (top ∷ next ∷ []) self.old result self.new }
    {
        fits_or_trap(self.put_entry(table, top, next), 2)
    }

    /// Does table.set where the place is inside, and says whether it is; else nothing changes.
    fn put_entry(&mut self, table: u32, top: Slot, next: Slot) -> bool
        ensures outcome { (operands : List Val) → Lie missing (top ∷ next ∷ []) operands → table_set table operands self.old ≡ (if result then Some (below (below operands), self.new) else None) }
        ensures kept { result ≡ false → self.new ≡ self.old }
    {
        let Some(table) = self.tables.get_mut(table as usize) else {
            return false;
        };
        table.write(next, &[top])
    }

    /// What table.size does.
    pub fn table_size(&self, table: u32) -> Change<Slot>
        ensures { DoesInStore (on_store (table_size table)) [] self.now result self.now }
    {
        match self.tables.as_slice().get(table as usize) {
            Some(table) => Change::Put(0, Slot::i32(table.len())),
            None => Change::Exit(0, Jump::Trap),
        }
    }

    /// What table.fill does: how many entries, the reference and the place, from the top.
    pub fn table_fill(&mut self, table: u32, top: Slot, next: Slot, third: Slot) -> Change<Slot>
        ensures { DoesInStore (on_store (table_fill table)) (top ∷ next ∷ third ∷ []) self.old result self.new }
    {
        fits_or_trap(self.fill_table(table, top, next, third), 3)
    }

    /// Does table.fill where the range is inside, and says whether it is; else nothing changes.
    fn fill_table(&mut self, table: u32, top: Slot, next: Slot, third: Slot) -> bool
        ensures outcome { (operands : List Val) → Lie missing (top ∷ next ∷ third ∷ []) operands → table_fill table operands self.old ≡ (if result then Some (below (below (below operands)), self.new) else None) }
        ensures kept { result ≡ false → self.new ≡ self.old }
    {
        let Some(table) = self.tables.get_mut(table as usize) else {
            return false;
        };
        table.fill(third, top, next)
    }

    /// What table.copy does: how many entries, the source and the destination, from the top. It fails for want of memory
    /// alone.
    pub fn table_copy(
        &mut self,
        to: u32,
        from: u32,
        top: Slot,
        next: Slot,
        third: Slot,
    ) -> Result<Change<Slot>, AllocError>
        ensures { IfOk result (λ change. DoesInStore (on_store (table_copy to from)) (top ∷ next ∷ third ∷ []) self.old change self.new) }
    {
        if to == from {
            Ok(self.copy_in_table(to, top, next, third))
        } else {
            self.copy_across_tables(to, from, top, next, third)
        }
    }

    /// table.copy within one table.
    fn copy_in_table(&mut self, table: u32, top: Slot, next: Slot, third: Slot) -> Change<Slot>
        ensures { DoesInStore (on_store (table_copy table table)) (top ∷ next ∷ third ∷ []) self.old result self.new }
    {
        fits_or_trap(self.copied_in_table(table, top, next, third), 3)
    }

    /// Does it where the ranges are inside, and says whether they are; else nothing changes.
    fn copied_in_table(&mut self, table: u32, top: Slot, next: Slot, third: Slot) -> bool
        ensures outcome { (operands : List Val) → Lie missing (top ∷ next ∷ third ∷ []) operands → table_copy table table operands self.old ≡ (if result then Some (below (below (below operands)), self.new) else None) }
        ensures kept { result ≡ false → self.new ≡ self.old }
    {
        let Some(table) = self.tables.get_mut(table as usize) else {
            return false;
        };
        table.copy(third, next, top)
    }

    /// table.copy from one table to another.
    fn copy_across_tables(
        &mut self,
        to: u32,
        from: u32,
        top: Slot,
        next: Slot,
        third: Slot,
    ) -> Result<Change<Slot>, AllocError>
        ensures { IfOk result (λ change. DoesInStore (on_store (table_copy to from)) (top ∷ next ∷ third ∷ []) self.old change self.new) }
    {
        let fits = self.copied_across_tables(to, from, top, next, third)?;
        Ok(fits_or_trap(fits, 3))
    }

    /// Does it where the ranges are inside, and says whether they are; else nothing changes.
    fn copied_across_tables(
        &mut self,
        to: u32,
        from: u32,
        top: Slot,
        next: Slot,
        third: Slot,
    ) -> Result<bool, AllocError>
        ensures outcome { IfOk result (λ fits. (operands : List Val) → Lie missing (top ∷ next ∷ third ∷ []) operands → table_copy to from operands self.old ≡ (if fits then Some (below (below (below operands)), self.new) else None)) }
        ensures kept { IfOk result (λ fits. fits ≡ false → self.new ≡ self.old) }
    {
        let Some(source) = self.tables.as_slice().get(from as usize) else {
            return Ok(false);
        };
        let Some(range) = source.range(next, top) else {
            return Ok(false);
        };
        let entries = Vec::from_slice(self.alloc, range)?;
        let Some(table) = self.tables.get_mut(to as usize) else {
            return Ok(false);
        };
        Ok(table.write(third, entries.as_slice()))
    }

    /// What table.init does: how many entries, where they begin in the segment, and the destination, from the top.
    pub fn table_init(
        &mut self,
        segment: u32,
        table: u32,
        top: Slot,
        next: Slot,
        third: Slot,
    ) -> Change<Slot>
        ensures { DoesInStore (on_store (table_init segment table)) (top ∷ next ∷ third ∷ []) self.old result self.new }
    {
        fits_or_trap(self.init_table(segment, table, top, next, third), 3)
    }

    /// Does table.init where the ranges are inside, and says whether they are; else nothing changes.
    pub(crate) fn init_table(
        &mut self,
        segment: u32,
        table: u32,
        top: Slot,
        next: Slot,
        third: Slot,
    ) -> bool
        ensures outcome { (operands : List Val) → Lie missing (top ∷ next ∷ third ∷ []) operands → table_init segment table operands self.old ≡ (if result then Some (below (below (below operands)), self.new) else None) }
        ensures kept { result ≡ false → self.new ≡ self.old }
    {
        let entries = segment_entries(self.elems.as_slice(), segment);
        let Some(range) = read_range(entries, next.number(), 0, top.number()) else {
            return false;
        };
        let Some(table) = self.tables.get_mut(table as usize) else {
            return false;
        };
        table.write(third, range)
    }

    /// What elem.drop does.
    pub fn elem_drop(&mut self, segment: u32) -> Change<Slot>
        ensures { DoesInStore (on_store (elem_drop segment)) [] self.old result self.new }
    {
        self.drop_elem(segment);
        Change::Take(0)
    }

    /// Drops the references of an element segment.
    pub(crate) fn drop_elem(&mut self, segment: u32)
        ensures { self.new ≡ record self.old { elems = set self.old.elems segment [] } }
    {
        if let Some(place) = self.elems.get_mut(segment as usize) {
            *place = Items::new(self.alloc);
        }
    }
}

/// The references that an element segment still has.
fn segment_entries(elems: &[Items<Slot>], segment: u32) -> &[Slot]
    ensures { result.now ≡ slice_index_or elems.now segment [] }
{
    match elems.get(segment as usize) {
        Some(entries) => entries.as_slice(),
        None => &[],
    }
}
