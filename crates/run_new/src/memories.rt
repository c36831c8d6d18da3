// Instructions on memories (the standard's "Memory Instructions").
ghost use Rattle.meaning_new.specs.declared.val.Val.{Val};
ghost use Rattle.std.specs.Prelude.{◌≡◌, ◌+◌, List, [], ◌∷◌, map, set, slice_get, slice_index_or, option_map, option_and_then, IfOk, Some, None, false, if◌then◌else◌};
ghost use Rattle.num_core.specs.Accesses.{load_bytes, load_width};
ghost use Rattle.num_core.specs.Bytes.{loaded};
ghost use Rattle.evaluation_kit.specs.Leaves.{below, read_range};
ghost use Rattle.meaning_new.specs.Store.{on_store, int, missing, number};
ghost use Rattle.run_kit.specs.Changes.{Lie};
ghost use Rattle.meaning_new.specs.Memories.{load_integer, store_integer, memory_size, memory_fill, memory_copy, memory_init, data_drop};
ghost use Rattle.run_new.specs.Leaves.{DoesInStore};

use crate::slot::Slot;
use crate::store::Store;
use crate::values::fits_or_trap;
use evaluation_kit::Jump;
use num_core::operators as num;
use num_core::operators::Load;
use run_kit::{Change, load_bytes, load_width, loaded, read_range};
use std::alloc::AllocError;
use wasm_ast::module::MemArg;

/// No bytes.
fn no_bytes<'a>() -> &'a [u8]
    ensures { result.now ≡ [] }
{
    &[]
}

impl<'a> Store<'a> {
    /// What a load of an integer does: the address lies on the top.
    pub fn load(&self, op: Load, at: MemArg, top: Slot) -> Change<Slot>
        ensures { DoesInStore (on_store (load_integer op at)) (top ∷ []) self.now result self.now }
    {
        match self.loaded(op, at, top) {
            Some(value) => Change::Put(1, value),
            None => Change::Exit(0, Jump::Trap),
        }
    }

    /// The value that a load reads, or none where its bytes are not all inside.
    fn loaded(&self, op: Load, at: MemArg, base: Slot) -> Option<Slot>
        ensures { result ≡ option_and_then (λ m. option_map (λ bytes. int (load_width op) (loaded op bytes)) (read_range (number base + at.offset) (load_bytes op) m.bytes)) (slice_get self.now.memories at.memory) }
    {
        let memory = self.memories.as_slice().get(at.memory as usize)?;
        let bytes = memory.read(base, at.offset, load_bytes(op))?;
        Some(Slot::of_width(load_width(op), loaded(op, bytes)))
    }

    /// What a store of an integer does: the value lies on the top, and the address below it.
    pub fn store(&mut self, op: num::Store, at: MemArg, top: Slot, next: Slot) -> Change<Slot>
        ensures { DoesInStore (on_store (store_integer op at)) (top ∷ next ∷ []) self.old result self.new }
    {
        fits_or_trap(self.put_integer(op, at, top, next), 2)
    }

    /// Does a store where the bytes are inside, and says whether they are; else nothing changes.
    fn put_integer(&mut self, op: num::Store, at: MemArg, top: Slot, next: Slot) -> bool
        ensures outcome { (operands : List Val) → Lie missing (top ∷ next ∷ []) operands → store_integer op at operands self.old ≡ (if result then Some (below (below operands), self.new) else None) }
        ensures kept { result ≡ false → self.new ≡ self.old }
    {
        let Some(memory) = self.memories.get_mut(at.memory as usize) else {
            return false;
        };
        memory.store(op, next, at.offset, top)
    }

    /// What memory.size does.
    pub fn memory_size(&self, memory: u32) -> Change<Slot>
        ensures { DoesInStore (on_store (memory_size memory)) [] self.now result self.now }
    {
        match self.memories.as_slice().get(memory as usize) {
            Some(memory) => Change::Put(0, memory.size()),
            None => Change::Exit(0, Jump::Trap),
        }
    }

    /// What memory.fill does: how many bytes, the byte and the address, from the top.
    pub fn memory_fill(&mut self, memory: u32, top: Slot, next: Slot, third: Slot) -> Change<Slot>
        ensures { DoesInStore (on_store (memory_fill memory)) (top ∷ next ∷ third ∷ []) self.old result self.new }
    {
        fits_or_trap(self.fill_memory(memory, top, next, third), 3)
    }

    /// Does memory.fill where the range is inside, and says whether it is; else nothing changes.
    fn fill_memory(&mut self, memory: u32, top: Slot, next: Slot, third: Slot) -> bool
        ensures outcome { (operands : List Val) → Lie missing (top ∷ next ∷ third ∷ []) operands → memory_fill memory operands self.old ≡ (if result then Some (below (below (below operands)), self.new) else None) }
        ensures kept { result ≡ false → self.new ≡ self.old }
    {
        let Some(memory) = self.memories.get_mut(memory as usize) else {
            return false;
        };
        let byte = (next.number() % 0x100) as u8;
        memory.fill(third, top, byte)
    }

    /// What memory.copy does: how many bytes, the source and the destination, from the top. It fails for want of memory
    /// alone.
    pub fn memory_copy(
        &mut self,
        to: u32,
        from: u32,
        top: Slot,
        next: Slot,
        third: Slot,
    ) -> Result<Change<Slot>, AllocError>
        ensures { IfOk result (λ change. DoesInStore (on_store (memory_copy to from)) (top ∷ next ∷ third ∷ []) self.old change self.new) }
    {
        if to == from {
            Ok(self.copy_inside(to, top, next, third))
        } else {
            self.copy_across(to, from, top, next, third)
        }
    }

    /// memory.copy within one memory.
    fn copy_inside(&mut self, memory: u32, top: Slot, next: Slot, third: Slot) -> Change<Slot>
        ensures { DoesInStore (on_store (memory_copy memory memory)) (top ∷ next ∷ third ∷ []) self.old result self.new }
    {
        fits_or_trap(self.copied_inside(memory, top, next, third), 3)
    }

    /// Does it where the ranges are inside, and says whether they are; else nothing changes.
    fn copied_inside(&mut self, memory: u32, top: Slot, next: Slot, third: Slot) -> bool
        ensures outcome { (operands : List Val) → Lie missing (top ∷ next ∷ third ∷ []) operands → memory_copy memory memory operands self.old ≡ (if result then Some (below (below (below operands)), self.new) else None) }
        ensures kept { result ≡ false → self.new ≡ self.old }
    {
        let Some(memory) = self.memories.get_mut(memory as usize) else {
            return false;
        };
        memory.copy(third, next, top)
    }

    /// memory.copy from one memory to another.
    fn copy_across(
        &mut self,
        to: u32,
        from: u32,
        top: Slot,
        next: Slot,
        third: Slot,
    ) -> Result<Change<Slot>, AllocError>
        ensures { IfOk result (λ change. DoesInStore (on_store (memory_copy to from)) (top ∷ next ∷ third ∷ []) self.old change self.new) }
    {
        let fits = self.copied_across(to, from, top, next, third)?;
        Ok(fits_or_trap(fits, 3))
    }

    /// Does it where the ranges are inside, and says whether they are; else nothing changes.
    fn copied_across(
        &mut self,
        to: u32,
        from: u32,
        top: Slot,
        next: Slot,
        third: Slot,
    ) -> Result<bool, AllocError>
        ensures outcome { IfOk result (λ fits. (operands : List Val) → Lie missing (top ∷ next ∷ third ∷ []) operands → memory_copy to from operands self.old ≡ (if fits then Some (below (below (below operands)), self.new) else None)) }
        ensures kept { IfOk result (λ fits. fits ≡ false → self.new ≡ self.old) }
    {
        let Some(source) = self.memories.as_slice().get(from as usize) else {
            return Ok(false);
        };
        let Some(range) = source.range(next, top) else {
            return Ok(false);
        };
        let bytes = Vec::from_slice(self.alloc, range)?;
        let Some(memory) = self.memories.get_mut(to as usize) else {
            return Ok(false);
        };
        Ok(memory.put(third, bytes.as_slice()))
    }

    /// What memory.init does: how many bytes, where they begin in the segment, and the destination, from the top.
    pub fn memory_init(
        &mut self,
        segment: u32,
        memory: u32,
        top: Slot,
        next: Slot,
        third: Slot,
    ) -> Change<Slot>
        ensures { DoesInStore (on_store (memory_init segment memory)) (top ∷ next ∷ third ∷ []) self.old result self.new }
    {
        fits_or_trap(self.init_memory(segment, memory, top, next, third), 3)
    }

    /// Does memory.init where the ranges are inside, and says whether they are; else nothing changes.
    pub(crate) fn init_memory(
        &mut self,
        segment: u32,
        memory: u32,
        top: Slot,
        next: Slot,
        third: Slot,
    ) -> bool
        ensures outcome { (operands : List Val) → Lie missing (top ∷ next ∷ third ∷ []) operands → memory_init segment memory operands self.old ≡ (if result then Some (below (below (below operands)), self.new) else None) }
        ensures kept { result ≡ false → self.new ≡ self.old }
    {
        let data = segment_bytes(self.datas.as_slice(), segment);
        let Some(range) = read_range(data, next.number(), 0, top.number()) else {
            return false;
        };
        let Some(memory) = self.memories.get_mut(memory as usize) else {
            return false;
        };
        memory.put(third, range)
    }

    /// What data.drop does.
    pub fn data_drop(&mut self, segment: u32) -> Change<Slot>
        ensures { DoesInStore (on_store (data_drop segment)) [] self.old result self.new }
    {
        self.drop_data(segment);
        Change::Take(0)
    }

    /// Drops the bytes of a data segment.
    pub(crate) fn drop_data(&mut self, segment: u32)
        ensures { self.new ≡ record self.old { datas = set self.old.datas segment [] } }
    {
        drop_bytes(self.datas.as_mut_slice(), segment as usize);
    }
}

/// Drops the bytes at a place, where there is one.
fn drop_bytes<'a>(datas: &mut [&'a [u8]], place: usize)
    ensures { map (λ d. d.now) datas.new ≡ set (map (λ d. d.now) datas.old) place [] }
{
    if place >= datas.len() {
        return;
    }
    datas[place] = no_bytes();
}

/// The bytes that a data segment still has.
fn segment_bytes<'a>(datas: &[&'a [u8]], segment: u32) -> &'a [u8]
    ensures { result.now ≡ slice_index_or (map (λ d. d.now) datas.now) segment [] }
{
    let Some(data) = bytes_at(datas, segment as usize) else {
        return no_bytes();
    };
    data
}

/// The bytes of the data segment at a place.
fn bytes_at<'a>(datas: &[&'a [u8]], place: usize) -> Option<&'a [u8]>
    ensures { option_map (λ d. d.now) result ≡ slice_get (map (λ d. d.now) datas.now) place }
{
    datas.get(place).copied()
}
