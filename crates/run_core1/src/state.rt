ghost use Rattle.std.specs.Prelude.{◌≡◌, ℕ, ◌+◌, ◌*◌, ◌≤◌, ◌^◌, List, [], ◌∷◌, ◌++◌, length, map, replicate, slice_get, slice_index_or, true, Some, option_map, option_and_then, IfOk, OnOk};
ghost use Rattle.num_core.specs.Accesses.{load_bytes, load_width};
ghost use Rattle.num_core.specs.Bytes.{loaded, stored};
ghost use Rattle.evaluation_kit.specs.Leaves.{top, below, read_range, write_range};
ghost use Rattle.meaning_core1.specs.Store.{State1, Memory1, absent, value_of, by_store, by_growth, in_store, pages1, page_bytes, sizes1};
ghost use Rattle.meaning_core1.specs.Accesses.{get_global1, set_global1, load1, store1, size1, grow1, put_bytes, put_global};
ghost use Rattle.host_kit.specs.Trace.{Grown};
ghost use Rattle.run_core1.specs.Changes.{Does};
ghost use Rattle.run_core1.specs.Views.{mark_of};

use crate::change::Change;
use crate::little_endian::{load_bytes, load_width, loaded};
use crate::mark::Mark1;
use crate::memory::Memory;
use crate::slot::{ABSENT, Slot};
use crate::table::Table;
use core1_ast::module::MemArg1;
use evaluation_kit::Jump;
use host_kit::Reply;
use num_core::operators::{Load, Store};
use sqlite_items::Items;
use std::alloc::{AllocError, Global};
use std::marker::Model;

/// The state of a run: the globals, memories and tables, what the host has left to answer, and what the run has left
/// behind. Scripts are borrowed.
#[derive(Drop)]
pub struct State<'a> {
    pub(crate) alloc: Global,
    pub(crate) globals: Vec<Slot>,
    pub(crate) memories: Vec<Memory>,
    pub(crate) tables: Vec<Table>,
    pub(crate) replies: Vec<&'a [Reply]>,
    pub(crate) grows: &'a [bool],
    pub(crate) trace: Vec<Mark1>,
}

impl<'a> Model for State<'a> {
    ghost use Rattle.std.specs.Prelude.{map};
    ghost use Rattle.meaning_core1.specs.Store.{State1};
    ghost use Rattle.run_core1.specs.Views.{mark_of};

    ghost Value = { State1 };

    ghost view = { λ s. record {
      store = record { globals = s.globals.items; memories = s.memories.items; tables = s.tables.items };
      replies = map (λ r. r.now) s.replies.items;
      grows = s.grows.now;
      trace = map mark_of s.trace.items;
    } };
}

impl<'a> State<'a> {
    /// What the run has left behind.
    pub fn into_trace(self) -> Vec<Mark1>
        ensures { map mark_of result.items ≡ self.entry.trace }
    {
        let State { trace, .. } = self;
        trace
    }

    /// What global.get does (the standard's "Variable Instructions").
    pub fn global_get(&self, global: u32) -> Change
        ensures { Does (by_store (get_global1 global)) [] self.now result self.now }
    {
        Change::Put(0, self.global(global))
    }

    /// What global.set does (the standard's "Variable Instructions").
    pub fn global_set(&mut self, global: u32, top: Slot) -> Change
        ensures { Does (by_store (set_global1 global)) (top ∷ []) self.old result self.new }
    {
        self.put_global(global, top);
        Change::Take(1)
    }

    /// The value of a global, or 0 where there is none.
    pub(crate) fn global(&self, global: u32) -> Slot
        ensures { result ≡ slice_index_or self.now.store.globals global absent }
    {
        let value = self.globals.get(global as usize).copied();
        value.unwrap_or(ABSENT)
    }

    /// Sets a global, where it is there.
    pub(crate) fn put_global(&mut self, global: u32, value: Slot)
        ensures { self.new ≡ in_store (put_global global value self.old.store) self.old }
    {
        if let Some(place) = self.globals.get_mut(global as usize) {
            *place = value;
        }
    }

    /// What a load does: the address lies on the top (the standard's "Memory Instructions").
    pub fn load(&self, op: Load, at: MemArg1, top: Slot) -> Change
        ensures { Does (by_store (load1 op at)) (top ∷ []) self.now result self.now }
    {
        match self.loaded(op, at.offset, top.number()) {
            Some(value) => Change::Put(1, value),
            None => Change::Exit(0, Jump::Trap),
        }
    }

    /// What a store does: the value lies on the top, and the address below it (the standard's "Memory Instructions").
    pub fn store(&mut self, op: Store, at: MemArg1, top: Slot, next: Slot) -> Change
        ensures { Does (by_store (store1 op at)) (top ∷ next ∷ []) self.old result self.new }
    {
        let Some(memory) = self.memories.first_mut() else {
            return Change::Exit(0, Jump::Trap);
        };
        if memory.store(op, next.number(), at.offset, top.number()) {
            Change::Take(2)
        } else {
            Change::Exit(0, Jump::Trap)
        }
    }

    /// What memory.size does (the standard's "Memory Instructions").
    pub fn memory_size(&self) -> Change
        ensures { Does (by_store size1) [] self.now result self.now }
    {
        match self.memories.first() {
            Some(memory) => Change::Put(0, Slot::i32(memory.pages())),
            None => Change::Exit(0, Jump::Trap),
        }
    }

    /// What memory.grow does: it takes the next answer of the host's, and is told of in the trace (the standard's "Growing
    /// Memories"). It fails for want of memory alone, and what it then leaves is no state of the run.
    pub fn memory_grow(&mut self, top: Slot) -> Result<Change, AllocError>
        ensures { IfOk result (λ change. Does (by_growth grow1) (top ∷ []) self.old change self.new) }
    {
        let more = top.number();
        let Some(memory) = self.memories.first_mut() else {
            return Ok(Change::Exit(0, Jump::Trap));
        };
        let pages = memory.pages();
        let room = memory.has_room(more);
        let granted = self.next_answer();
        let grown = room && granted;
        if grown {
            self.add_pages(more)?;
        }
        self.tell_growth(grown)?;
        Ok(Change::Put(1, Slot::i32(if grown { pages } else { u32::MAX })))
    }

    /// The function that lies in the table at a place, where there is one.
    pub(crate) fn entry(&self, at: u64) -> Option<u32>
        ensures { result ≡ option_and_then (λ f. f) (option_and_then (λ entries. slice_get entries at) (slice_get self.now.store.tables 0)) }
    {
        self.tables.first()?.get(at)?
    }

    /// Takes the next answer of the host's to a growth: yes after their end.
    fn next_answer(&mut self) -> bool
        ensures answer { result ≡ top true self.old.grows }
        ensures rest { self.new ≡ record self.old { grows = below self.old.grows } }
    {
        match self.grows.split_first() {
            Some((first, rest)) => {
                self.grows = rest;
                *first
            }
            None => true,
        }
    }

    /// Adds so many pages to the memory.
    fn add_pages(&mut self, more: u64) -> Result<(), AllocError>
        requires { (m : Memory1) → slice_get self.old.store.memories 0 ≡ Some m → pages1 m + more ≤ 2 ^ 16 }
        ensures { OnOk result ((m : Memory1) → slice_get self.old.store.memories 0 ≡ Some m → self.new ≡ in_store (put_bytes 0 m (m.bytes ++ replicate (more * page_bytes) 0) self.old.store) self.old) }
    {
        match self.memories.first_mut() {
            Some(memory) => memory.grow(more),
            None => Ok(()),
        }
    }

    /// Tells of a growth, with the sizes after it.
    fn tell_growth(&mut self, grown: bool) -> Result<(), AllocError>
        ensures { OnOk result (self.new ≡ record self.old { trace = self.old.trace ++ Grown grown (sizes1 self.old.store) ∷ [] }) }
    {
        let sizes = sizes(self.alloc, self.memories.as_slice(), self.tables.as_slice())?;
        self.trace.push(Mark1::Grown(grown, sizes))?;
        Ok(())
    }

    /// The value that a load reads, or none where its bytes are not all inside.
    fn loaded(&self, op: Load, offset: u32, base: u64) -> Option<Slot>
        ensures { result ≡ option_and_then (λ m. option_map (λ bytes. value_of (load_width op) (loaded op bytes)) (read_range (base + offset) (load_bytes op) m.bytes)) (slice_get self.now.store.memories 0) }
    {
        let bytes = self.memories.first()?.read(base, offset, load_bytes(op))?;
        Some(Slot::of_width(load_width(op), loaded(op, bytes)))
    }
}

/// The sizes of memories in pages, and then of tables in entries.
fn sizes(alloc: Global, memories: &[Memory], tables: &[Table]) -> Result<Items<usize>, AllocError>
    ensures { IfOk result (λ sizes. sizes ≡ map pages1 memories.now ++ map length tables.now) }
{
    let mut sizes = Items::new(alloc);
    for memory in memories {
        sizes.push(memory.pages() as usize)?;
    }
    for table in tables {
        sizes.push(table.len())?;
    }
    Ok(sizes)
}
