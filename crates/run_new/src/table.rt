ghost use Rattle.std.specs.Prelude.{◌≡◌, ◌+◌, ◌<◌, ◌^◌, [], ◌∷◌, ◌++◌, replicate, length, nat_le, slice_get, option_map, option_and_then, IfOk, OnOk, OnErr, if◌then◌else◌, Some, None};
ghost use Rattle.evaluation_kit.specs.Leaves.{read_range, write_range};
ghost use Rattle.meaning_new.specs.Store.{number};
ghost use Rattle.meaning_new.specs.Tables.{most_entries};
ghost use Rattle.meaning_new.specs.Instances.{new_table};

use crate::slot::Slot;
use run_kit::{copy_range, fill_range, read_range, write_range};
use std::alloc::{AllocError, Global};
use std::marker::Model;
use wasm_ast::module::Limits;

/// A table: its references, and their greatest number, if there is one (the standard's "Table Instances").
#[derive(Drop)]
pub struct Table {
    entries: Vec<Slot>,
    max: Option<u64>,
}

impl Model for Table {
    ghost use Rattle.std.specs.Prelude.{◌<◌, ◌^◌, vec_len};
    ghost use Rattle.meaning_new.specs.Store.{Table};

    ghost Value = { Table };

    ghost view = { λ t. record { entries = t.entries.items; max = t.max } };

    ghost invariant = { λ t. vec_len t.entries < 2 ^ 32 };
}

impl Table {
    /// A table of one reference at its least size. It fails for want of memory alone, which no machine finds for 2^32
    /// references.
    pub fn new(alloc: Global, reference: Slot, limits: Limits) -> Result<Table, AllocError>
        ensures { IfOk result (λ table. table ≡ new_table reference limits) }
    {
        let mut entries = Vec::new(alloc);
        if limits.min > u64::from(u32::MAX) {
            return Err(AllocError);
        }
        entries.resize(limits.min as usize, reference)?;
        Ok(Table {
            entries,
            max: limits.max,
        })
    }

    /// How many entries it has.
    pub fn len(&self) -> u32
        ensures { result ≡ length self.now.entries }
    {
        self.entries.len() as u32
    }

    /// Whether it may grow by so many entries (the standard's "Growing Tables").
    pub fn has_room(&self, more: u128) -> bool
        ensures { result ≡ nat_le (length self.now.entries + more) (most_entries self.now.max) }
    {
        let limit = self.max.unwrap_or(u64::from(u32::MAX));
        more <= limit.into() && u128::from(self.len()) + more <= limit.into()
    }

    /// Adds so many entries. It fails for want of memory alone, and then nothing changes.
    pub fn grow(&mut self, more: u128, reference: Slot) -> Result<(), AllocError>
        ensures ok { OnOk result (self.new ≡ record self.old { entries = self.old.entries ++ replicate more reference }) }
        ensures err { OnErr result (self.new ≡ self.old) }
    {
        if more > u32::MAX.into() {
            return Err(AllocError);
        }
        let entries = self.entries.len() as u64 + more as u64;
        if entries > u64::from(u32::MAX) {
            return Err(AllocError);
        }
        self.entries.resize(entries as usize, reference)
    }

    /// The entry at a place, where there is one.
    pub fn get(&self, at: Slot) -> Option<Slot>
        ensures { result ≡ slice_get self.now.entries (number at) }
    {
        self.entries
            .get(usize::try_from(at.number()).ok()?)
            .copied()
    }

    /// So many entries from a place on, or none where they are not all inside.
    pub fn range(&self, from: Slot, count: Slot) -> Option<&[Slot]>
        ensures { option_map (λ entries. entries.now) result ≡ read_range (number from) (number count) self.now.entries }
    {
        read_range(self.entries.as_slice(), from.number(), 0, count.number())
    }

    /// Writes references over the entries from a place on, and says whether they are all inside; else nothing changes.
    pub fn write(&mut self, to: Slot, references: &[Slot]) -> bool
        ensures range { write_range (number to) references.now self.old.entries ≡ (if result then Some self.new.entries else None) }
        ensures rest { self.new ≡ (if result then record self.old { entries = self.new.entries } else self.old) }
    {
        write_range(self.entries.as_mut_slice(), to.number(), 0, references)
    }

    /// Writes a reference over so many entries, and says whether they are all inside; else nothing changes.
    pub fn fill(&mut self, to: Slot, count: Slot, reference: Slot) -> bool
        ensures range { write_range (number to) (replicate (number count) reference) self.old.entries ≡ (if result then Some self.new.entries else None) }
        ensures rest { self.new ≡ (if result then record self.old { entries = self.new.entries } else self.old) }
    {
        fill_range(
            self.entries.as_mut_slice(),
            to.number(),
            count.number(),
            reference,
        )
    }

    /// Copies so many entries from one place to another, and says whether both ranges are inside; else nothing changes.
    pub fn copy(&mut self, to: Slot, from: Slot, count: Slot) -> bool
        ensures range { option_and_then (λ entries. write_range (number to) entries self.old.entries) (read_range (number from) (number count) self.old.entries) ≡ (if result then Some self.new.entries else None) }
        ensures rest { self.new ≡ (if result then record self.old { entries = self.new.entries } else self.old) }
    {
        copy_range(
            self.entries.as_mut_slice(),
            to.number(),
            from.number(),
            count.number(),
        )
    }
}
