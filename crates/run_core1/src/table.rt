ghost use Rattle.std.specs.Prelude.{◌≡◌, ℕ, ◌+◌, ◌≤◌, List, map, Some, length, slice_get, IfOk};
ghost use Rattle.meaning_core1.specs.Instances.{empty_table, overwritten};

use core1_ast::module::Limits1;
use std::alloc::{AllocError, Global};
use std::marker::Model;

/// A table of 1.0: functions by their indices, of which some may be missing (the standard's "Table Instances").
#[derive(Drop)]
pub struct Table {
    entries: Vec<Option<u32>>,
}

impl Model for Table {
    ghost use Rattle.std.specs.Prelude.{List, ℕ, Option};

    ghost Value = { List (Option ℕ) };

    ghost view = { λ t. t.entries.items };
}

impl Table {
    /// A table without functions at its least size. It fails for want of memory alone.
    pub fn new(alloc: Global, limits: &Limits1) -> Result<Table, AllocError>
        ensures { IfOk result (λ table. table ≡ empty_table limits.now) }
    {
        let mut entries = Vec::new(alloc);
        entries.resize(limits.min as usize, None)?;
        Ok(Table { entries })
    }

    /// How many entries it has.
    pub fn len(&self) -> usize
        ensures { result ≡ length self.now }
    {
        self.entries.len()
    }

    /// The entry at a place, where there is one.
    pub fn get(&self, at: u64) -> Option<Option<u32>>
        ensures { result ≡ slice_get self.now at }
    {
        self.entries.get(usize::try_from(at).ok()?).copied()
    }

    /// Writes functions over the entries from a place on.
    pub fn write(&mut self, at: usize, funcs: &[u32])
        requires { at + length funcs.now ≤ length self.old }
        ensures { self.new ≡ overwritten at (map (λ f. Some f) funcs.now) self.old }
    {
        write_entries(self.entries.as_mut_slice(), at, funcs);
    }
}

/// Writes functions over the entries from a place on.
fn write_entries(entries: &mut [Option<u32>], at: usize, funcs: &[u32])
    requires { at + length funcs.now ≤ length entries.old }
    ensures { entries.new ≡ overwritten at (map (λ f. Some f) funcs.now) entries.old }
{
    for (place, func) in funcs.iter().enumerate() {
        entries[at + place] = Some(*func);
    }
}
