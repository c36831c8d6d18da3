ghost use Rattle.std.specs.Prelude.{◌≡◌, ℕ, ◌+◌, ◌*◌, ◌/◌, ◌≤◌, ◌<◌, ◌^◌, ◌++◌, replicate, length, nat_le, option_map, IfOk, OnOk, OnErr, MatchOption, if◌then◌else◌, Some, None};
ghost use Rattle.num_core.specs.Bytes.{stored};
ghost use Rattle.evaluation_kit.specs.Leaves.{read_range, write_range};
ghost use Rattle.meaning_core1.specs.Store.{pages1, page_bytes};
ghost use Rattle.meaning_core1.specs.Accesses.{page_limit};
ghost use Rattle.meaning_core1.specs.Instances.{zero_memory, overwritten};

use crate::little_endian::store_bytes;
use core1_ast::module::Limits1;
use num_core::operators::Store;
use std::alloc::{AllocError, Global};
use std::marker::Model;

/// How many bytes a page has.
const PAGE_BYTES: usize = 65_536;

/// A memory of 1.0: its bytes, and the greatest number of pages, if there is one (the standard's "Memory Instances").
#[derive(Drop)]
pub struct Memory {
    bytes: Vec<u8>,
    max: Option<u32>,
}

impl Model for Memory {
    ghost use Rattle.std.specs.Prelude.{◌<◌, ◌^◌, vec_len};
    ghost use Rattle.meaning_core1.specs.Store.{Memory1};

    ghost Value = { Memory1 };

    ghost view = { λ m. record { bytes = m.bytes.items; max = m.max } };

    ghost invariant = { λ m. vec_len m.bytes < 2 ^ 48 };
}

impl Memory {
    /// A memory of zeros at its least size. It fails for want of memory alone.
    pub fn new(alloc: Global, limits: &Limits1) -> Result<Memory, AllocError>
        ensures { IfOk result (λ memory. memory ≡ zero_memory limits.now) }
    {
        let mut bytes = Vec::new(alloc);
        bytes.resize(limits.min as usize * PAGE_BYTES, 0)?;
        Ok(Memory {
            bytes,
            max: limits.max,
        })
    }

    /// Its size in pages.
    pub fn pages(&self) -> u32
        ensures { result ≡ pages1 self.now }
    {
        (self.bytes.len() / PAGE_BYTES) as u32
    }

    /// How many bytes it has.
    pub fn len(&self) -> usize
        ensures { result ≡ length self.now.bytes }
    {
        self.bytes.len()
    }

    /// Whether it may grow by so many pages: to 2^16 pages, or to its greatest size where that is less (the standard's
    /// "Growing Memories").
    pub fn has_room(&self, more: u64) -> bool
        ensures { result ≡ nat_le (pages1 self.now + more) (page_limit self.now.max) }
    {
        let limit = self.max.map_or(1 << 16, |max| max.min(1 << 16));
        more <= u64::from(limit) && u64::from(self.pages()) + more <= u64::from(limit)
    }

    /// Adds so many pages of zeros. For want of memory nothing changes.
    pub fn grow(&mut self, more: u64) -> Result<(), AllocError>
        requires { pages1 self.old + more ≤ 2 ^ 16 }
        ensures ok { OnOk result (self.new ≡ record self.old { bytes = self.old.bytes ++ replicate (more * page_bytes) 0 }) }
        ensures err { OnErr result (self.new ≡ self.old) }
    {
        let bytes = self.bytes.len() + more as usize * PAGE_BYTES;
        self.bytes.resize(bytes, 0)
    }

    /// So many bytes from an address on, or none where they are not all inside.
    pub fn read(&self, base: u64, offset: u32, count: usize) -> Option<&[u8]>
        ensures { option_map (λ bytes. bytes.now) result ≡ read_range (base + offset) count self.now.bytes }
    {
        let at = place(self.bytes.len(), base, offset, count)?;
        Some(&self.bytes[at..at + count])
    }

    /// Writes bytes from an address on, and says whether they are all inside; else nothing changes.
    pub fn write(&mut self, base: u64, offset: u32, bytes: &[u8]) -> bool
        ensures range { write_range (base + offset) bytes.now self.old.bytes ≡ (if result then Some self.new.bytes else None) }
        ensures rest { self.new ≡ (if result then record self.old { bytes = self.new.bytes } else self.old) }
    {
        match place(self.bytes.len(), base, offset, bytes.len()) {
            Some(at) => {
                self.bytes[at..at + bytes.len()].copy_from_slice(bytes);
                true
            }
            None => false,
        }
    }

    /// Writes bytes over those from an address on.
    pub fn overwrite(&mut self, at: usize, bytes: &[u8])
        requires { at + length bytes.now ≤ length self.old.bytes }
        ensures { self.new ≡ record self.old { bytes = overwritten at bytes.now self.old.bytes } }
    {
        self.bytes[at..at + bytes.len()].copy_from_slice(bytes);
    }

    /// Writes the lowest bytes of an integer, as a store does, and says whether they are all inside; else nothing
    /// changes.
    pub fn store(&mut self, op: Store, base: u64, offset: u32, value: u64) -> bool
        ensures range { write_range (base + offset) (stored op value) self.old.bytes ≡ (if result then Some self.new.bytes else None) }
        ensures rest { self.new ≡ (if result then record self.old { bytes = self.new.bytes } else self.old) }
    {
        let bytes = value.to_le_bytes();
        self.write(base, offset, &bytes[..store_bytes(op)])
    }
}

/// The index at which so many items begin, or none where they are not all inside a list of this length.
fn place(length: usize, base: u64, offset: u32, count: usize) -> Option<usize>
    ensures { MatchOption result (length < (base + offset) + count) (λ at. (at ≡ base + offset) × (at + count ≤ length)) }
{
    let at = usize::try_from(base.checked_add(offset.into())?).ok()?;
    let end = at.checked_add(count)?;
    if end <= length { Some(at) } else { None }
}
