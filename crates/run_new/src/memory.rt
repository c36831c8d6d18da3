ghost use Rattle.std.specs.Prelude.{◌≡◌, ◌+◌, ◌-◌, ◌*◌, ◌≤◌, ◌<◌, ◌^◌, ◌++◌, replicate, length, nat_le, option_map, option_and_then, IfOk, OnOk, OnErr, if◌then◌else◌, Some, None};
ghost use Rattle.num_core.specs.Bytes.{stored};
ghost use Rattle.evaluation_kit.specs.Leaves.{read_range, write_range};
ghost use Rattle.meaning_new.specs.declared.val.Val.{Val};
ghost use Rattle.meaning_new.specs.Store.{number, int, address_width, page, page_count};
ghost use Rattle.meaning_new.specs.Memories.{most_pages};
ghost use Rattle.meaning_new.specs.Instances.{new_memory};

use crate::slot::Slot;
use crate::values::address_width;
use num_core::operators::Store;
use run_kit::{copy_range, fill_range, read_range, store_bytes, write_range};
use std::alloc::{AllocError, Global};
use std::marker::Model;
use wasm_ast::module::Limits;

/// How many bytes a page has.
const PAGE: u64 = 65_536;

/// How many pages a memory has at most: no machine finds memory for more.
const MOST_PAGES: u64 = (1 << 32) - 1;

/// A memory: its bytes, the greatest number of pages, if there is one, and whether addresses have 64 bits (the standard's
/// "Memory Instances").
#[derive(Drop)]
pub struct Memory {
    bytes: Vec<u8>,
    max: Option<u64>,
    wide: bool,
}

impl Model for Memory {
    ghost use Rattle.std.specs.Prelude.{◌<◌, ◌^◌, vec_len};
    ghost use Rattle.meaning_new.specs.Store.{Memory};

    ghost Value = { Memory };

    ghost view = { λ m. record { bytes = m.bytes.items; max = m.max; wide = m.wide } };

    ghost invariant = { λ m. vec_len m.bytes < 2 ^ 48 };
}

impl Memory {
    /// A memory of zeros at its least size. It fails for want of memory alone.
    pub fn new(alloc: Global, limits: Limits) -> Result<Memory, AllocError>
        ensures { IfOk result (λ memory. memory ≡ new_memory limits) }
    {
        let mut bytes = Vec::new(alloc);
        if limits.min > MOST_PAGES {
            return Err(AllocError);
        }
        bytes.resize((limits.min * PAGE) as usize, 0)?;
        Ok(Memory {
            bytes,
            max: limits.max,
            wide: limits.wide,
        })
    }

    /// Its size in pages.
    pub fn pages(&self) -> u32
        ensures { result ≡ page_count self.now }
    {
        (self.bytes.len() as u64 / PAGE) as u32
    }

    /// Its size in pages, as a value of its address type.
    pub fn size(&self) -> Slot
        ensures { result ≡ int (address_width self.now.wide) (page_count self.now) }
    {
        Slot::of_width(address_width(self.wide), self.pages().into())
    }

    /// All ones in the address type, which a growth that fails gives.
    pub fn all_ones(&self) -> Slot
        ensures { result ≡ int (address_width self.now.wide) (if self.now.wide then 2 ^ 64 - 1 else 2 ^ 32 - 1) }
    {
        if self.wide {
            Slot::i64(u64::MAX)
        } else {
            Slot::i32(u32::MAX)
        }
    }

    /// Whether it may grow by so many pages: to 2^16 pages, or 2^48 with addresses of 64 bits, or to its greatest size
    /// where that is less (the standard's "Growing Memories").
    pub fn has_room(&self, more: u128) -> bool
        ensures { result ≡ nat_le (page_count self.now + more) (most_pages self.now) }
    {
        let most = if self.wide { 1 << 48 } else { 1 << 16 };
        let limit = self.max.map_or(most, |max| max.min(most));
        more <= limit.into() && u128::from(self.pages()) + more <= limit.into()
    }

    /// Adds so many pages of zeros. It fails for want of memory alone, and then nothing changes.
    pub fn grow(&mut self, more: u128) -> Result<(), AllocError>
        ensures ok { OnOk result (self.new ≡ record self.old { bytes = self.old.bytes ++ replicate (more * page) 0 }) }
        ensures err { OnErr result (self.new ≡ self.old) }
    {
        if more > MOST_PAGES.into() {
            return Err(AllocError);
        }
        let bytes = self.bytes.len() as u64 + more as u64 * PAGE;
        if bytes >= 1 << 48 {
            return Err(AllocError);
        }
        self.bytes.resize(bytes as usize, 0)
    }

    /// So many bytes from an address on, or none where they are not all inside.
    pub fn read(&self, base: Slot, offset: u64, count: usize) -> Option<&[u8]>
        ensures { option_map (λ bytes. bytes.now) result ≡ read_range (number base + offset) count self.now.bytes }
    {
        read_range(self.bytes.as_slice(), base.number(), offset, count as u128)
    }

    /// The same, by values.
    pub fn range(&self, from: Slot, count: Slot) -> Option<&[u8]>
        ensures { option_map (λ bytes. bytes.now) result ≡ read_range (number from) (number count) self.now.bytes }
    {
        read_range(self.bytes.as_slice(), from.number(), 0, count.number())
    }

    /// Writes bytes from an address on, and says whether they are all inside; else nothing changes.
    pub fn write(&mut self, base: Slot, offset: u64, bytes: &[u8]) -> bool
        ensures range { write_range (number base + offset) bytes.now self.old.bytes ≡ (if result then Some self.new.bytes else None) }
        ensures rest { self.new ≡ (if result then record self.old { bytes = self.new.bytes } else self.old) }
    {
        write_range(self.bytes.as_mut_slice(), base.number(), offset, bytes)
    }

    /// Writes bytes over those from a place on, and says whether they are all inside; else nothing changes.
    pub fn put(&mut self, to: Slot, bytes: &[u8]) -> bool
        ensures range { write_range (number to) bytes.now self.old.bytes ≡ (if result then Some self.new.bytes else None) }
        ensures rest { self.new ≡ (if result then record self.old { bytes = self.new.bytes } else self.old) }
    {
        self.write(to, 0, bytes)
    }

    /// Writes the lowest bytes of an integer, as a store does, and says whether they are all inside; else nothing
    /// changes.
    pub fn store(&mut self, op: Store, base: Slot, offset: u64, value: Slot) -> bool
        ensures range { write_range (number base + offset) (stored op (number value)) self.old.bytes ≡ (if result then Some self.new.bytes else None) }
        ensures rest { self.new ≡ (if result then record self.old { bytes = self.new.bytes } else self.old) }
    {
        let bytes = value.number().to_le_bytes();
        self.write(base, offset, &bytes[..store_bytes(op)])
    }

    /// Writes a byte over so many, and says whether they are all inside; else nothing changes.
    pub fn fill(&mut self, to: Slot, count: Slot, byte: u8) -> bool
        ensures range { write_range (number to) (replicate (number count) byte) self.old.bytes ≡ (if result then Some self.new.bytes else None) }
        ensures rest { self.new ≡ (if result then record self.old { bytes = self.new.bytes } else self.old) }
    {
        fill_range(self.bytes.as_mut_slice(), to.number(), count.number(), byte)
    }

    /// Copies so many bytes from one place to another, and says whether both ranges are inside; else nothing changes.
    pub fn copy(&mut self, to: Slot, from: Slot, count: Slot) -> bool
        ensures range { option_and_then (λ bytes. write_range (number to) bytes self.old.bytes) (read_range (number from) (number count) self.old.bytes) ≡ (if result then Some self.new.bytes else None) }
        ensures rest { self.new ≡ (if result then record self.old { bytes = self.new.bytes } else self.old) }
    {
        copy_range(
            self.bytes.as_mut_slice(),
            to.number(),
            from.number(),
            count.number(),
        )
    }
}
