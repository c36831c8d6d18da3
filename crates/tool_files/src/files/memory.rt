ghost use Rattle.std.specs.Prelude.{◌≡◌, ◌<◌, ◌≤◌, ◌↔◌, ◌⊎◌, List, [], length, take, min, None, Some, IsTrue, IsErr, IfOk, IfSome, OnOk, OnErr, is_ok, is_some, if◌then◌else◌};
ghost use Rattle.tool_files.specs.Calls.{is_due, counted, one_more};
ghost use Rattle.std.specs.Io.{ReadsAtMost};
ghost use Rattle.std.specs.Io.KnownBytes.{ReadConsumes};
ghost use Rattle.tool_files.specs.Causes.{HasCause};
ghost use Rattle.tool_files.specs.Held.{Sets, Grows, IsCreated, named};
ghost use Rattle.tool_files.specs.Memory.{IsNamedOnce, content_of, left_of, created_of};

use super::pairs::{append, copy_from, empty_file, place_of};
use super::{FileFault, Files, fault};
use crate::calls::Calls;
use num_core::lists::{Bytes, Text};
use std::alloc::Global;
use std::marker::Model;

/// For each kind of call the numbers of the calls that are to fail, counted from 1.
#[derive(Drop)]
pub struct FailAt {
    /// Of the calls of `begin`.
    pub begin: Vec<u64>,
    /// Of the calls of `take`.
    pub take: Vec<u64>,
    /// Of the calls of `create`.
    pub create: Vec<u64>,
    /// Of the calls of `give`.
    pub give: Vec<u64>,
}

/// Files in memory, some of whose calls fail.
#[derive(Drop)]
pub struct MemFiles {
    alloc: Global,
    files: Vec<(Text, Bytes)>,
    /// The place of the file that is read, and how many of its bytes were taken.
    reading: Option<(usize, usize)>,
    /// The place of the file that was last created.
    writing: Option<usize>,
    most: u32,
    begins: Calls,
    takes: Calls,
    creates: Calls,
    gives: Calls,
    read_faults: u64,
    write_faults: u64,
}

impl Model for MemFiles {
    ghost use Rattle.tool_files.specs.Memory.{Memory, IsSound};

    ghost Value = { Memory };

    ghost use Rattle.tool_files.specs.MemoryView.{memory_of};

    ghost view = { memory_of };

    ghost invariant = { λ m. IsSound (memory_of m) };
}

impl MemFiles {
    /// Files of these names and bytes. A call moves no more than `most` bytes. It takes no memory.
    pub fn new(alloc: Global, holds: Vec<(Text, Bytes)>, most: u32, fail: FailAt) -> MemFiles
        requires differ { IsNamedOnce holds.items }
        requires moves { 0 < most }
        ensures files { result.files ≡ holds.items }
        ensures reading { result.reading ≡ None }
        ensures writing { result.writing ≡ None }
        ensures most { result.most ≡ most }
        ensures begins { result.begins ≡ record { made = 0; fails = fail.begin.items } }
        ensures takes { result.takes ≡ record { made = 0; fails = fail.take.items } }
        ensures creates { result.creates ≡ record { made = 0; fails = fail.create.items } }
        ensures gives { result.gives ≡ record { made = 0; fails = fail.give.items } }
        ensures read_faults { result.read_faults ≡ 0 }
        ensures write_faults { result.write_faults ≡ 0 }
    {
        let FailAt {
            begin,
            take,
            create,
            give,
        } = fail;
        MemFiles {
            alloc,
            files: holds,
            reading: None,
            writing: None,
            most,
            begins: Calls::new(begin),
            takes: Calls::new(take),
            creates: Calls::new(create),
            gives: Calls::new(give),
            read_faults: 0,
            write_faults: 0,
        }
    }

    /// The names and bytes of the files, each name once.
    pub fn holds(&self) -> &[(Text, Bytes)]
        ensures pairs { result.now ≡ self.now.files }
        ensures once { IsNamedOnce result.now }
    {
        self.files.as_slice()
    }
}

impl Files for MemFiles {
    ghost use Rattle.std.specs.Prelude.{Some, is_some, ⊤};
    ghost use Rattle.tool_files.specs.Memory.{content_of, left_of, created_of};

    ghost holds = { λ m. Some (content_of m.files) };

    ghost left = { left_of };

    ghost read_faults = { λ m. m.read_faults };

    ghost write_faults = { λ m. m.write_faults };

    ghost can_begin = { λ _ _. ⊤ };

    ghost is_reading = { λ m. is_some m.reading };

    ghost created = { created_of };

    fn begin(&mut self, name: &str) -> Result<(), FileFault>
        ensures fails { IsErr result ↔ (IsTrue (is_due self.old.begins) ⊎ (content_of self.old.files name.now ≡ None)) }
        ensures cause { HasCause self.old.read_faults self.new.read_faults result }
        ensures raises { self.new.read_faults ≡ (if is_ok result then self.old.read_faults else one_more self.old.read_faults) }
        ensures whole { OnOk result (left_of self.new ≡ content_of self.old.files name.now) }
        ensures reading { is_some self.new.reading ≡ is_ok result }
        ensures others { self.new ≡ record self.old { reading = self.new.reading; begins = counted self.old.begins; read_faults = self.new.read_faults } }
    {
        let due = self.begins.count();
        match place_of(self.files.as_slice(), name) {
            Some(place) if !due => {
                self.reading = Some((place, 0));
                Ok(())
            }
            _ => {
                self.reading = None;
                Err(fault(&mut self.read_faults))
            }
        }
    }

    fn take(&mut self, into: &mut [u8]) -> Result<usize, FileFault>
        requires reading { IsTrue (is_some self.old.reading) }
        requires room { 0 < length into.old }
        ensures fails { IsErr result ↔ IsTrue (is_due self.old.takes) }
        ensures cause { HasCause self.old.read_faults self.new.read_faults result }
        ensures raises { self.new.read_faults ≡ (if is_ok result then self.old.read_faults else one_more self.old.read_faults) }
        ensures within { ReadsAtMost result into.new }
        ensures moves { IfOk result (λ count. IfSome (left_of self.old) (λ left. count ≡ min self.old.most (min (length into.new) (length left)))) }
        ensures front { ReadConsumes (left_of self.old) (left_of self.new) result into.new }
        ensures reading { is_some self.new.reading ≡ is_some self.old.reading }
        ensures others { self.new ≡ record self.old { reading = self.new.reading; takes = counted self.old.takes; read_faults = self.new.read_faults } }
    {
        if self.takes.count() {
            return Err(fault(&mut self.read_faults));
        }
        let (place, at) = self.reading.unwrap();
        let count = copy_from(self.files[place].1.as_slice(), at, self.most, into);
        self.reading = Some((place, at + count));
        Ok(count)
    }

    fn create(&mut self, name: &str) -> Result<(), FileFault>
        ensures listed { IsTrue (is_due self.old.creates) → IsErr result }
        ensures cause { HasCause self.old.write_faults self.new.write_faults result }
        ensures raises { self.new.write_faults ≡ (if is_ok result then self.old.write_faults else one_more self.old.write_faults) }
        ensures empties { OnOk result (Sets (Some (content_of self.old.files)) (Some (content_of self.new.files)) name.now []) }
        ensures chooses { OnOk result (created_of self.new ≡ named name.now) }
        ensures held { OnErr result (self.new.files ≡ self.old.files) }
        ensures created { OnErr result (self.new.writing ≡ self.old.writing) }
        ensures others { self.new ≡ record self.old { files = self.new.files; writing = self.new.writing; creates = counted self.old.creates; write_faults = self.new.write_faults } }
    {
        if self.creates.count() {
            return Err(fault(&mut self.write_faults));
        }
        match empty_file(self.alloc, &mut self.files, name) {
            Ok(place) => {
                self.writing = Some(place);
                Ok(())
            }
            Err(_) => Err(fault(&mut self.write_faults)),
        }
    }

    fn give(&mut self, piece: &[u8]) -> Result<usize, FileFault>
        requires chosen { IsCreated (created_of self.old) }
        requires some { 0 < length piece.now }
        ensures listed { IsTrue (is_due self.old.gives) → IsErr result }
        ensures cause { HasCause self.old.write_faults self.new.write_faults result }
        ensures raises { self.new.write_faults ≡ (if is_ok result then self.old.write_faults else one_more self.old.write_faults) }
        ensures moves { IfOk result (λ count. count ≡ min self.old.most (length piece.now)) }
        ensures count { IfOk result (λ count. (0 < count) × (count ≤ length piece.now)) }
        ensures appends { IfOk result (λ count. Grows (Some (content_of self.old.files)) (Some (content_of self.new.files)) (created_of self.old) (take count piece.now)) }
        ensures held { OnErr result (self.new.files ≡ self.old.files) }
        ensures created { created_of self.new ≡ created_of self.old }
        ensures others { self.new ≡ record self.old { files = self.new.files; gives = counted self.old.gives; write_faults = self.new.write_faults } }
    {
        if self.gives.count() {
            return Err(fault(&mut self.write_faults));
        }
        let place = self.writing.unwrap();
        let count = piece.len().min(self.most as usize);
        match append(&mut self.files, place, &piece[..count]) {
            Ok(()) => Ok(count),
            Err(_) => Err(fault(&mut self.write_faults)),
        }
    }
}
