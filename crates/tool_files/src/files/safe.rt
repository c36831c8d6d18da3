ghost use Rattle.std.specs.Prelude.{◌≡◌, None, false};
ghost use Rattle.tool_files.specs.Memory.{IsNamedOnce};

use super::pairs::{copy_from, place_of};
use super::{FileFault, Files};
use num_core::lists::{Bytes, Text};
use std::marker::Model;

/// Files in memory that never fail. What is written is dropped.
#[derive(Drop)]
pub struct SafeFiles {
    files: Vec<(Text, Bytes)>,
    /// The place of the file that is read, and how many of its bytes were taken.
    reading: Option<(usize, usize)>,
    /// Whether a file was created.
    writing: bool,
}

impl Model for SafeFiles {
    ghost use Rattle.tool_files.specs.Safe.{SafeMemory, IsPlaced};

    ghost Value = { SafeMemory };

    ghost view = { λ m. record { files = m.files.items; reading = m.reading; writing = m.writing } };

    ghost invariant = { λ m. IsPlaced (record { files = m.files.items; reading = m.reading; writing = m.writing }) };
}

impl SafeFiles {
    /// Files of these names and bytes. It takes no memory.
    pub fn new(holds: Vec<(Text, Bytes)>) -> SafeFiles
        requires { IsNamedOnce holds.items }
        ensures files { result.files ≡ holds.items }
        ensures reading { result.reading ≡ None }
        ensures writing { result.writing ≡ false }
    {
        SafeFiles {
            files: holds,
            reading: None,
            writing: false,
        }
    }
}

impl Files for SafeFiles {
    ghost use Rattle.tool_files.specs.Safe.{told_by, left_by, created_by, IsHeld};
    ghost use Rattle.std.specs.Prelude.{is_some};

    ghost holds = { told_by };

    ghost left = { left_by };

    ghost read_faults = { λ _. 0 };

    ghost write_faults = { λ _. 0 };

    ghost can_begin = { IsHeld };

    ghost is_reading = { λ m. is_some m.reading };

    ghost created = { created_by };

    fn begin(&mut self, name: &str) -> Result<(), FileFault> {
        let place = place_of(self.files.as_slice(), name).unwrap();
        self.reading = Some((place, 0));
        Ok(())
    }

    fn take(&mut self, into: &mut [u8]) -> Result<usize, FileFault> {
        let (place, at) = self.reading.unwrap();
        let count = copy_from(self.files[place].1.as_slice(), at, u32::MAX, into);
        self.reading = Some((place, at + count));
        Ok(count)
    }

    fn create(&mut self, _name: &str) -> Result<(), FileFault> {
        self.writing = true;
        Ok(())
    }

    fn give(&mut self, piece: &[u8]) -> Result<usize, FileFault> {
        Ok(piece.len())
    }
}
