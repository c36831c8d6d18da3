use super::{FileFault, Files};
use std::fs::{self, OpenFile};
use std::io::{Read, Write};
use std::rt;
use tool_files::files::fault;

/// The files of the system. It tells nothing of what they hold.
#[derive(Drop)]
pub struct DirFiles<'a, R: rt::Files> {
    rt: &'a R,
    reading: Option<R::File>,
    writing: Option<R::File>,
    read_faults: u64,
    write_faults: u64,
}

impl<'a, R: rt::Files> DirFiles<'a, R> {
    /// No file is read or written yet.
    pub fn new(rt: &'a R) -> DirFiles<'a, R> {
        DirFiles {
            rt,
            reading: None,
            writing: None,
            read_faults: 0,
            write_faults: 0,
        }
    }
}

impl<R: rt::Files> Files for DirFiles<'_, R> {
    ghost use Rattle.std.specs.Prelude.{None, is_some, if◌then◌else◌, ⊤};
    ghost use Rattle.tool_files.specs.Held.{unnamed, nothing};

    ghost holds = { λ _. None };

    ghost left = { λ _. None };

    ghost read_faults = { λ f. f.read_faults };

    ghost write_faults = { λ f. f.write_faults };

    ghost can_begin = { λ _ _. ⊤ };

    ghost is_reading = { λ f. is_some f.reading };

    ghost created = { λ f. if is_some f.writing then unnamed else nothing };

    fn begin(&mut self, name: &str) -> Result<(), FileFault> {
        self.reading = fs::open(self.rt, name).ok();
        match self.reading {
            Some(_) => Ok(()),
            None => Err(fault(&mut self.read_faults)),
        }
    }

    fn take(&mut self, into: &mut [u8]) -> Result<usize, FileFault> {
        let file = self.reading.as_mut().unwrap();
        match file.read(into) {
            Ok(count) => Ok(count),
            Err(_) => Err(fault(&mut self.read_faults)),
        }
    }

    fn create(&mut self, name: &str) -> Result<(), FileFault> {
        match fs::create(self.rt, name) {
            Ok(file) => {
                self.writing = Some(file);
                Ok(())
            }
            Err(_) => Err(fault(&mut self.write_faults)),
        }
    }

    fn give(&mut self, piece: &[u8]) -> Result<usize, FileFault> {
        let file = self.writing.as_mut().unwrap();
        match file.write(piece) {
            Ok(count) if count > 0 => Ok(count),
            _ => Err(fault(&mut self.write_faults)),
        }
    }
}
