ghost use Rattle.std.specs.Prelude.{◌≡◌, ◌<◌, ◌≤◌, [], Some, length, min, IsTrue, IsErr, IfOk, is_ok, if◌then◌else◌};
ghost use Rattle.std.specs.Io.KnownBytes.{WriteAppends};
ghost use Rattle.tool_files.specs.Calls.{is_due, counted, one_more};
ghost use Rattle.tool_files.specs.Causes.{HasCause};

use super::{Sink, SinkFault};
use crate::calls::Calls;
use num_core::lists::Bytes;
use std::alloc::Global;
use std::marker::Model;

/// A sink in memory, some of whose calls fail.
#[derive(Drop)]
pub struct MemSink {
    written: Bytes,
    most: u32,
    gives: Calls,
    faults: u64,
}

impl Model for MemSink {
    ghost use Rattle.std.specs.Prelude.{◌<◌};
    ghost use Rattle.tool_files.specs.SinkMemory.{SinkMemory};

    ghost Value = { SinkMemory };

    ghost view = { λ s. record { written = s.written; most = s.most; gives = s.gives; faults = s.faults } };

    ghost invariant = { λ s. 0 < s.most };
}

impl MemSink {
    /// Nothing is written yet. A call moves no more than `most` bytes, and those whose numbers are
    /// in `fail`, counted from 1, fail. It takes no memory.
    pub fn new(alloc: Global, most: u32, fail: Vec<u64>) -> MemSink
        requires { 0 < most }
        ensures written { result.written ≡ [] }
        ensures most { result.most ≡ most }
        ensures gives { result.gives ≡ record { made = 0; fails = fail.items } }
        ensures faults { result.faults ≡ 0 }
    {
        MemSink {
            written: Bytes::new(alloc),
            most,
            gives: Calls::new(fail),
            faults: 0,
        }
    }

    /// The bytes that were written.
    pub fn written(&self) -> &[u8]
        ensures { result.now ≡ self.now.written }
    {
        self.written.as_slice()
    }
}

impl Sink for MemSink {
    ghost written = { λ s. Some s.written };

    ghost faults = { λ s. s.faults };

    fn give(&mut self, piece: &[u8]) -> Result<usize, SinkFault>
        requires { 0 < length piece.now }
        ensures listed { IsTrue (is_due self.old.gives) → IsErr result }
        ensures cause { HasCause self.old.faults self.new.faults result }
        ensures raises { self.new.faults ≡ (if is_ok result then self.old.faults else one_more self.old.faults) }
        ensures moves { IfOk result (λ count. count ≡ min self.old.most (length piece.now)) }
        ensures count { IfOk result (λ count. (0 < count) × (count ≤ length piece.now)) }
        ensures appends { WriteAppends (Some self.old.written) (Some self.new.written) result piece.now }
        ensures others { self.new ≡ record self.old { written = self.new.written; gives = counted self.old.gives; faults = self.new.faults } }
    {
        let due = self.gives.count();
        let count = piece.len().min(self.most as usize);
        if due || self.written.extend_from_slice(&piece[..count]).is_err() {
            self.faults = self.faults.saturating_add(1);
            return Err(SinkFault::Failed);
        }
        Ok(count)
    }
}
