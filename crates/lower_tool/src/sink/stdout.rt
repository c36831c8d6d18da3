use super::{Sink, SinkFault};
use std::io::{self, Write};

/// The standard output. It tells nothing of what was written.
#[derive(Drop)]
pub struct StdoutSink<'a, R: Print> {
    rt: &'a R,
    faults: u64,
}

impl<'a, R: Print> StdoutSink<'a, R> {
    /// Nothing is written yet.
    pub fn new(rt: &'a R) -> StdoutSink<'a, R> {
        StdoutSink { rt, faults: 0 }
    }
}

impl<R: Print> Sink for StdoutSink<'_, R> {
    ghost use Rattle.std.specs.Prelude.{None};

    ghost written = { λ _. None };

    ghost faults = { λ s. s.faults };

    fn give(&mut self, piece: &[u8]) -> Result<usize, SinkFault> {
        match io::writer(self.rt).write(piece) {
            Ok(count) if count > 0 => Ok(count),
            _ => {
                self.faults = self.faults.saturating_add(1);
                Err(SinkFault::Failed)
            }
        }
    }
}
