use super::{Sink, SinkFault};

/// A sink that never fails, and drops what is written.
#[derive(Clone, Copy, Debug)]
pub struct SafeSink {}

impl SafeSink {
    /// The sink.
    pub fn new() -> SafeSink {
        SafeSink {}
    }
}

impl Sink for SafeSink {
    ghost use Rattle.std.specs.Prelude.{None};

    ghost written = { λ _. None };

    ghost faults = { λ _. 0 };

    fn give(&mut self, piece: &[u8]) -> Result<usize, SinkFault> {
        Ok(piece.len())
    }
}
