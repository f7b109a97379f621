//! A stream as a sink.

ghost use Rattle.std.specs.Prelude.{◌≡◌};

use outside::{Sink, SinkFault};
use std::io::Write;

/// A writer, as standard output is. What it holds is told where the writer tells it.
#[derive(Drop)]
pub struct StreamSink<W> {
    out: W,
    faults: u64,
}

impl<W: Write> StreamSink<W> {
    pub fn new(out: W) -> StreamSink<W>
        ensures written { ⟦<StreamSink<W> as Sink>⟧.written result ≡ W.contents out }
        ensures faults { ⟦<StreamSink<W> as Sink>⟧.faults result ≡ 0 }
    {
        StreamSink { out, faults: 0 }
    }
}

impl<W: Write> Sink for StreamSink<W> {
    ghost written = { λ s. W.contents s.out };

    ghost faults = { λ s. s.faults };

    fn faults(&self) -> u64 {
        self.faults
    }

    fn write(&mut self, piece: &[u8]) -> Result<usize, SinkFault> {
        match self.out.write(piece) {
            Ok(count) if count > 0 || piece.is_empty() => Ok(count),
            _ => {
                self.faults = self.faults.saturating_add(1);
                Err(SinkFault::Failed)
            }
        }
    }
}
