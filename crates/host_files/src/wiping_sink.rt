//! A sink before whose text the line of progress goes.

ghost use Rattle.std.specs.Prelude.{◌≡◌};

use crate::progress::Progress;
use outside::{Sink, SinkFault};
use std::io::Eprint;
use std::time::Clock;

/// A sink; before each write the line of progress is taken off the terminal, where the text may go too.
#[derive(Drop)]
pub struct WipingSink<'a, K, R> {
    out: K,
    progress: &'a Progress<R>,
}

impl<'a, K: Sink, R: Clock + Eprint> WipingSink<'a, K, R> {
    pub fn new(out: K, progress: &'a Progress<R>) -> WipingSink<'a, K, R>
        ensures written { ⟦<WipingSink<'a, K, R> as Sink>⟧.written result ≡ K.written out }
        ensures faults { ⟦<WipingSink<'a, K, R> as Sink>⟧.faults result ≡ K.faults out }
    {
        WipingSink { out, progress }
    }
}

impl<'a, K: Sink, R: Clock + Eprint> Sink for WipingSink<'a, K, R> {
    ghost written = { λ s. K.written s.out };

    ghost faults = { λ s. K.faults s.out };

    fn faults(&self) -> u64 {
        self.out.faults()
    }

    fn write(&mut self, piece: &[u8]) -> Result<usize, SinkFault> {
        self.progress.wipe();
        self.out.write(piece)
    }
}
