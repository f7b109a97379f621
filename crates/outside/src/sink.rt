//! Where bytes are written.

ghost use Rattle.std.specs.Prelude.{◌≡◌, ◌≤◌, ℕ, List, Option};

use thiserror::Error;

/// Why nothing was written.
#[derive(Clone, Copy, Debug, PartialEq, Eq, Error)]
pub enum SinkFault {
    #[error("the output could not be written")]
    Failed,
}

/// A sink of bytes.
pub trait Sink {
    ghost use Rattle.outside.specs.code.Sink.{Wrote};

    /// The bytes written, where they are told.
    ghost written: { Self → Option (List ℕ) };

    /// How often a call has failed. It never falls.
    ghost faults: { Self → ℕ };

    fn faults(&self) -> u64
        ensures { result ≡ faults self.now };

    /// Writes a prefix of the piece, of one byte at least where there is one, and tells its length.
    fn write(&mut self, piece: &[u8]) -> Result<usize, SinkFault>
        ensures answer { Wrote (written self.old) (written self.new) (faults self.old)
            (faults self.new) piece.now result }
        ensures faults { faults self.old ≤ faults self.new };
}

ghost use Rattle.outside.specs.code.Sink.{WroteAll};

/// Writes a whole text, in as many pieces as the sink wants.
pub fn write_all<K: Sink>(out: &mut K, text: &[u8]) -> Result<(), SinkFault>
    ensures answer { WroteAll (K.written out.old) (K.written out.new) (K.faults out.old)
        (K.faults out.new) text.now result }
    ensures faults { K.faults out.old ≤ K.faults out.new }
{
    let mut at = 0;
    while at < text.len() {
        let (_, rest) = text.split_at(at);
        let n = out.write(rest)?;
        at += n;
    }
    Ok(())
}
