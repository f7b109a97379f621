//! A host's files, outside the host: one that is read, and one that is written.

ghost use Rattle.std.specs.Prelude.{◌≡◌};

use crate::host::HostFault;
use std::alloc::Global;

/// A file that is being read. It was opened at its first byte. It isn't `Drop`: it goes back to its host and nowhere else.
pub trait ReadPart {
    ghost use Rattle.outside.specs.code.Parts.{ReadState, ReadsOn};

    /// Its bytes, where they are told, its place in them, its length, and how many of its calls failed.
    ghost state: { Self → ReadState };

    fn faults(&self) -> u64
        ensures { result ≡ (state self.now).faults };

    /// The file's length in bytes.
    fn length(&self) -> u64
        ensures { result ≡ (state self.now).size };

    /// Reads the next bytes into the front of `into`, and tells how many. None where there is room means the end.
    fn read(&mut self, into: &mut [u8]) -> Result<usize, HostFault>
        ensures answer { ReadsOn (state self.old) (state self.new) into.old into.new result };
}

/// A file that is being written. It is no file of the store before it is published. It isn't `Drop`: it is published or
/// discarded by its host, and nothing else can become of it.
pub trait WritePart {
    ghost use Rattle.outside.specs.code.Parts.{AppendsOn, DraftState};

    /// Its place and its bytes, where they are told, its length, its limit, and how many of its calls failed.
    ghost state: { Self → DraftState };

    fn faults(&self) -> u64
        ensures { result ≡ (state self.now).faults };

    /// How many bytes were written.
    fn length(&self) -> u64
        ensures { result ≡ (state self.now).size };

    /// Writes bytes at the end, all of them or none.
    fn append(&mut self, alloc: Global, piece: &[u8]) -> Result<(), HostFault>
        ensures answer { AppendsOn (state self.old) (state self.new) piece.now result };
}
