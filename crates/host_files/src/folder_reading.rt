//! A file of the machine that is being read.

ghost use Rattle.std.specs.Prelude.{◌≡◌, ◌≤◌};
ghost use Rattle.outside.specs.code.Parts.{ReadsOn};
ghost use Rattle.host_files.specs.FolderReading.{Gives, just_opened};

use outside::{HostFault, ReadPart};
use std::io::Read;

/// An open file. It gives as many bytes as it had when it was opened, and fails where there are fewer. What it holds
/// isn't told.
#[derive(Drop)]
pub struct FolderReading<F> {
    file: F,
    size: u64,
    given: u64,
    faults: u64,
    ghost within: { given ≤ size },
}

impl<F: Read + Drop> FolderReading<F> {
    pub(crate) fn new(file: F, size: u64) -> FolderReading<F>
        ensures { ⟦<FolderReading<F> as ReadPart>⟧.state result ≡ just_opened size }
    {
        FolderReading {
            file,
            size,
            given: 0,
            faults: 0,
        }
    }

    /// Reads on, and passes on what the file gives.
    fn give(&mut self, into: &mut [u8]) -> Result<usize, HostFault>
        ensures answer { ReadsOn (⟦<FolderReading<F> as ReadPart>⟧.state self.old)
            (⟦<FolderReading<F> as ReadPart>⟧.state self.new) into.old into.new result }
        ensures bytes { Gives (F.remaining self.old.file) (F.remaining self.new.file) into.new result }
    {
        let room = (self.size - self.given).min(into.len() as u64) as usize;
        if room == 0 {
            return Ok(0);
        }
        match self.file.read(&mut into[..room]) {
            Ok(count) if count > 0 => {
                self.given += count as u64;
                Ok(count)
            }
            _ => {
                self.faults = self.faults.saturating_add(1);
                Err(HostFault::Failed)
            }
        }
    }
}

impl<F: Read + Drop> ReadPart for FolderReading<F> {
    ghost use Rattle.std.specs.Prelude.{None};

    ghost state = { λ r. record { told = None; given = r.given; size = r.size; faults = r.faults } };

    fn faults(&self) -> u64 {
        self.faults
    }

    fn length(&self) -> u64 {
        self.size
    }

    fn read(&mut self, into: &mut [u8]) -> Result<usize, HostFault> {
        self.give(into)
    }
}
