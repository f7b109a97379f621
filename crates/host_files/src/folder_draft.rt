//! A file of the working folder that is being written.

ghost use Rattle.std.specs.Prelude.{◌≡◌, ◌≤◌, IfOk};
ghost use Rattle.outside.specs.code.Parts.{AppendsOn};
ghost use Rattle.host_files.specs.FolderDraft.{Writes, just_made};

use crate::target::Target;
use crate::writing::{create_part, place_part, remove_part};
use outside::{HostFault, WritePart};
use std::alloc::Global;
use std::io;
use std::io::{ErrorKind, Write};
use std::rt::Files;

/// A file of its own, and where it is to stand. What it holds isn't told. It isn't `Drop`: it is placed or removed.
pub struct FolderDraft<F> {
    file: F,
    part: String,
    target: Target,
    size: u64,
    limit: u64,
    faults: u64,
    ghost within: { size ≤ limit },
}

impl<F: Write + Drop> FolderDraft<F> {
    fn new(file: F, part: String, target: Target, limit: u64) -> FolderDraft<F>
        ensures { ⟦<FolderDraft<F> as WritePart>⟧.state result ≡ just_made limit }
    {
        FolderDraft {
            file,
            part,
            target,
            size: 0,
            limit,
            faults: 0,
        }
    }

    /// Writes a piece into the file, if it stays within the limit.
    fn write(&mut self, piece: &[u8]) -> Result<(), HostFault>
        ensures answer { AppendsOn (⟦<FolderDraft<F> as WritePart>⟧.state self.old)
            (⟦<FolderDraft<F> as WritePart>⟧.state self.new) piece.now result }
        ensures bytes { Writes (F.contents self.old.file) (F.contents self.new.file) piece.now result }
    {
        let length = piece.len() as u64;
        if length > self.limit - self.size {
            let length = self.size.saturating_add(length);
            return Err(HostFault::Over(self.limit, length));
        }
        match self.file.write_all(piece) {
            Ok(()) => {
                self.size += length;
                Ok(())
            }
            Err(_) => {
                self.faults = self.faults.saturating_add(1);
                Err(HostFault::Failed)
            }
        }
    }

    /// Closes the file, and gives it its name, in place of an earlier file. One of which an append failed gets none, and
    /// one that gets none is removed.
    pub(crate) fn place<R: Files>(self, rt: &R) -> io::Result<()> {
        let FolderDraft {
            file,
            part,
            target,
            size: _,
            limit: _,
            faults,
        } = self;
        drop(file);
        if faults > 0 {
            remove_part(rt, part.as_str());
            return Err(io::Error::from(ErrorKind::InvalidData));
        }
        place_part(rt, part.as_str(), &target)
    }

    /// Closes the file, and removes it.
    pub(crate) fn remove<R: Files>(self, rt: &R) {
        let FolderDraft {
            file,
            part,
            target: _target,
            size: _,
            limit: _,
            faults: _,
        } = self;
        drop(file);
        remove_part(rt, part.as_str());
    }
}

/// Makes a draft in a file of this path, in place of one that an earlier run left.
pub fn make_draft<R: Files>(
    rt: &R,
    part: String,
    target: Target,
    limit: u64,
) -> io::Result<FolderDraft<R::File>>
    ensures { IfOk result (λ d. ⟦<FolderDraft<R::File> as WritePart>⟧.state d ≡ just_made limit) }
{
    let file = create_part(rt, part.as_str())?;
    Ok(FolderDraft::new(file, part, target, limit))
}

/// A draft, an append and a placing in one.
pub fn write_whole<R: Files>(
    rt: &R,
    alloc: Global,
    part: String,
    target: Target,
    bytes: &[u8],
) -> io::Result<()> {
    let mut draft = make_draft(rt, part, target, bytes.len() as u64)?;
    // One that failed is refused by the placing.
    let _written = draft.append(alloc, bytes);
    draft.place(rt)
}

impl<F: Write + Drop> WritePart for FolderDraft<F> {
    ghost use Rattle.std.specs.Prelude.{None};

    ghost state = { λ d. record { told = None; size = d.size; limit = d.limit; faults = d.faults } };

    fn faults(&self) -> u64 {
        self.faults
    }

    fn length(&self) -> u64 {
        self.size
    }

    fn append(&mut self, _alloc: Global, piece: &[u8]) -> Result<(), HostFault> {
        self.write(piece)
    }
}
