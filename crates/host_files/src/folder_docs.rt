//! Documents as files.

ghost use Rattle.std.specs.Prelude.{◌≡◌, []};
ghost use Rattle.outside.specs.code.Counts.{IsLater, no_calls};
ghost use Rattle.host_files.specs.FolderDocs.{Fetches};

use crate::reading::{Reading, read_front};
use outside::{Counts, DocFault, Docs};
use std::alloc::Global;
use std::fs;
use std::io::{ErrorKind, Read};
use std::rt::Files;

/// Files by their paths. What they hold isn't told.
#[derive(Drop)]
pub struct FolderDocs<R> {
    rt: R,
    counts: Counts,
}

impl<R: Files> FolderDocs<R> {
    pub fn new(rt: R) -> FolderDocs<R>
        ensures { ⟦<FolderDocs<R> as Docs>⟧.counts result ≡ no_calls }
    {
        FolderDocs {
            rt,
            counts: Counts::zero(),
        }
    }
}

/// Reads an open document, and counts the call.
fn fetch_open<F: Read>(
    file: &mut F,
    counts: &mut Counts,
    limit: u64,
    into: &mut Vec<u8>,
) -> Result<(), DocFault>
    requires { into.old.items ≡ [] }
    ensures answer { Fetches (F.remaining file.old) limit counts.old counts.new result into.new.items }
    ensures later { IsLater counts.old counts.new }
{
    match read_front(file, limit, into) {
        Reading::Whole => {
            counts.add_done();
            Ok(())
        }
        Reading::Longer(_) => {
            into.clear();
            counts.add_miss();
            Err(DocFault::TooLong(limit))
        }
        Reading::Failed => {
            into.clear();
            counts.add_fault();
            Err(DocFault::Failed)
        }
        Reading::Memory => {
            into.clear();
            Err(DocFault::Memory)
        }
    }
}

impl<R: Files> Docs for FolderDocs<R> {
    ghost use Rattle.std.specs.Prelude.{None};

    ghost told = { λ _. None };

    ghost counts = { λ d. d.counts };

    fn faults(&self) -> u64 {
        self.counts.faults
    }

    fn misses(&self) -> u64 {
        self.counts.misses
    }

    fn fetch(
        &mut self,
        _alloc: Global,
        name: &str,
        limit: u64,
        into: &mut Vec<u8>,
    ) -> Result<(), DocFault> {
        let mut file = match fs::open(&self.rt, name) {
            Ok(file) => file,
            Err(e) if e.kind() == ErrorKind::NotFound => {
                self.counts.add_miss();
                return Err(DocFault::Absent);
            }
            Err(_) => {
                self.counts.add_fault();
                return Err(DocFault::Failed);
            }
        };
        fetch_open(&mut file, &mut self.counts, limit, into)
    }
}
