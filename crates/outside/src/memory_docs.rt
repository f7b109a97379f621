//! Documents in memory.

ghost use Rattle.std.specs.Prelude.{◌≡◌, [], OnOk, OnErr};
ghost use Rattle.std.specs.FinMap as map;

use crate::counts::Counts;
use crate::docs::{DocFault, Docs};
use crate::failing::Failing;
use std::alloc::Global;
use values::{FileMap, Memory};

/// Documents that are told, of whose fetches the listed ones fail.
#[derive(Drop)]
pub struct MemoryDocs {
    files: FileMap,
    failing: Failing,
    counts: Counts,
}

impl MemoryDocs {
    ghost use Rattle.outside.specs.code.Counts.{no_calls};
    ghost use Rattle.outside.specs.code.Failing.{calls_made, failing_calls};
    ghost use Rattle.outside.specs.code.MemoryDocs.{docs_counts, docs_failing, docs_files};

    /// No document. `failing` lists the fetches that are to fail, by number from 1.
    pub fn new(alloc: Global, failing: Vec<u64>) -> MemoryDocs
        ensures files { docs_files result ≡ map.empty }
        ensures failing { failing_calls (docs_failing result) ≡ failing.items }
        ensures calls { calls_made (docs_failing result) ≡ 0 }
        ensures counts { docs_counts result ≡ no_calls }
    {
        MemoryDocs {
            files: FileMap::new(alloc),
            failing: Failing::new(failing),
            counts: Counts::zero(),
        }
    }

    /// Sets the document of a name.
    pub fn put(&mut self, alloc: Global, name: &str, bytes: &[u8]) -> Result<(), Memory>
        ensures ok { OnOk result (docs_files self.new ≡ map.insert (docs_files self.old) name.now bytes.now) }
        ensures err { OnErr result (docs_files self.new ≡ docs_files self.old) }
        ensures failing { docs_failing self.new ≡ docs_failing self.old }
        ensures counts { docs_counts self.new ≡ docs_counts self.old }
    {
        self.files.insert(alloc, name, bytes)
    }
}

fn copy_into(into: &mut Vec<u8>, bytes: &[u8]) -> Result<(), Memory>
    requires { into.old.items ≡ [] }
    ensures ok { OnOk result (into.new.items ≡ bytes.now) }
    ensures err { OnErr result (into.new.items ≡ []) }
{
    into.extend_from_slice(bytes)?;
    Ok(())
}

impl Docs for MemoryDocs {
    ghost use Rattle.std.specs.Prelude.{[], ◌↔◌, IsErrOf, Some, true};
    ghost use Rattle.outside.specs.code.Counts.{IsLater};
    ghost use Rattle.outside.specs.code.Docs.{Fetched};
    ghost use Rattle.outside.specs.code.Failing.{IsNextCall, fails_next};
    ghost use Rattle.outside.specs.code.MemoryDocs.{docs_counts, docs_failing, docs_files};

    ghost told = { λ m. Some m.files };

    ghost counts = { λ m. m.counts };

    fn faults(&self) -> u64 {
        self.counts.faults
    }

    fn misses(&self) -> u64 {
        self.counts.misses
    }

    fn fetch(
        &mut self,
        _alloc: Global,
        name: &str,
        limit: u64,
        into: &mut Vec<u8>,
    ) -> Result<(), DocFault>
        requires { into.old.items ≡ [] }
        ensures answer { Fetched (Some (docs_files self.old)) name.now limit (docs_counts self.old)
            (docs_counts self.new) result into.new.items }
        ensures told { Some (docs_files self.new) ≡ Some (docs_files self.old) }
        ensures later { IsLater (docs_counts self.old) (docs_counts self.new) }
        // A fetch fails exactly where its number is listed.
        ensures failed { IsErrOf result DocFault.Failed ↔ (fails_next (docs_failing self.old) ≡ true) }
        ensures call { IsNextCall (docs_failing self.old) (docs_failing self.new) }
    {
        if self.failing.call() {
            self.counts.add_fault();
            return Err(DocFault::Failed);
        }
        let Some(bytes) = self.files.get(name) else {
            self.counts.add_miss();
            return Err(DocFault::Absent);
        };
        if bytes.len() as u64 > limit {
            self.counts.add_miss();
            return Err(DocFault::TooLong(limit));
        }
        copy_into(into, bytes)?;
        self.counts.add_done();
        Ok(())
    }
}
