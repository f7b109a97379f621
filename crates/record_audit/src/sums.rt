//! What the entries of a record come to.

ghost use Rattle.std.specs.Prelude.{◌≡◌, ◌<◌, ◌+◌, ◌^◌, ℕ, IfOk, get_or, length};
ghost use Rattle.run_record.specs.code.Events.{event};
ghost use Rattle.record_audit.specs.Sums.{AreSmall, HasNone, IsCounted, arrived};

use run_record::Entry;
use std::alloc::Global;
use values::Memory;

/// How many entries of each kind a record has (a grant by a fresh order counts as a grant), the
/// bytes that its Transfers moved, and of each site the most bytes that were stored and reserved
/// there at one time.
#[derive(Drop)]
pub struct Statistics {
    pub grants: u64,
    pub arrives: u64,
    pub ends: u64,
    pub cleans: u64,
    pub fails: u64,
    pub agains: u64,
    pub moved: u64,
    pub peaks: Vec<u64>,
}

impl Statistics {
    /// Those of a record without entries.
    pub(crate) fn none(alloc: Global, sites: usize) -> Result<Statistics, Memory>
        ensures counts { IfOk result (λ s. HasNone s) }
        ensures long { IfOk result (λ s. length s.peaks.items ≡ sites) }
        ensures peaks { IfOk result (λ s. (q : ℕ) → get_or s.peaks.items q 0 ≡ 0) }
    {
        Ok(Statistics {
            grants: 0,
            arrives: 0,
            ends: 0,
            cleans: 0,
            fails: 0,
            agains: 0,
            moved: 0,
            peaks: vec![in alloc; 0; sites]?,
        })
    }

    /// Counts an entry.
    pub(crate) fn count(&mut self, entry: &Entry<'_>)
        requires small { AreSmall self.old }
        requires moved { self.old.moved + arrived (event entry.now) < 2 ^ 64 }
        ensures counted { IsCounted self.old (event entry.now) self.new }
        ensures peaks { self.new.peaks ≡ self.old.peaks }
    {
        match entry {
            Entry::Grant { .. } | Entry::Regrant { .. } => self.grants += 1,
            Entry::Arrive { size, .. } => {
                self.arrives += 1;
                self.moved += *size;
            }
            Entry::End { .. } => self.ends += 1,
            Entry::Clean { .. } => self.cleans += 1,
            Entry::Fail { .. } => self.fails += 1,
            Entry::Again { .. } => self.agains += 1,
        }
    }
}
