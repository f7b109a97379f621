//! What is placed so far.

ghost use Rattle.std.specs.Prelude.{◌≡◌, ◌<◌, vec_len, IfOk};
ghost use Rattle.list_schedule.specs.code.Board.{IsEmpty, IsPut};

use crate::choice::Slot;
use std::alloc::Global;
use values::{JobId, Memory, SiteId};

/// The site of each job, when it begins and ends, and when each site is free, in seconds.
#[derive(Drop)]
pub struct Board {
    pub sites: Vec<Option<SiteId>>,
    pub starts: Vec<u128>,
    pub finishes: Vec<u128>,
    pub free: Vec<u128>,
}

/// A board for so many jobs and sites.
pub fn empty(alloc: Global, jobs: usize, sites: usize) -> Result<Board, Memory>
    ensures { IfOk result (λ b. IsEmpty b jobs sites) }
{
    let no_sites = vec![in alloc; None; jobs]?;
    let starts = vec![in alloc; 0; jobs]?;
    let finishes = vec![in alloc; 0; jobs]?;
    let free = vec![in alloc; 0; sites]?;
    Ok(Board {
        sites: no_sites,
        starts,
        finishes,
        free,
    })
}

impl Board {
    pub fn put(&mut self, job: JobId, slot: &Slot)
        requires sites { job.0 < vec_len self.old.sites }
        requires starts { job.0 < vec_len self.old.starts }
        requires finishes { job.0 < vec_len self.old.finishes }
        requires free { slot.now.site < vec_len self.old.free }
        ensures { IsPut self.old self.new job.0 slot.now }
    {
        self.sites[job.0 as usize] = Some(SiteId(slot.site));
        self.starts[job.0 as usize] = slot.start;
        self.finishes[job.0 as usize] = slot.finish;
        self.free[slot.site as usize] = slot.finish;
    }
}
