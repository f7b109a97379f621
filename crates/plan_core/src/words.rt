//! A plan asked by number.

ghost use Rattle.std.specs.Prelude.{◌≡◌};
ghost use Rattle.std.specs.Option.{option_copied};
ghost use Rattle.plan_core.specs.Words.{bound, cleans, declared, delivers, is_at, is_clean, is_fresh, is_run, is_transfer, kind, output_bound, pair, pair_numbers, parents, reads, retries, task_numbers, writes};
ghost use Rattle.plan_core.specs.code.Words.{is_pair};

use crate::plan::{Pair, Plan, Target, TaskKind};
use values::{FileId, PairId, SiteId, TaskId};

impl Plan {
    /// What a task does.
    #[tactic(auto, unfolding(crate::specs::Words::kind))]
    pub fn kind(&self, task: TaskId) -> Option<&TaskKind>
        ensures { option_copied result ≡ kind self.now task.0 }
    {
        match self.tasks.as_slice().get(task.0 as usize) {
            Some(found) => Some(&found.kind),
            None => None,
        }
    }

    /// The pairs that a task reads.
    #[tactic(auto, unfolding(crate::specs::Words::reads))]
    pub fn reads(&self, task: TaskId) -> &[PairId]
        ensures { pair_numbers result.now ≡ reads self.now task.0 }
    {
        match self.tasks.as_slice().get(task.0 as usize) {
            Some(found) => found.reads.as_slice(),
            None => &[],
        }
    }

    /// The pairs that a task writes.
    #[tactic(auto, unfolding(crate::specs::Words::writes))]
    pub fn writes(&self, task: TaskId) -> &[PairId]
        ensures { pair_numbers result.now ≡ writes self.now task.0 }
    {
        match self.tasks.as_slice().get(task.0 as usize) {
            Some(found) => found.writes.as_slice(),
            None => &[],
        }
    }

    /// The tasks that a task waits for.
    #[tactic(auto, unfolding(crate::specs::Words::parents))]
    pub fn parents(&self, task: TaskId) -> &[TaskId]
        ensures { task_numbers result.now ≡ parents self.now task.0 }
    {
        match self.tasks.as_slice().get(task.0 as usize) {
            Some(found) => found.parents.as_slice(),
            None => &[],
        }
    }

    /// Whether a task is a Run.
    #[tactic(auto, unfolding(crate::specs::Words::kind))]
    pub fn is_run(&self, task: TaskId) -> bool
        ensures { result ≡ is_run self.now task.0 }
    {
        match self.tasks.as_slice().get(task.0 as usize) {
            Some(found) => matches!(found.kind, TaskKind::Run { .. }),
            None => false,
        }
    }

    /// Whether a task is a Transfer.
    #[tactic(auto, unfolding(crate::specs::Words::kind))]
    pub fn is_transfer(&self, task: TaskId) -> bool
        ensures { result ≡ is_transfer self.now task.0 }
    {
        match self.tasks.as_slice().get(task.0 as usize) {
            Some(found) => matches!(found.kind, TaskKind::Transfer { .. }),
            None => false,
        }
    }

    /// Whether a task is a Clean.
    #[tactic(auto, unfolding(crate::specs::Words::kind))]
    pub fn is_clean(&self, task: TaskId) -> bool
        ensures { result ≡ is_clean self.now task.0 }
    {
        match self.tasks.as_slice().get(task.0 as usize) {
            Some(found) => matches!(found.kind, TaskKind::Clean { .. }),
            None => false,
        }
    }

    /// Whether a task is the Clean of a pair.
    #[tactic(auto, unfolding(crate::specs::Words::kind))]
    pub fn cleans(&self, task: TaskId, pair: PairId) -> bool
        ensures { result ≡ cleans self.now task.0 pair.0 }
    {
        match self.tasks.as_slice().get(task.0 as usize) {
            Some(found) => match found.kind {
                TaskKind::Clean { pair: swept } => swept.0 == pair.0,
                _ => false,
            },
            None => false,
        }
    }

    /// Whether a task is the delivery of a file.
    #[tactic(auto, unfolding(crate::specs::Words::kind))]
    pub fn delivers(&self, task: TaskId, file: FileId) -> bool
        ensures { result ≡ delivers self.now task.0 file.0 }
    {
        match self.tasks.as_slice().get(task.0 as usize) {
            Some(found) => match found.kind {
                TaskKind::Transfer {
                    file: moved,
                    to: Target::Delivery,
                    ..
                } => moved.0 == file.0,
                _ => false,
            },
            None => false,
        }
    }

    /// A pair, by its number.
    #[tactic(auto, unfolding(crate::specs::Words::pair))]
    pub fn pair(&self, number: PairId) -> Option<Pair>
        ensures { result ≡ pair self.now number.0 }
    {
        match self.pairs.as_slice().get(number.0 as usize) {
            Some(found) => Some(*found),
            None => None,
        }
    }

    /// Whether a pair is this file at this site.
    #[tactic(auto, unfolding(crate::specs::code::Words::is_pair))]
    pub fn is_pair(&self, pair: PairId, site: SiteId, file: FileId) -> bool
        ensures { result ≡ is_pair self.now pair.0 site.0 file.0 }
    {
        match self.pairs.as_slice().get(pair.0 as usize) {
            Some(found) => found.site.0 == site.0 && found.file.0 == file.0,
            None => false,
        }
    }

    /// Whether a pair stands at this site.
    #[tactic(auto, unfolding(crate::specs::Words::is_at))]
    pub fn is_at(&self, pair: PairId, site: SiteId) -> bool
        ensures { result ≡ is_at self.now pair.0 site.0 }
    {
        match self.pairs.as_slice().get(pair.0 as usize) {
            Some(found) => found.site.0 == site.0,
            None => false,
        }
    }

    /// The declared size of a file, in bytes.
    #[tactic(auto, unfolding(crate::specs::Words::declared))]
    pub fn declared(&self, file: FileId) -> Option<u64>
        ensures { result ≡ declared self.now file.0 }
    {
        match self.files.as_slice().get(file.0 as usize) {
            Some(found) => found.declared,
            None => None,
        }
    }

    /// The bound of a site, in bytes; 0 where there is no such site.
    #[tactic(auto, unfolding(crate::specs::Words::bound))]
    pub fn bound(&self, site: SiteId) -> u64
        ensures { result ≡ bound self.now site.0 }
    {
        match self.sites.as_slice().get(site.0 as usize) {
            Some(found) => found.bound,
            None => 0,
        }
    }

    /// How often a failed task may be tried again.
    #[tactic(auto, unfolding(crate::specs::Words::retries))]
    pub fn retries(&self) -> u32
        ensures { result ≡ retries self.now }
    {
        self.policy.retries
    }

    /// Whether a fresh order may be made.
    #[tactic(auto, unfolding(crate::specs::Words::is_fresh))]
    pub fn is_fresh(&self) -> bool
        ensures { result ≡ is_fresh self.now }
    {
        self.policy.fresh
    }

    /// The bound on what is delivered, in bytes.
    #[tactic(auto, unfolding(crate::specs::Words::output_bound))]
    pub fn output_bound(&self) -> Option<u64>
        ensures { result ≡ output_bound self.now }
    {
        self.policy.output
    }
}
