//! The level of each kept job.

ghost use Rattle.std.specs.Prelude.{◌≡◌, ◌<◌, ℕ, Bool, List, length, IfOk, All};
ghost use Rattle.values.specs.declared.numbers.JobId.{JobId};
ghost use Rattle.workflow_core.specs.declared.workflow.Workflow.{Workflow};
ghost use Rattle.workflow_core.specs.code.WellFormed.{IsWellFormed};
ghost use Rattle.dependency_graph.specs.Graph.{Links, IsGraphOf, jobs_at};
ghost use Rattle.dependency_graph.specs.Levels.{level, above, above_all, level_by, AreLevels};

use crate::graph::Graph;
use std::alloc::Global;
use values::{JobId, Memory};

/// One more than the level of a kept job, 0 for a dropped one.
fn above(kept: &[bool], levels: &[u32], job: JobId) -> u32
    requires in_range { job.0 < length kept.now }
    requires long { length levels.now ≡ length kept.now }
    requires small { level levels.now job.0 < 10000 }
    ensures { result ≡ above kept.now levels.now job.0 }
{
    if kept[job.0 as usize] {
        levels[job.0 as usize] + 1
    } else {
        0
    }
}

fn above_all(kept: &[bool], levels: &[u32], parents: &[JobId]) -> u32
    requires in_range { All (λ (p : JobId). p.0 < length kept.now) parents.now }
    requires long { length levels.now ≡ length kept.now }
    requires small { (b : ℕ) → level levels.now b < 10000 }
    ensures { result ≡ above_all kept.now levels.now parents.now }
{
    let mut greatest = 0;
    for parent in parents {
        greatest = above(kept, levels, *parent).max(greatest);
    }
    greatest
}

/// The level of a job, from those of its parents.
fn level_by(graph: &Graph, kept: &[bool], levels: &[u32], job: JobId) -> u32
    requires job { job.0 < length kept.now }
    requires kept { length kept.now ≡ length graph.now.parents }
    requires parents { All (λ (p : JobId). p.0 < length kept.now) (jobs_at graph.now.parents job.0) }
    requires long { length levels.now ≡ length kept.now }
    requires small { (b : ℕ) → level levels.now b < 10000 }
    ensures { result ≡ level_by graph.now kept.now levels.now job.0 }
{
    if kept[job.0 as usize] {
        above_all(kept, levels, graph.parents(job))
    } else {
        0
    }
}

impl Graph {
    /// A kept job without kept parents has level 0, another kept job one more than its kept parents' greatest,
    /// and a dropped job 0.
    pub fn levels(&self, alloc: Global, kept: &[bool]) -> Result<Vec<u32>, Memory>
        requires graph { (w : Workflow) × IsWellFormed w × IsGraphOf w self.now }
        requires kept { length kept.now ≡ length self.now.parents }
        ensures { IfOk result (λ v. AreLevels self.now kept.now v.items) }
    {
        let mut levels = vec![in alloc; 0; kept.len()]?;
        for job in self.ordered() {
            let level = level_by(self, kept, &levels, *job);
            levels[job.0 as usize] = level;
        }
        Ok(levels)
    }
}

/// Two lists of levels are the same one.
pub fn levels_are_determined()
    ensures { (w : Workflow) (g : Links) → IsGraphOf w g → (kept : List Bool)
        → length kept ≡ length g.parents → (one two : List ℕ) → AreLevels g kept one → AreLevels g kept two
        → one ≡ two }
{}
