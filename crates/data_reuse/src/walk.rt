//! The walk from the end of a graph's order.

ghost use Rattle.std.specs.Prelude.{◌≡◌, ◌||◌, ◌&&◌, ℕ, length, IfOk};
ghost use Rattle.workflow_core.specs.code.WellFormed.{IsWellFormed, IsJobOver};
ghost use Rattle.dependency_graph.specs.Graph.{IsGraphOf};
ghost use Rattle.data_reuse.specs.Absent.{absent_in};
ghost use Rattle.data_reuse.specs.code.Flags.{is_set, reads, has_both};
ghost use Rattle.data_reuse.specs.Kept.{AreKept};

use crate::absent::absent_files;
use crate::flags::{is_set, requested_files, set_inputs};
use dependency_graph::Graph;
use replica_catalog::ReplicaCatalog;
use std::alloc::Global;
use values::Memory;
use workflow_core::{Job, Workflow};

/// Whether an output of a job is absent and needed.
fn is_needed(job: &Job, absent: &[bool], needed: &[bool]) -> bool
    ensures { result ≡ has_both absent.now needed.now job.now }
{
    job.outputs.as_slice().iter().any(|output| is_set(absent, output.file)
        && is_set(needed, output.file))
}

/// Whether a job is kept. The inputs of a kept job are needed.
fn visit(job: &Job, absent: &[bool], needed: &mut Vec<bool>) -> bool
    requires { IsJobOver (length needed.old.items) job.now }
    ensures kept { result ≡ has_both absent.now needed.old.items job.now }
    ensures long { length needed.new.items ≡ length needed.old.items }
    ensures each { (f : ℕ) → is_set needed.new.items f
        ≡ ((result && reads f job.now) || is_set needed.old.items f) }
{
    let kept = is_needed(job, absent, needed);
    if kept {
        set_inputs(needed, job);
    }
    kept
}

/// Which jobs are kept. With `force`, registrations don't count.
pub fn kept(
    alloc: Global,
    workflow: &Workflow,
    graph: &Graph,
    replicas: &ReplicaCatalog,
    force: bool,
) -> Result<Vec<bool>, Memory>
    requires well_formed { IsWellFormed workflow.now }
    requires graph { IsGraphOf workflow.now graph.now }
    ensures { IfOk result (λ v. AreKept
        (absent_in workflow.now replicas.now.entries force) workflow.now v.items) }
{
    let absent = absent_files(alloc, workflow.files.as_slice(), replicas, force)?;
    let mut needed = requested_files(alloc, workflow)?;
    let jobs = workflow.jobs.as_slice();
    let ordered = graph.ordered();
    let mut kept = vec![in alloc; false; jobs.len()]?;
    for place in (0..ordered.len()).rev() {
        let number = ordered[place].0 as usize;
        kept[number] = visit(&jobs[number], &absent, &mut needed);
    }
    Ok(kept)
}
