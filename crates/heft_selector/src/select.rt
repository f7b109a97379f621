//! The whole selection.

ghost use Rattle.std.specs.Prelude.{◌≡◌, ◌<◌, ℕ, true, length, Ok, IfOk, All};
ghost use Rattle.workflow_core.specs.code.WellFormed.{IsWellFormed};
ghost use Rattle.transformation_catalog.specs.declared.catalog.TransformationCatalog.{TransformationCatalog as Catalog};
ghost use Rattle.plan_request.specs.FileSizes.{declared_sizes};
ghost use Rattle.plan_request.specs.code.Limits.{IsWithinLimits};
ghost use Rattle.plan_request.specs.Request.{execute_checked};
ghost use Rattle.digraph.specs.code.Adjacency.{lists_of};
ghost use Rattle.digraph.specs.Adjacency.{neighbours};
ghost use Rattle.dependency_graph.specs.Graph.{IsGraphOf};
ghost use Rattle.dependency_graph.specs.Levels.{is_kept};
ghost use Rattle.list_schedule.specs.code.Board.{schedule_of};
ghost use Rattle.heft_selector.specs.code.Candidates.{AreOffered, FindsAll};
ghost use Rattle.heft_selector.specs.code.Carried.{AreLists, AreMoves};
ghost use Rattle.list_schedule.specs.Schedule.{IsHeft};
ghost use Rattle.heft_selector.specs.Selecting.{offering_of, estimates};
ghost use Rattle.heft_selector.specs.code.Selecting.{SelectsHeft};
ghost use Rattle.heft_selector.specs.code.Stated.{AreTimes};

use crate::candidates::all_candidates;
use crate::moves::all_moves;
use crate::times::all_times;
use dependency_graph::Graph;
use list_schedule::{Heft, schedule_by};
use plan_request::{PlanRequest, declared_sizes};
use std::alloc::Global;
use transformation_catalog::TransformationCatalog;
use values::{Memory, SelectFault};
use workflow_core::Workflow;

fn sizes_of(
    alloc: Global,
    workflow: &Workflow,
    request: &PlanRequest,
) -> Result<Vec<Option<u64>>, Memory>
    requires { length workflow.now.files ≡ length workflow.now.sizes }
    ensures { IfOk result
        (λ v. v.items ≡ declared_sizes request.now workflow.now.files workflow.now.sizes) }
{
    let sizes = declared_sizes(
        alloc,
        request,
        workflow.files.as_slice(),
        workflow.sizes.as_slice(),
    )?;
    Ok(sizes)
}

fn times_of(
    alloc: Global,
    workflow: &Workflow,
    kept: &[bool],
    request: &PlanRequest,
    candidates: &[Vec<u32>],
) -> Result<Vec<Vec<u64>>, Memory>
    requires workflow { IsWellFormed workflow.now }
    requires limits { IsWithinLimits request.now }
    requires narrow { length request.now.execute < 65 }
    requires kept { length kept.now ≡ length workflow.now.jobs }
    requires long { length candidates.now ≡ length workflow.now.jobs }
    requires below { (a : ℕ) → is_kept kept.now a ≡ true
        → All (λ s. s < length request.now.execute) (neighbours (lists_of candidates.now) a) }
    ensures { IfOk result
        (λ v. AreTimes workflow.now.jobs kept.now request.now.execute request.now.runtimes
        (lists_of candidates.now) (lists_of v.items) (length workflow.now.jobs)) }
{
    let times = all_times(
        alloc,
        workflow.jobs.as_slice(),
        kept,
        request.execute.as_slice(),
        request.runtimes.as_slice(),
        candidates,
    )?;
    Ok(times)
}

fn moves_of(
    alloc: Global,
    workflow: &Workflow,
    graph: &Graph,
    request: &PlanRequest,
    sizes: &[Option<u64>],
) -> Result<Vec<Vec<u64>>, Memory>
    requires lists { AreLists graph.now workflow.now.jobs sizes.now }
    requires limits { IsWithinLimits request.now }
    ensures { IfOk result
        (λ v. AreMoves graph.now workflow.now.jobs sizes.now request.now.rate (lists_of v.items)
        (length workflow.now.jobs)) }
{
    let moves = all_moves(alloc, workflow.jobs.as_slice(), graph, sizes, request.rate)?;
    Ok(moves)
}

/// The schedule of jobs of which the candidates are known.
fn scheduled(
    alloc: Global,
    workflow: &Workflow,
    graph: &Graph,
    kept: &[bool],
    request: &PlanRequest,
    candidates: &[Vec<u32>],
) -> Result<Heft, Memory>
    requires workflow { IsWellFormed workflow.now }
    requires graph { IsGraphOf workflow.now graph.now }
    requires kept { length kept.now ≡ length workflow.now.jobs }
    requires sites { execute_checked request.now.execute ≡ Ok tt }
    requires limits { IsWithinLimits request.now }
    requires offered { (t : Catalog)
        × AreOffered (offering_of workflow.now kept.now request.now t) (lists_of candidates.now)
        (length workflow.now.jobs) }
    ensures { (t : Catalog)
        → AreOffered (offering_of workflow.now kept.now request.now t) (lists_of candidates.now)
        (length workflow.now.jobs)
        → IfOk result (λ h. IsHeft graph.now kept.now
        (estimates workflow.now kept.now request.now t) (schedule_of h)) }
{
    let sizes = sizes_of(alloc, workflow, request)?;
    let times = times_of(alloc, workflow, kept, request, candidates)?;
    let size_list = sizes.as_slice();
    let moves = moves_of(alloc, workflow, graph, request, size_list)?;
    let time_lists = times.as_slice();
    let move_lists = moves.as_slice();
    let execute = request.execute.as_slice();
    let heft = schedule_by(
        alloc,
        graph,
        kept,
        candidates,
        time_lists,
        move_lists,
        execute.len(),
    )?;
    Ok(heft)
}

/// The list schedule of the kept jobs after HEFT, or the first kept job by number that has no site.
pub fn select_heft(
    alloc: Global,
    workflow: &Workflow,
    graph: &Graph,
    kept: &[bool],
    request: &PlanRequest,
    transformations: &TransformationCatalog,
) -> Result<Heft, SelectFault>
    requires workflow { IsWellFormed workflow.now }
    requires graph { IsGraphOf workflow.now graph.now }
    requires kept { length kept.now ≡ length workflow.now.jobs }
    requires sites { execute_checked request.now.execute ≡ Ok tt }
    requires limits { IsWithinLimits request.now }
    ensures { SelectsHeft workflow.now graph.now kept.now request.now transformations.now result }
{
    let jobs = workflow.jobs.as_slice();
    let execute = request.execute.as_slice();
    match all_candidates(alloc, jobs, kept, execute, transformations) {
        Ok(candidates) => {
            let listed = candidates.as_slice();
            let heft = scheduled(alloc, workflow, graph, kept, request, listed)?;
            Ok(heft)
        }
        Err(fault) => Err(fault),
    }
}
