//! The plan of a workflow whose jobs are clustered and placed.

ghost use Rattle.std.specs.Prelude.{◌≡◌, ◌<◌, ◌^◌, ◌+◌, ℕ, true, length, map, slice_get, IfOk};
ghost use Rattle.digraph.specs.code.Digraph.{edge};
ghost use Rattle.dependency_graph.specs.Graph.{IsGraphOf};
ghost use Rattle.plan_core.specs.declared.plan.Task.{Task as DeclaredTask};
ghost use Rattle.plan_core.specs.Numbers.{has};
ghost use Rattle.plan_core.specs.Words.{writes_in};
ghost use Rattle.transfer_refiner.specs.code.Conditions.{IsDraft};
ghost use Rattle.transfer_refiner.specs.Refined.{IsRefined};
ghost use Rattle.transfer_refiner.specs.code.Refined.{Refines};
ghost use Rattle.transfer_refiner.specs.code.Steps.{AreParented, AreTasks};
ghost use Rattle.transfer_refiner.specs.code.Tables.{AreTables};
ghost use Rattle.plan_core.specs.code.Proper.{IsProper};
ghost use Rattle.transfer_refiner.specs.Draft.{moves, planned};
ghost use Rattle.transfer_refiner.specs.Tasks.{comes_after, count_files, count_execution_sites, grid, kinds_of, pairs_of, part_of};
ghost use Rattle.transfer_refiner.specs.code.Tasks.{count_all, count_cleans};
ghost use Rattle.transfer_refiner.specs.code.View.{draft_of};

use crate::copying::{files_of, jobs_of, policy_copied, sites_of};
use crate::edges::stated;
use crate::fault::RefineFault;
use crate::lacking::first_fault;
use crate::listing::{kinds_of, moved, pairs_of};
use crate::tables::{Tables, tables_of};
use crate::tasks::tasks_of;
use crate::view::View;
use crate::waiting::{with_parents, writers};
use dependency_graph::Graph;
use digraph::Digraph;
use plan_core::{Pair, Plan, PlanJob, Task, TaskKind};
use plan_request::{Cleanup, PlanRequest};
use replica_catalog::{ReplicaCatalog, Replicas};
use std::alloc::Global;
use values::{Items, Memory, SiteId};
use workflow_core::{Clusters, Workflow};

/// Tasks with their parents, each in place of the one without.
fn with_all_parents(
    alloc: Global,
    view: &View<'_>,
    held: &Digraph,
    pairs: usize,
    bare: &[Task],
) -> Result<Items<Task>, Memory>
    requires draft { IsDraft (draft_of view.now) }
    requires held { (c j : ℕ) → edge held.now c j ≡ has (part_of (draft_of view.now) c) j }
    requires few_pairs { pairs < 2 ^ 32 }
    requires few_tasks { length bare.now < 2 ^ 32 }
    requires kinds { map (λ (t : DeclaredTask). t.kind) bare.now ≡ kinds_of (draft_of view.now) }
    requires in_range { (t q : ℕ) → has (writes_in (slice_get bare.now t)) q ≡ true → q < pairs }
    ensures { IfOk result (λ ts. AreParented (comes_after (draft_of view.now)) bare.now ts
        (length bare.now)) }
{
    let writers = writers(alloc, bare, pairs)?;
    let Ok(stated) = stated(alloc, view, held) else {
        drop(writers);
        return Err(Memory);
    };
    let tasks = with_parents(alloc, &writers, &stated, bare);
    drop(stated);
    drop(writers);
    tasks
}

/// The tasks, with their parents.
fn all_tasks(
    alloc: Global,
    view: &View<'_>,
    tables: &Tables,
    jobs: &[PlanJob],
    pairs: &[Pair],
    kinds: &[TaskKind],
) -> Result<Items<Task>, Memory>
    requires draft { IsDraft (draft_of view.now) }
    requires tables { AreTables (draft_of view.now) tables.now }
    requires pairs { pairs.now ≡ pairs_of (draft_of view.now) }
    requires kinds { kinds.now ≡ kinds_of (draft_of view.now) }
    requires few { length kinds.now < 2 ^ 32 }
    ensures { IfOk result (λ ts. AreTasks (draft_of view.now) jobs.now ts) }
{
    let bare = tasks_of(alloc, jobs, pairs, kinds)?;
    let tasks = with_all_parents(alloc, view, &tables.held, pairs.len(), &bare);
    drop(bare);
    tasks
}

fn plan_of(
    alloc: Global,
    view: &View<'_>,
    tables: &Tables,
    pairs: Items<Pair>,
    kinds: &[TaskKind],
) -> Result<Plan, Memory>
    requires draft { IsDraft (draft_of view.now) }
    requires tables { AreTables (draft_of view.now) tables.now }
    requires pairs { pairs ≡ pairs_of (draft_of view.now) }
    requires kinds { kinds.now ≡ kinds_of (draft_of view.now) }
    requires few { length kinds.now < 2 ^ 32 }
    ensures { IfOk result (λ p. IsRefined (draft_of view.now) p) }
{
    let workflow = view.workflow.name.copied(alloc)?;
    let sites = sites_of(alloc, view.request.execute.as_slice())?;
    let files = files_of(alloc, view, tables)?;
    let jobs = jobs_of(alloc, view)?;
    let tasks = all_tasks(
        alloc,
        view,
        tables,
        jobs.as_slice(),
        pairs.as_slice(),
        kinds,
    )?;
    Ok(Plan {
        workflow,
        sites,
        files,
        jobs,
        pairs,
        tasks,
        policy: policy_copied(&view.request.policy),
    })
}

/// How many tasks there are: the parts, what moves, and what is delivered.
fn count_tasks(view: &View<'_>, moved: &[(u32, u32)], requested: &[u32]) -> u64
    requires few_parts { length view.now.parts.now < 2 ^ 32 }
    requires few_moved { length moved.now < 2 ^ 32 }
    requires few_requested { length requested.now < 2 ^ 32 }
    ensures { result ≡ length view.now.parts.now + (length moved.now + length requested.now) }
{
    view.parts.len() as u64 + (moved.len() as u64 + requested.len() as u64)
}

/// How many Cleans are added later.
fn count_cleans(cleanup: &Cleanup, pairs: &[Pair]) -> u64
    ensures { result ≡ count_cleans cleanup.now (length pairs.now) }
{
    match cleanup {
        Cleanup::None => 0,
        Cleanup::Inplace | Cleanup::Constraint => pairs.len() as u64,
    }
}

/// How many tasks there are with the Cleans that are added later.
fn count_all(view: &View<'_>, tables: &Tables, moved: &[(u32, u32)], pairs: &[Pair]) -> u64
    requires draft { IsDraft (draft_of view.now) }
    requires tables { AreTables (draft_of view.now) tables.now }
    requires moved { moved.now ≡ grid (count_files (draft_of view.now)) (count_execution_sites (draft_of view.now))
        (moves (draft_of view.now)) }
    requires pairs { pairs.now ≡ pairs_of (draft_of view.now) }
    ensures { result ≡ count_all (draft_of view.now) }
{
    let tasks = count_tasks(view, moved, &tables.requested);
    let cleans = count_cleans(&view.request.cleanup, pairs);
    tasks + cleans
}

fn plan_without_fault(
    alloc: Global,
    view: &View<'_>,
    tables: &Tables,
    moved: &[(u32, u32)],
    pairs: Items<Pair>,
) -> Result<Plan, Memory>
    requires draft { IsDraft (draft_of view.now) }
    requires graph { IsGraphOf view.now.workflow.now view.now.graph.now }
    requires tables { AreTables (draft_of view.now) tables.now }
    requires moved { moved.now ≡ grid (count_files (draft_of view.now)) (count_execution_sites (draft_of view.now))
        (moves (draft_of view.now)) }
    requires pairs { pairs ≡ pairs_of (draft_of view.now) }
    requires few { length (kinds_of (draft_of view.now)) < 2 ^ 32 }
    ensures { IfOk result (λ p. IsRefined (draft_of view.now) p) }
{
    let Ok(kinds) = kinds_of(alloc, view, tables, moved) else {
        drop(pairs);
        return Err(Memory);
    };
    let plan = plan_of(alloc, view, tables, pairs, &kinds);
    drop(kinds);
    plan
}

fn plan_or_fault(
    alloc: Global,
    view: &View<'_>,
    tables: &Tables,
    moved: &[(u32, u32)],
    pairs: Items<Pair>,
    limit: u64,
) -> Result<Plan, RefineFault>
    requires draft { IsDraft (draft_of view.now) }
    requires graph { IsGraphOf view.now.workflow.now view.now.graph.now }
    requires tables { AreTables (draft_of view.now) tables.now }
    requires moved { moved.now ≡ grid (count_files (draft_of view.now)) (count_execution_sites (draft_of view.now))
        (moves (draft_of view.now)) }
    requires pairs { pairs ≡ pairs_of (draft_of view.now) }
    requires few { limit < 2 ^ 32 }
    ensures { Refines (draft_of view.now) limit result }
{
    let count = count_all(view, tables, moved, pairs.as_slice());
    match first_fault(alloc, view, tables, count, limit) {
        Ok(None) => Ok(plan_without_fault(alloc, view, tables, moved, pairs)?),
        Ok(Some(fault)) => {
            drop(pairs);
            Err(fault)
        }
        Err(Memory) => {
            drop(pairs);
            Err(RefineFault::Memory)
        }
    }
}

fn refined_over(
    alloc: Global,
    view: &View<'_>,
    tables: &Tables,
    limit: u64,
) -> Result<Plan, RefineFault>
    requires draft { IsDraft (draft_of view.now) }
    requires graph { IsGraphOf view.now.workflow.now view.now.graph.now }
    requires tables { AreTables (draft_of view.now) tables.now }
    requires few { limit < 2 ^ 32 }
    ensures { Refines (draft_of view.now) limit result }
{
    let moved = moved(alloc, view, tables)?;
    let Ok(pairs) = pairs_of(alloc, view, tables) else {
        drop(moved);
        return Err(RefineFault::Memory);
    };
    let plan = plan_or_fault(alloc, view, tables, &moved, pairs, limit);
    drop(moved);
    plan
}

fn refined(alloc: Global, view: &View<'_>, limit: u64) -> Result<Plan, RefineFault>
    requires draft { IsDraft (draft_of view.now) }
    requires graph { IsGraphOf view.now.workflow.now view.now.graph.now }
    requires few { limit < 2 ^ 32 }
    ensures { Refines (draft_of view.now) limit result }
{
    let tables = tables_of(alloc, view)?;
    let plan = refined_over(alloc, view, &tables, limit);
    drop(tables);
    plan
}

/// The plan, without Cleans, or its first fault. `limit` is that on tasks, Cleans among them.
pub fn refine(
    alloc: Global,
    workflow: &Workflow,
    graph: &Graph,
    clusters: &Clusters,
    sites: &[Option<SiteId>],
    replicas: &ReplicaCatalog,
    request: &PlanRequest,
    limit: u64,
) -> Result<Plan, RefineFault>
    requires draft { IsDraft (planned workflow.now clusters.now sites.now replicas.now request.now) }
    requires graph { IsGraphOf workflow.now graph.now }
    requires few { limit < 2 ^ 32 }
    ensures plan { Refines (planned workflow.now clusters.now sites.now replicas.now request.now) limit
        result }
    ensures proper { IfOk result (λ p. IsProper p) }
{
    let view = View {
        workflow,
        graph,
        parts: clusters.parts.as_slice(),
        sites,
        replicas: Replicas::new(alloc, replicas)?,
        request,
    };
    let plan = refined(alloc, &view, limit);
    drop(view);
    plan
}
