//! The schedule of jobs of which all estimates are known.

ghost use Rattle.std.specs.Prelude.{◌≡◌, length, IfOk};
ghost use Rattle.workflow_core.specs.declared.workflow.Workflow.{Workflow};
ghost use Rattle.workflow_core.specs.code.WellFormed.{IsWellFormed};
ghost use Rattle.digraph.specs.code.Adjacency.{lists_of};
ghost use Rattle.dependency_graph.specs.Graph.{IsGraphOf};
ghost use Rattle.list_schedule.specs.Estimates.{Estimates};
ghost use Rattle.list_schedule.specs.Schedule.{IsHeft};
ghost use Rattle.list_schedule.specs.code.Board.{schedule_of};
ghost use Rattle.list_schedule.specs.code.Tables.{AreFull, AreCosts, AreCandidates, AreSites};

use crate::heft::Heft;
use crate::order::by_rank;
use crate::placing::placed;
use crate::ranks::upward_ranks;
use dependency_graph::Graph;
use std::alloc::Global;
use values::Memory;

/// The schedule over so many sites, by tables: of each job the sites where it can run, beside them
/// its times there, and beside its parents the moves from them, in seconds.
pub fn schedule_by(
    alloc: Global,
    graph: &Graph,
    kept: &[bool],
    candidates: &[Vec<u32>],
    times: &[Vec<u64>],
    moves: &[Vec<u64>],
    sites: usize,
) -> Result<Heft, Memory>
    requires graph { (w : Workflow) × IsWellFormed w × IsGraphOf w graph.now }
    requires kept { length kept.now ≡ length graph.now.parents }
    requires full { AreFull graph.now kept.now (lists_of times.now) (lists_of moves.now) }
    requires candidates { AreSites kept.now sites (lists_of candidates.now) (lists_of times.now) }
    ensures { (e : Estimates)
        → AreCosts graph.now kept.now e (lists_of times.now) (lists_of moves.now)
        → AreCandidates kept.now e (lists_of candidates.now)
        → IfOk result (λ h. IsHeft graph.now kept.now e (schedule_of h)) }
{
    let ranks = upward_ranks(alloc, graph, kept, times, moves)?;
    let order = by_rank(alloc, kept, &ranks)?;
    let heft = placed(alloc, graph, kept, candidates, times, moves, order, sites)?;
    Ok(heft)
}
