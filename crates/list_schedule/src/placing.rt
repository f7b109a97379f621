//! The kept jobs, placed one after the other.

ghost use Rattle.std.specs.Prelude.{◌≡◌, ◌+◌, ◌<◌, ◌≤◌, ◌^◌, ℕ, List, true, false, length, vec_len, IfOk, All};
ghost use Rattle.values.specs.declared.numbers.JobId.{JobId};
ghost use Rattle.workflow_core.specs.declared.workflow.Workflow.{Workflow};
ghost use Rattle.workflow_core.specs.code.WellFormed.{IsWellFormed};
ghost use Rattle.digraph.specs.Adjacency.{has_node, neighbours};
ghost use Rattle.digraph.specs.code.Adjacency.{lists_of};
ghost use Rattle.dependency_graph.specs.Graph.{IsGraphOf, jobs_at, numbers};
ghost use Rattle.dependency_graph.specs.Levels.{is_kept};
ghost use Rattle.list_schedule.specs.declared.arrivals.Latest.{Latest};
ghost use Rattle.list_schedule.specs.Estimates.{Estimates};
ghost use Rattle.list_schedule.specs.Ranks.{AreRanks, IsRankOrder};
ghost use Rattle.list_schedule.specs.Schedule.{IsHeft};
ghost use Rattle.list_schedule.specs.code.Arrivals.{latest_at, elsewhere, finish_of, IsEarliest};
ghost use Rattle.list_schedule.specs.code.Board.{AreSmall, schedule_of, IsEmpty, IsLong, ArePlaced, IsUntouched};
ghost use Rattle.list_schedule.specs.code.Tables.{AreFull, AreCosts, AreCandidates, AreSites};

use crate::arrivals::arrivals_of;
use crate::board::{Board, empty};
use crate::choice::{Slot, earliest};
use crate::heft::Heft;
use dependency_graph::Graph;
use std::alloc::Global;
use values::{JobId, Memory, SiteId};

fn slot_for(
    kept: &[bool],
    sites: &[Option<SiteId>],
    finishes: &[u128],
    free: &[u128],
    parents: &[JobId],
    moves: &[u64],
    candidates: &[u32],
    times: &[u64],
) -> Slot
    requires in_range { All (λ (p : JobId). p.0 < length kept.now) parents.now }
    requires sites { length sites.now ≡ length kept.now }
    requires finishes { length finishes.now ≡ length kept.now }
    requires parents { length moves.now ≡ length parents.now }
    requires some { 0 < length candidates.now }
    requires below { All (λ s. s < length free.now) candidates.now }
    requires one_each { length times.now ≡ length candidates.now }
    requires small { (a : ℕ) → finish_of finishes.now a ≤ 2 ^ 90 }
    requires small_free { (s : ℕ) → finish_of free.now s ≤ 2 ^ 90 }
    ensures earliest { (x : Latest)
        × ((s : ℕ) → latest_at x s
        ≡ elsewhere kept.now sites.now finishes.now s parents.now moves.now)
        × IsEarliest candidates.now times.now free.now x result (length candidates.now) }
    ensures small { (n : ℕ) → ((a : ℕ) → finish_of finishes.now a ≤ n)
        → ((s : ℕ) → finish_of free.now s ≤ n) → result.finish ≤ n + 2 ^ 65 }
    ensures site { result.site < length free.now }
{
    let arrivals = arrivals_of(kept, sites, finishes, parents, moves);
    let slot = earliest(candidates, times, free, &arrivals);
    slot
}

/// Where the next job is to run, and when.
fn slot_of(
    graph: &Graph,
    kept: &[bool],
    candidates: &[Vec<u32>],
    times: &[Vec<u64>],
    moves: &[Vec<u64>],
    board: &Board,
    job: JobId,
) -> Slot
    requires job { is_kept kept.now job.0 ≡ true }
    requires within { job.0 < length kept.now }
    requires kept { length kept.now ≡ length graph.now.parents }
    requires full { AreFull graph.now kept.now (lists_of times.now) (lists_of moves.now) }
    requires candidates { AreSites kept.now (vec_len board.now.free) (lists_of candidates.now)
        (lists_of times.now) }
    requires parents { All (λ (p : JobId). p.0 < length kept.now)
        (jobs_at graph.now.parents job.0) }
    requires long { IsLong board.now (length kept.now) }
    requires small { AreSmall board.now (2 ^ 90) }
    ensures earliest { (x : Latest)
        × ((s : ℕ) → latest_at x s
        ≡ elsewhere kept.now board.now.sites.items board.now.finishes.items s
        (jobs_at graph.now.parents job.0) (neighbours (lists_of moves.now) job.0))
        × IsEarliest (neighbours (lists_of candidates.now) job.0)
        (neighbours (lists_of times.now) job.0) board.now.free.items x result
        (length (neighbours (lists_of candidates.now) job.0)) }
    ensures small { (n : ℕ) → AreSmall board.now n → result.finish ≤ n + 2 ^ 65 }
    ensures site { result.site < vec_len board.now.free }
{
    let place = job.0 as usize;
    slot_for(
        kept,
        board.sites.as_slice(),
        board.finishes.as_slice(),
        board.free.as_slice(),
        graph.parents(job),
        moves[place].as_slice(),
        candidates[place].as_slice(),
        times[place].as_slice(),
    )
}

fn place_all(
    graph: &Graph,
    kept: &[bool],
    candidates: &[Vec<u32>],
    times: &[Vec<u64>],
    moves: &[Vec<u64>],
    order: &[JobId],
    board: &mut Board,
)
    requires graph { (w : Workflow) × IsWellFormed w × IsGraphOf w graph.now }
    requires kept { length kept.now ≡ length graph.now.parents }
    requires full { AreFull graph.now kept.now (lists_of times.now) (lists_of moves.now) }
    requires candidates { AreSites kept.now (vec_len board.old.free) (lists_of candidates.now)
        (lists_of times.now) }
    requires order { (ranks : List ℕ) × IsRankOrder kept.now ranks (numbers order.now) }
    requires empty { IsEmpty board.old (length kept.now) (vec_len board.old.free) }
    ensures long { IsLong board.new (length kept.now) }
    ensures placed { (e : Estimates) (ranks : List ℕ)
        → AreCosts graph.now kept.now e (lists_of times.now) (lists_of moves.now)
        → AreCandidates kept.now e (lists_of candidates.now)
        → AreRanks graph.now kept.now e ranks → IsRankOrder kept.now ranks (numbers order.now)
        → ArePlaced graph.now kept.now e board.new order.now (length order.now) }
    ensures others { (a : ℕ) → has_node a (numbers order.now) ≡ false → IsUntouched board.new a }
{
    for job in order {
        let slot = slot_of(graph, kept, candidates, times, moves, board, *job);
        board.put(*job, &slot);
    }
}

/// The schedule of the kept jobs in this order, over so many sites.
pub fn placed(
    alloc: Global,
    graph: &Graph,
    kept: &[bool],
    candidates: &[Vec<u32>],
    times: &[Vec<u64>],
    moves: &[Vec<u64>],
    order: Vec<JobId>,
    sites: usize,
) -> Result<Heft, Memory>
    requires graph { (w : Workflow) × IsWellFormed w × IsGraphOf w graph.now }
    requires kept { length kept.now ≡ length graph.now.parents }
    requires full { AreFull graph.now kept.now (lists_of times.now) (lists_of moves.now) }
    requires candidates { AreSites kept.now sites (lists_of candidates.now) (lists_of times.now) }
    requires order { (ranks : List ℕ) × IsRankOrder kept.now ranks (numbers order.items) }
    ensures { (e : Estimates) (ranks : List ℕ)
        → AreCosts graph.now kept.now e (lists_of times.now) (lists_of moves.now)
        → AreCandidates kept.now e (lists_of candidates.now)
        → AreRanks graph.now kept.now e ranks → IsRankOrder kept.now ranks (numbers order.items)
        → IfOk result (λ h. IsHeft graph.now kept.now e (schedule_of h)) }
{
    let mut board = empty(alloc, kept.len(), sites)?;
    place_all(
        graph,
        kept,
        candidates,
        times,
        moves,
        order.as_slice(),
        &mut board,
    );
    let Board {
        sites,
        starts,
        finishes,
        free: _,
    } = board;
    Ok(Heft {
        sites,
        order,
        starts,
        finishes,
    })
}
