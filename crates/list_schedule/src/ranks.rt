//! Upward ranks, from the last job of the graph's order to the first.

ghost use Rattle.std.specs.Prelude.{◌≡◌, ◌+◌, ◌/◌, ◌<◌, ◌≤◌, ◌*◌, ◌^◌, ℕ, max, cond, eqb, true, false, length, sum, replicate, IfOk, All};
ghost use Rattle.values.specs.declared.numbers.JobId.{JobId};
ghost use Rattle.workflow_core.specs.declared.workflow.Workflow.{Workflow};
ghost use Rattle.workflow_core.specs.code.WellFormed.{IsWellFormed};
ghost use Rattle.digraph.specs.code.Adjacency.{lists_of};
ghost use Rattle.digraph.specs.Adjacency.{neighbours};
ghost use Rattle.dependency_graph.specs.Graph.{IsGraphOf, jobs_at};
ghost use Rattle.dependency_graph.specs.Levels.{is_kept};
ghost use Rattle.list_schedule.specs.Estimates.{Estimates};
ghost use Rattle.list_schedule.specs.Ranks.{rank, AreRanks};
ghost use Rattle.list_schedule.specs.code.Tables.{AreFull, AreCosts, reach, rank_by};

use dependency_graph::Graph;
use std::alloc::Global;
use values::{JobId, Memory};

/// The mean of some times, rounded down.
fn mean(times: &[u64]) -> u128
    requires some { 0 < length times.now }
    ensures mean { result ≡ sum times.now / length times.now }
    ensures small { result < 2 ^ 64 }
{
    let mut total: u128 = 0;
    for time in times {
        total += *time as u128;
    }
    total / times.len() as u128
}

fn added(reached: u128, seconds: u64) -> u128
    requires { reached < 2 ^ 100 }
    ensures sum { result ≡ seconds + reached }
    ensures small { result < reached + 2 ^ 64 }
{
    seconds as u128 + reached
}

/// Lets a job reach so far.
#[tactic(auto, using(crate::proofs::SetLemmas::raised_at))]
fn lift(ranks: &mut [u128], job: JobId, far: u128)
    requires { job.0 < length ranks.old }
    ensures { (a : ℕ) → rank ranks.new a ≡ max (rank ranks.old a) (cond (eqb job.0 a) far 0) }
{
    let old = ranks[job.0 as usize];
    ranks[job.0 as usize] = old.max(far);
}

/// Lets each of some jobs reach as far as a rank and the move to it.
fn raise(ranks: &mut [u128], parents: &[JobId], moves: &[u64], reached: u128)
    requires in_range { All (λ (p : JobId). p.0 < length ranks.old) parents.now }
    requires one_each { length moves.now ≡ length parents.now }
    requires small { reached < 2 ^ 100 }
    ensures each { (a : ℕ)
        → rank ranks.new a ≡ max (rank ranks.old a) (reach parents.now moves.now reached a) }
    ensures small { (n : ℕ) → reached ≤ n → ((a : ℕ) → rank ranks.old a ≤ n) → (a : ℕ)
        → rank ranks.new a ≤ n + 2 ^ 64 }
{
    for (place, parent) in parents.iter().enumerate() {
        lift(ranks, *parent, added(reached, moves[place]));
    }
}

/// The rank of a job, of which the parents hear.
fn rank_job(graph: &Graph, times: &[Vec<u64>], moves: &[Vec<u64>], ranks: &mut [u128], job: JobId)
    requires job { job.0 < length ranks.old }
    requires times { length times.now ≡ length ranks.old }
    requires moves { length moves.now ≡ length ranks.old }
    requires parents { length graph.now.parents ≡ length ranks.old }
    requires some { 0 < length (neighbours (lists_of times.now) job.0) }
    requires in_range { All (λ (p : JobId). p.0 < length ranks.old)
        (jobs_at graph.now.parents job.0) }
    requires one_each { length (neighbours (lists_of moves.now) job.0)
        ≡ length (jobs_at graph.now.parents job.0) }
    requires small { rank ranks.old job.0 < 2 ^ 90 }
    ensures ranked { let r = rank_by (lists_of times.now) ranks.old job.0 in
        (a : ℕ) → rank ranks.new a
        ≡ max (cond (eqb job.0 a) r (rank ranks.old a))
        (reach (jobs_at graph.now.parents job.0) (neighbours (lists_of moves.now) job.0) r a) }
    ensures small { (n : ℕ) → ((a : ℕ) → rank ranks.old a ≤ n) → (a : ℕ)
        → rank ranks.new a ≤ n + 2 ^ 65 }
{
    let found = mean(times[job.0 as usize].as_slice()) + ranks[job.0 as usize];
    ranks[job.0 as usize] = found;
    raise(
        ranks,
        graph.parents(job),
        moves[job.0 as usize].as_slice(),
        found,
    );
}

/// The same of a job that is kept.
fn rank_next(
    graph: &Graph,
    kept: &[bool],
    times: &[Vec<u64>],
    moves: &[Vec<u64>],
    ranks: &mut [u128],
    job: JobId,
)
    requires job { job.0 < length kept.now }
    requires kept { length kept.now ≡ length graph.now.parents }
    requires long { length ranks.old ≡ length kept.now }
    requires full { AreFull graph.now kept.now (lists_of times.now) (lists_of moves.now) }
    requires in_range { All (λ (p : JobId). p.0 < length kept.now)
        (jobs_at graph.now.parents job.0) }
    requires small { rank ranks.old job.0 < 2 ^ 90 }
    ensures kept { is_kept kept.now job.0 ≡ true
        → let r = rank_by (lists_of times.now) ranks.old job.0 in
        (a : ℕ) → rank ranks.new a
        ≡ max (cond (eqb job.0 a) r (rank ranks.old a))
        (reach (jobs_at graph.now.parents job.0) (neighbours (lists_of moves.now) job.0) r a) }
    ensures dropped { is_kept kept.now job.0 ≡ false → ranks.new ≡ ranks.old }
    ensures small { (n : ℕ) → ((a : ℕ) → rank ranks.old a ≤ n) → (a : ℕ)
        → rank ranks.new a ≤ n + 2 ^ 65 }
{
    if kept[job.0 as usize] {
        rank_job(graph, times, moves, ranks, job);
    }
}

fn rank_all(
    graph: &Graph,
    kept: &[bool],
    times: &[Vec<u64>],
    moves: &[Vec<u64>],
    ranks: &mut [u128],
)
    requires graph { (w : Workflow) × IsWellFormed w × IsGraphOf w graph.now }
    requires kept { length kept.now ≡ length graph.now.parents }
    requires full { AreFull graph.now kept.now (lists_of times.now) (lists_of moves.now) }
    requires zeros { ranks.old ≡ replicate (length kept.now) 0 }
    ensures ranks { (e : Estimates)
        → AreCosts graph.now kept.now e (lists_of times.now) (lists_of moves.now)
        → AreRanks graph.now kept.now e ranks.new }
    ensures small { (a : ℕ) → rank ranks.new a ≤ 2 ^ 80 }
{
    let ordered = graph.ordered();
    for done in 0..ordered.len() {
        let job = ordered[ordered.len() - 1 - done];
        rank_next(graph, kept, times, moves, ranks, job);
    }
}

/// The upward rank of each kept job, in seconds.
pub fn upward_ranks(
    alloc: Global,
    graph: &Graph,
    kept: &[bool],
    times: &[Vec<u64>],
    moves: &[Vec<u64>],
) -> Result<Vec<u128>, Memory>
    requires graph { (w : Workflow) × IsWellFormed w × IsGraphOf w graph.now }
    requires kept { length kept.now ≡ length graph.now.parents }
    requires full { AreFull graph.now kept.now (lists_of times.now) (lists_of moves.now) }
    ensures ranks { (e : Estimates)
        → AreCosts graph.now kept.now e (lists_of times.now) (lists_of moves.now)
        → IfOk result (λ v. AreRanks graph.now kept.now e v.items) }
    ensures small { IfOk result (λ v. (a : ℕ) → rank v.items a ≤ 2 ^ 80) }
    ensures long { IfOk result (λ v. length v.items ≡ length kept.now) }
{
    let mut ranks = vec![in alloc; 0; kept.len()]?;
    rank_all(graph, kept, times, moves, &mut ranks);
    Ok(ranks)
}
