//! Whether tasks are proper among each other: writers, Cleans, deliveries and parents.

ghost use Rattle.std.specs.Prelude.{◌≡◌, ◌<◌, ◌≤◌, ◌&&◌, ◌||◌, ◌^◌, ℕ, List, Vec, true, false, length, map, take, nat_eq, nat_le, nat_lt, slice_get, is_some, IfOk};
ghost use Rattle.std.specs.Bool.{Decides};
ghost use Rattle.std.specs.List.{list_all};
ghost use Rattle.std.specs.declared.alloc.Global.{Global};
ghost use Rattle.digraph.specs.code.Adjacency.{lists_of};
ghost use Rattle.digraph.specs.Adjacency.{neighbours, AreNeighbours};
ghost use Rattle.digraph.specs.Cycle.{Returns};
ghost use Rattle.digraph.specs.code.Digraph.{count, edge};
ghost use Rattle.plan_core.specs.code.Flow.{are_allowed, includes, parents_fit, HasOneWriter, HasOrder};
ghost use Rattle.plan_core.specs.code.Listing.{listed, nodes};
ghost use Rattle.plan_core.specs.Numbers.{has};
ghost use Rattle.plan_core.specs.code.Numbers.{RisesFrom};
ghost use Rattle.plan_core.specs.code.Proper.{is_parent, is_written, AreParents, HasFlow, HasTables, IsTask};
ghost use Rattle.plan_core.specs.Words.{count_pairs, count_tasks, is_run, parents, writes};
ghost use Rattle.plan_core.specs.Kinds.{waits_for};

use crate::listing::{Listing, awaited_lists, graph, neighbours, tasks_listed};
use crate::plan::Plan;
use crate::rising::{is_among, is_rising};
use digraph::Digraph;
use std::alloc::Global;
use values::{Memory, TaskId};

fn have_one(lists: &[Vec<u32>], count: usize) -> bool
    requires { count ≤ length lists.now }
    ensures { result ≡ list_all (λ (v : Vec ℕ Global). nat_eq (length v.items) 1) (take count lists.now) }
{
    lists[..count].iter().all(|list| list.len() == 1)
}

fn have_few(lists: &[Vec<u32>]) -> bool
    ensures { result ≡ list_all (λ (v : Vec ℕ Global). nat_le (length v.items) 1) lists.now }
{
    lists.iter().all(|list| list.len() <= 1)
}

/// Whether each pair has one writer, given the graph of what is written.
fn has_one_writer(plan: &Plan, written: &Digraph) -> bool
    requires count { count written.now ≡ nodes plan.now }
    requires in_range { (t q : ℕ) → has (writes plan.now t) q ≡ true → q < count_pairs plan.now }
    requires edges { (q t : ℕ) → edge written.now q t ≡ has (listed plan.now Listing.Writes t) q }
    ensures { Decides result (HasOneWriter plan.now) }
{
    have_one(written.successors(), plan.pairs.as_slice().len())
}

/// Whether no two tasks list the same number.
fn lists_once(alloc: Global, plan: &Plan, listing: Listing) -> Result<bool, Memory>
    requires few { nodes plan.now < 2 ^ 32 }
    requires in_range { (t x : ℕ) → has (listed plan.now listing t) x ≡ true → x < nodes plan.now }
    ensures { IfOk result (λ b. Decides b ((t u x : ℕ) → has (listed plan.now listing t) x ≡ true
        → has (listed plan.now listing u) x ≡ true → t ≡ u)) }
{
    let made = graph(alloc, plan, listing)?;
    Ok(have_few(made.successors()))
}

/// The graph in which an edge leads to each task from those that it waits for.
fn awaited(alloc: Global, plan: &Plan, written: &Digraph, read: &Digraph) -> Result<Digraph, Memory>
    requires few { nodes plan.now < 2 ^ 32 }
    requires written_count { count written.now ≡ nodes plan.now }
    requires read_count { count read.now ≡ nodes plan.now }
    requires written { (q t : ℕ) → edge written.now q t ≡ has (listed plan.now Listing.Writes t) q }
    requires read { (q t : ℕ) → edge read.now q t ≡ has (listed plan.now Listing.Reads t) q }
    ensures count { IfOk result (λ g. count g ≡ nodes plan.now) }
    ensures edges { IfOk result (λ g. (u t : ℕ) → edge g u t ≡ waits_for plan.now t u) }
{
    let lists = awaited_lists(alloc, plan, written.successors(), read.successors())?;
    let made = Digraph::new(alloc, &lists)?;
    Ok(made)
}

/// Whether each of the needed numbers is among those that are listed, which rise.
fn includes(listed: &[u32], needed: &[u32]) -> bool
    requires { RisesFrom 0 listed.now }
    ensures { result ≡ includes listed.now needed.now }
{
    for number in needed {
        if !is_among(listed, *number) {
            return false;
        }
    }
    true
}

/// Whether a task may wait for each of the listed ones; the needed ones rise.
fn are_allowed(plan: &Plan, listed: &[u32], needed: &[u32], task: TaskId) -> bool
    requires { RisesFrom 0 needed.now }
    ensures { result ≡ are_allowed plan.now listed.now needed.now task.0 }
{
    let runs = plan.is_run(task);
    for number in listed {
        if !is_among(needed, *number) && !(runs && plan.is_run(TaskId(*number))) {
            return false;
        }
    }
    true
}

fn are_below(numbers: &[u32], count: usize) -> bool
    ensures { result ≡ list_all (λ n. nat_lt n count) numbers.now }
{
    numbers.iter().all(|number| (*number as usize) < count)
}

fn fit(plan: &Plan, listed: &[u32], needed: &[u32], task: TaskId) -> bool
    requires { RisesFrom 0 needed.now }
    ensures { result ≡ parents_fit plan.now listed.now needed.now task.0 }
{
    if is_rising(listed) {
        are_below(listed, plan.tasks.as_slice().len())
            && includes(listed, needed)
            && are_allowed(plan, listed, needed, task)
    } else {
        false
    }
}

/// Whether a task's parents are right, given those that it waits for, which rise.
fn own_parents(alloc: Global, plan: &Plan, needed: &[u32], task: TaskId) -> Result<bool, Memory>
    requires rises { RisesFrom 0 needed.now }
    requires needed { (u : ℕ) → has needed.now u ≡ waits_for plan.now task.0 u }
    ensures { IfOk result (λ b. Decides b (AreParents plan.now task.0)) }
{
    let listed = tasks_listed(alloc, plan.parents(task))?;
    Ok(fit(plan, &listed, needed, task))
}

/// Whether each task's parents are right, given for each those that it waits for.
fn are_parents(alloc: Global, plan: &Plan, needed: &Digraph) -> Result<bool, Memory>
    requires few { count_tasks plan.now < 2 ^ 32 }
    requires edges { (u t : ℕ) → edge needed.now u t ≡ waits_for plan.now t u }
    ensures { IfOk result (λ b. Decides b ((t : ℕ) → AreParents plan.now t)) }
{
    let lists = needed.predecessors();
    for t in 0..plan.tasks.as_slice().len() {
        let right = own_parents(alloc, plan, neighbours(lists, t as u32), TaskId(t as u32))?;
        if !right {
            return Ok(false);
        }
    }
    Ok(true)
}

/// Whether no task comes back to itself by its parents and theirs.
fn is_acyclic(alloc: Global, plan: &Plan) -> Result<bool, Memory>
    requires few { nodes plan.now < 2 ^ 32 }
    requires in_range { (t x : ℕ) → has (listed plan.now Listing.Parents t) x ≡ true → x < nodes plan.now }
    ensures { IfOk result (λ b. Decides b ((t : ℕ) → Returns (is_parent plan.now) t → ⊥)) }
{
    let made = graph(alloc, plan, Listing::Parents)?;
    let order = made.topological_order(alloc)?;
    Ok(order.is_some())
}

/// Whether tasks wait for the right ones, given the graph of what is written.
fn has_order(alloc: Global, plan: &Plan, written: &Digraph) -> Result<bool, Memory>
    requires tables { HasTables plan.now }
    requires tasks { (t : ℕ) → IsTask plan.now (slice_get plan.now.tasks t) }
    requires count { count written.now ≡ nodes plan.now }
    requires written { (q t : ℕ) → edge written.now q t ≡ has (listed plan.now Listing.Writes t) q }
    ensures { IfOk result (λ b. Decides b (HasOrder plan.now)) }
{
    let read = graph(alloc, plan, Listing::Reads)?;
    let needed = awaited(alloc, plan, written, &read)?;
    let parents = are_parents(alloc, plan, &needed)?;
    if !parents {
        return Ok(false);
    }
    let acyclic = is_acyclic(alloc, plan)?;
    Ok(acyclic)
}

/// Whether each pair has one writer and at most one Clean, each file at most one delivery, and tasks wait for the
/// right ones.
pub fn has_flow(alloc: Global, plan: &Plan) -> Result<bool, Memory>
    requires tables { HasTables plan.now }
    requires tasks { (t : ℕ) → IsTask plan.now (slice_get plan.now.tasks t) }
    ensures { IfOk result (λ b. Decides b (HasFlow plan.now)) }
{
    let cleans = lists_once(alloc, plan, Listing::Cleaned)?;
    if !cleans {
        return Ok(false);
    }
    let deliveries = lists_once(alloc, plan, Listing::Delivered)?;
    if !deliveries {
        return Ok(false);
    }
    let written = graph(alloc, plan, Listing::Writes)?;
    let writers = has_one_writer(plan, &written);
    if !writers {
        return Ok(false);
    }
    let order = has_order(alloc, plan, &written)?;
    Ok(order)
}
