//! A run of a plan by several workers.

ghost use Rattle.std.specs.Prelude.{◌≡◌, ◌<◌, ◌≤◌, ◌⊎◌, [], drop, false, length, take, true};
ghost use Rattle.plan_core.specs.Words.{retries, task_numbers};
ghost use Rattle.lease_book.specs.Book.{state_at};
ghost use Rattle.lease_rules.specs.Legal.{IsComplete};
ghost use Rattle.plan_run.specs.code.Moments.{counting, crew_moment, first_shown, work_moment, working};
ghost use Rattle.plan_run.specs.code.Running.{EndsAs, HasRun, ReportsSince, marked_if, reporting};

use crate::law::deliveries_stay_within_the_output;
use crate::members::{put_back, take_members};
use crate::running::{Ran, end_run, out_of_memory, refuse_run};
use craft::{Crew, Gate};
use lease_rules::{legal_records_are_safe, ordered_plans_fit};
use outside::{Host, Memory, Tool};
use site_yard::{Yard, what_is_left_is_held};
use std::alloc::Global;
use std::sync::Wait;
use std::thread::Threads;
use storage_simulation::Ordered;
use worker_gate::{ManyEnd, run_many};

/// What came of a run, and its members.
struct RanBy<H: Host, T: Tool, G: Gate> {
    ran: Ran<H>,
    members: Vec<Crew<T, G>>,
}

/// The end and the report of a run that is over, or that there was no memory to begin, and its host.
fn end_many<H: Host, T: Tool>(alloc: Global, yard: Yard<H, T>, unstarted: bool) -> Ran<H>
    requires over { unstarted ≡ false
        → IsComplete yard.ordered.value.plan (state_at yard.book) ⊎ ((state_at yard.book).failing ≡ true) }
    ensures ends { EndsAs yard.ordered.value.plan
        (task_numbers yard.ordered.value.tasks.items) yard.book.history.events result.end }
    ensures reports { ReportsSince T.apply yard.ordered.value.plan (take yard.opened yard.book.history.events)
        (drop yard.opened yard.book.history.events)
        (marked_if (H.told yard.host) (H.marked yard.host))
        (reporting result.history result.text.items result.delivered.items) result.end }
    ensures host { result.host ≡ yard.host }
{
    if unstarted {
        return out_of_memory(alloc, yard.into_host());
    }
    end_run(alloc, yard)
}

/// Runs a plan with its order, with a worker for each member.
fn run_members<R: Threads + Wait + Sync, H: Host + Send, T: Tool + Send, G: Gate + Send>(
    rt: &R,
    alloc: Global,
    ordered: Ordered,
    host: H,
    members: Vec<Crew<T, G>>,
) -> RanBy<H, T, G>
where
    H::Reading: Send,
    H::Draft: Send,
    requires retries { retries ordered.plan ≤ 10 }
    requires members { (0 < length members.items) × (length members.items ≤ 16) }
    ensures ran { let before = crew_moment T.Tool G.Gate members.items in
        let after = crew_moment T.Tool G.Gate result.members.items in
        ∥ HasRun (working T.apply T.known (work_moment H.Host host (first_shown before))
        (work_moment H.Host result.ran.host (first_shown after)))
        (counting before after) (length members.items) ordered.plan (task_numbers ordered.tasks.items)
        (reporting result.ran.history result.ran.text.items result.ran.delivered.items) result.ran.end ∥₁ }
    ensures members { length result.members.items ≡ length members.items }
{
    // Laws for the proof: they do nothing.
    ordered_plans_fit();
    legal_records_are_safe();
    what_is_left_is_held();
    deliveries_stay_within_the_output();
    match Yard::<H, T>::open(alloc, ordered, host) {
        Ok(yard) => {
            let end = run_many(rt, alloc, yard, members);
            let ManyEnd {
                yard,
                crew: members,
                unstarted,
            } = end;
            // What holds of every yard, for the proof.
            yard.agrees();
            let ran = end_many(alloc, yard, unstarted);
            RanBy { ran, members }
        }
        Err(refused) => RanBy {
            ran: refuse_run(alloc, refused),
            members,
        },
    }
}

/// Runs a plan with its order, with the first members of a crew as workers, each in a thread of its own. It joins them
/// all before it returns; it doesn't promise to end.
pub fn run_plan_by<R: Threads + Wait + Sync, H: Host + Send, T: Tool + Send, G: Gate + Send>(
    rt: &R,
    alloc: Global,
    workers: u32,
    ordered: Ordered,
    host: H,
    crew: &mut Vec<Crew<T, G>>,
) -> Ran<H>
where
    H::Reading: Send,
    H::Draft: Send,
    requires retries { retries ordered.plan ≤ 10 }
    requires workers { (0 < workers) × (workers ≤ 16) }
    requires crew { length crew.old.items ≡ 16 }
    ensures ran { let before = crew_moment T.Tool G.Gate crew.old.items in
        let after = crew_moment T.Tool G.Gate crew.new.items in
        ∥ HasRun (working T.apply T.known (work_moment H.Host host (first_shown before))
        (work_moment H.Host result.host (first_shown after)))
        (counting before after) workers ordered.plan (task_numbers ordered.tasks.items)
        (reporting result.history result.text.items result.delivered.items) result.end ∥₁ }
    ensures crew { length crew.new.items ≡ 16 }
    ensures others { drop workers crew.new.items ≡ drop workers crew.old.items }
{
    // Laws for the proof: they do nothing.
    ordered_plans_fit();
    legal_records_are_safe();
    what_is_left_is_held();
    deliveries_stay_within_the_output();
    match take_members(alloc, crew, workers as usize) {
        Ok(members) => {
            let RanBy { ran, members } = run_members(rt, alloc, ordered, host, members);
            put_back(members, crew);
            ran
        }
        Err(Memory) => out_of_memory(alloc, host),
    }
}
