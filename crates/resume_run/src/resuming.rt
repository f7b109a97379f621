//! A run that is gone on with from a record.

ghost use Rattle.std.specs.Prelude.{◌≡◌, ◌≤◌, [], Err, false, length, map};
ghost use Rattle.craft.specs.declared.crew.Crew.{Crew};
ghost use Rattle.plan_core.specs.Words.{count_tasks, retries, task_numbers};
ghost use Rattle.lease_book.specs.Book.{state_at};
ghost use Rattle.plan_run.specs.code.Moments.{counting, crew_moment, first_shown, work_moment, working};
ghost use Rattle.resume_run.specs.Lost.{lost_below};
ghost use Rattle.resume_run.specs.Resuming.{HasGoneOn, Resumes, resumed_end};

use crate::replaying::{ReplayFault, Replayed, replay};
use crate::working::work_on;
use craft::{Crew, Gate};
use lease_rules::{legal_records_are_safe, ordered_plans_fit};
use outside::{Host, Tool};
use plan_run::{Ran, deliveries_stay_within_the_output, end_run, refuse_run};
use run_record::{Record, RunFault};
use site_yard::{Yard, fails_show_in_the_state, nothing_else_fails, what_is_left_is_held};
use std::alloc::Global;
use storage_simulation::Ordered;

/// Why a run wasn't gone on with, or failed.
#[derive(Drop)]
pub enum ResumeFault {
    /// The number, from 1, of the record's first entry that isn't allowed.
    Illegal(u64),
    Failed(RunFault),
}

/// What came of a run that was gone on with, and the host after it.
#[derive(Drop)]
pub struct Resumed<H> {
    /// Whether all was done, else why not; want of memory is one of the reasons.
    pub end: Result<(), ResumeFault>,
    /// The whole record, and what was delivered since; a record without entries where the opening was refused; nothing is
    /// said of it at want of memory.
    pub text: Vec<u8>,
    pub host: H,
}

/// Nothing was done.
fn unresumed<H: Host>(alloc: Global, fault: ResumeFault, host: H) -> Resumed<H>
    ensures end { result.end ≡ Err fault }
    ensures text { result.text.items ≡ [] }
    ensures host { result.host ≡ host }
{
    Resumed {
        end: Err(fault),
        text: Vec::new(alloc),
        host,
    }
}

/// The same of a run that was gone on with.
fn of_run<H: Host>(ran: Ran<H>) -> Resumed<H>
    ensures end { result.end ≡ resumed_end ran.end }
    ensures text { result.text.items ≡ ran.text.items }
    ensures host { result.host ≡ ran.host }
{
    let Ran {
        end,
        text,
        host,
        ..
    } = ran;
    let end = match end {
        Ok(()) => Ok(()),
        Err(fault) => Err(ResumeFault::Failed(fault)),
    };
    Resumed { end, text, host }
}

/// Goes on from a book without a Fail, whose open tasks are these.
fn go_on<H: Host, T: Tool, G: Gate>(
    alloc: Global,
    ordered: Ordered,
    replayed: Replayed,
    host: H,
    crew: &mut Vec<Crew<T, G>>,
) -> Resumed<H>
    requires members { 16 ≤ length crew.old.items }
    requires plan { replayed.book.plan ≡ ordered.plan }
    requires order { replayed.book.order.items ≡ ordered.tasks.items }
    requires unfailing { (state_at replayed.book).failing ≡ false }
    requires lost { replayed.lost.items ≡ lost_below (state_at replayed.book) (count_tasks ordered.plan) }
    ensures gone_on { ∥ HasGoneOn (working T.apply T.known
        (work_moment H.Host host (first_shown (crew_moment T.Tool G.Gate crew.old.items)))
        (work_moment H.Host result.host (first_shown (crew_moment T.Tool G.Gate crew.new.items))))
        (counting (crew_moment T.Tool G.Gate crew.old.items) (crew_moment T.Tool G.Gate crew.new.items))
        ordered.plan (task_numbers ordered.tasks.items) replayed.book.history.events result.text.items
        result.end ∥₁ }
    ensures crew { length crew.new.items ≡ length crew.old.items }
    ensures asked { map (λ (c : Crew T G). G.asked c.gate) crew.new.items
        ≡ map (λ (c : Crew T G). G.asked c.gate) crew.old.items }
{
    // Laws for the proof: they do nothing.
    ordered_plans_fit();
    legal_records_are_safe();
    what_is_left_is_held();
    deliveries_stay_within_the_output();
    nothing_else_fails();
    let Replayed { book, lost } = replayed;
    // What holds of every book, for the proof.
    let _ = book.record();
    match Yard::<H, T>::reopen(alloc, ordered, book, host) {
        Ok(yard) => {
            let yard = work_on(alloc, yard, lost.as_slice(), crew);
            // What holds of every yard, for the proof.
            yard.agrees();
            of_run(end_run(alloc, yard))
        }
        Err(refused) => of_run(refuse_run(alloc, refused)),
    }
}

/// Goes on with a run from its record, without its Fails: the tasks that were open are done by their own workers, and then
/// the first member of the crew works alone. It starts no thread, asks no gate and
/// waits for nobody; each member's gate is told the entries that are added by its worker.
pub fn resume_plan<H: Host, T: Tool, G: Gate>(
    alloc: Global,
    ordered: Ordered,
    history: &Record,
    host: H,
    crew: &mut Vec<Crew<T, G>>,
) -> Resumed<H>
    requires retries { retries ordered.plan ≤ 10 }
    requires members { 16 ≤ length crew.old.items }
    ensures resumes { ∥ Resumes (working T.apply T.known
        (work_moment H.Host host (first_shown (crew_moment T.Tool G.Gate crew.old.items)))
        (work_moment H.Host result.host (first_shown (crew_moment T.Tool G.Gate crew.new.items))))
        (counting (crew_moment T.Tool G.Gate crew.old.items) (crew_moment T.Tool G.Gate crew.new.items))
        ordered.plan (task_numbers ordered.tasks.items) history.now.events result.text.items result.end ∥₁ }
    ensures crew { length crew.new.items ≡ length crew.old.items }
    ensures asked { map (λ (c : Crew T G). G.asked c.gate) crew.new.items
        ≡ map (λ (c : Crew T G). G.asked c.gate) crew.old.items }
{
    // A law for the proof: it does nothing.
    fails_show_in_the_state();
    match replay(alloc, &ordered, history) {
        Ok(replayed) => go_on(alloc, ordered, replayed, host, crew),
        Err(ReplayFault::Illegal(k)) => unresumed(alloc, ResumeFault::Illegal(k), host),
        Err(ReplayFault::Memory) => {
            unresumed(alloc, ResumeFault::Failed(RunFault::Memory), host)
        }
    }
}
