//! A run of a plan by one worker, and how a run ends.

ghost use Rattle.std.specs.Prelude.{◌≡◌, ◌≤◌, ◌⊎◌, [], Err, IfOk, Some, drop, take, true};
ghost use Rattle.plan_core.specs.Words.{retries, task_numbers};
ghost use Rattle.lease_book.specs.Book.{state_at};
ghost use Rattle.lease_rules.specs.Legal.{IsComplete};
ghost use Rattle.run_record.specs.declared.run_fault.RunFault.TheVariants as faults;
ghost use Rattle.plan_run.specs.code.Moments.{member_moment, work_moment, working};
ghost use Rattle.plan_run.specs.code.Running.{EndsAs, HasRunAlone, IsEmptyReport, IsRefusal, IsReportSince, ReportsSince, ended_by, marked_if, reporting};

use crate::law::deliveries_stay_within_the_output;
use crate::run_text::print_run;
use craft::{Crew, Gate};
use lease_rules::{legal_records_are_safe, ordered_plans_fit};
use outside::{Host, Memory, Tool};
use plan_core::Plan;
use run_record::{Record, RunFault};
use site_yard::{Delivered, OpenRefused, Yard, opening_fault, what_is_left_is_held};
use std::alloc::Global;
use storage_simulation::Ordered;
use worker_gate::run_alone;

/// What came of a run, and the host after it.
#[derive(Drop)]
pub struct Ran<H> {
    /// Whether all was done, else the first failure; want of memory is one of its own.
    pub end: Result<(), RunFault>,
    /// The record of the run; nothing is said of it at want of memory.
    pub history: Option<Record>,
    /// The record and then the deliveries; nothing is said of it at want of memory.
    pub text: Vec<u8>,
    /// The deliveries, in the order of their arrival; nothing is said of them at want of memory.
    pub delivered: Vec<Delivered>,
    pub host: H,
}

/// A record, its text with what was delivered, and the deliveries.
#[derive(Drop)]
struct Report {
    history: Record,
    text: Vec<u8>,
    delivered: Vec<Delivered>,
}

/// Memory ran out: there is no text.
pub(crate) fn out_of_memory<H: Host>(alloc: Global, host: H) -> Ran<H>
    ensures end { result.end ≡ ended_by faults.Memory }
    ensures text { result.text.items ≡ [] }
    ensures host { result.host ≡ host }
{
    Ran {
        end: Err(RunFault::Memory),
        history: None,
        text: Vec::new(alloc),
        delivered: Vec::new(alloc),
        host,
    }
}

/// How a run that is over ended.
fn end_of<H: Host, T: Tool>(alloc: Global, yard: &Yard<H, T>) -> Result<(), RunFault>
    requires over { IsComplete yard.now.ordered.value.plan (state_at yard.now.book)
        ⊎ ((state_at yard.now.book).failing ≡ true) }
    ensures { EndsAs yard.now.ordered.value.plan
        (task_numbers yard.now.ordered.value.tasks.items) yard.now.book.history.events result }
{
    match yard.ending(alloc) {
        Ok(()) => Ok(()),
        Err(fault) => Err(fault),
    }
}

/// The text of a run: the yard's record, and what was delivered since its opening.
fn text_of<H: Host, T: Tool>(alloc: Global, yard: &Yard<H, T>) -> Result<Vec<u8>, Memory>
    ensures { IfOk result (λ text. IsReportSince T.apply yard.now.ordered.value.plan
        (take yard.now.opened yard.now.book.history.events)
        (drop yard.now.opened yard.now.book.history.events)
        (marked_if (H.told yard.now.host) (H.marked yard.now.host))
        (reporting (Some yard.now.book.history) text.items yard.now.delivered.items)) }
{
    let record = yard.book().record();
    // What holds of every record, for the proof.
    record.has_entries();
    let text = print_run(alloc, yard.plan(), record, yard.delivered())?;
    Ok(text)
}

/// The end and the report of a run that is over, and its host. Of a yard that was opened with a record it tells what was
/// delivered since.
pub fn end_run<H: Host, T: Tool>(alloc: Global, yard: Yard<H, T>) -> Ran<H>
    requires over { IsComplete yard.ordered.value.plan (state_at yard.book)
        ⊎ ((state_at yard.book).failing ≡ true) }
    ensures ends { EndsAs yard.ordered.value.plan
        (task_numbers yard.ordered.value.tasks.items) yard.book.history.events result.end }
    ensures reports { ReportsSince T.apply yard.ordered.value.plan (take yard.opened yard.book.history.events)
        (drop yard.opened yard.book.history.events)
        (marked_if (H.told yard.host) (H.marked yard.host))
        (reporting result.history result.text.items result.delivered.items) result.end }
    ensures host { result.host ≡ yard.host }
{
    match text_of(alloc, &yard) {
        Ok(text) => {
            let end = end_of(alloc, &yard);
            let (host, history, delivered) = yard.into_parts();
            Ran {
                end,
                history: Some(history),
                text,
                delivered,
                host,
            }
        }
        Err(Memory) => out_of_memory(alloc, yard.into_host()),
    }
}

/// The report of a run that was not begun.
fn empty_report(alloc: Global, plan: &Plan) -> Result<Report, Memory>
    ensures { IfOk result (λ x. IsEmptyReport plan.now
        (reporting (Some x.history) x.text.items x.delivered.items)) }
{
    let history = Record::with_room(alloc, 0, 0)?;
    let text = print_run(alloc, plan, &history, &[])?;
    let delivered = Vec::new(alloc);
    Ok(Report {
        history,
        text,
        delivered,
    })
}

/// The end and the report of a run whose opening was refused, and its host.
pub fn refuse_run<H: Host>(alloc: Global, refused: OpenRefused<H>) -> Ran<H>
    ensures refusal { IsRefusal refused.ordered.plan refused.fault
        (reporting result.history result.text.items result.delivered.items) result.end }
    ensures host { result.host ≡ refused.host }
{
    let fault = opening_fault(refused.ordered.plan(), alloc, refused.fault);
    match empty_report(alloc, refused.ordered.plan()) {
        Ok(report) => Ran {
            end: Err(fault),
            history: Some(report.history),
            text: report.text,
            delivered: report.delivered,
            host: refused.host,
        },
        Err(Memory) => out_of_memory(alloc, refused.host),
    }
}

/// Runs a plan with its order, with one worker. It starts no thread and waits for nobody.
pub fn run_plan<H: Host, T: Tool, G: Gate>(
    alloc: Global,
    ordered: Ordered,
    host: H,
    crew: &mut Crew<T, G>,
) -> Ran<H>
    requires { retries ordered.plan ≤ 10 }
    ensures ran { ∥ HasRunAlone (working T.apply T.known (work_moment H.Host host (member_moment T.Tool G.Gate crew.old))
        (work_moment H.Host result.host (member_moment T.Tool G.Gate crew.new)))
        ordered.plan (task_numbers ordered.tasks.items)
        (reporting result.history result.text.items result.delivered.items) result.end ∥₁ }
    ensures gate { G.asked crew.new.gate ≡ G.asked crew.old.gate }
{
    // Laws for the proof: they do nothing.
    ordered_plans_fit();
    legal_records_are_safe();
    what_is_left_is_held();
    deliveries_stay_within_the_output();
    match Yard::<H, T>::open(alloc, ordered, host) {
        Ok(yard) => {
            let yard = run_alone(alloc, yard, crew);
            // What holds of every yard, for the proof.
            yard.agrees();
            end_run(alloc, yard)
        }
        Err(refused) => refuse_run(alloc, refused),
    }
}
