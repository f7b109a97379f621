//! The text of a list schedule.

ghost use Rattle.std.specs.Prelude.{◌≡◌, ◌++◌, IfOk, OnOk, slice_index_or, string_bytes};
ghost use Rattle.std.specs.Fmt.{decimal};
ghost use Rattle.std.specs.List.{flat_map};
ghost use Rattle.dependency_graph.specs.Graph.{numbers};
ghost use Rattle.list_schedule.specs.code.Board.{schedule_of};
ghost use Rattle.list_schedule.specs.Schedule.{site};
ghost use Rattle.planner.specs.code.Scheduling.{job_row, schedule_line, schedule_lines, site_number};

use crate::sites::id_of;
use heft_selector::Heft;
use std::alloc::Global;
use values::{JobId, Memory, Word, push_line};
use workflow_core::Workflow;

/// The number of a job's site.
fn site_of(heft: &Heft, job: JobId) -> u32
    ensures { result ≡ site_number (site (schedule_of heft.now) job.0) }
{
    match heft.sites.get(job.0 as usize) {
        Some(Some(site)) => site.0,
        _ => 0,
    }
}

/// When a job begins or ends, of those of all jobs.
fn second_at(seconds: &[u128], job: JobId) -> u128
    ensures { result ≡ slice_index_or seconds.now job.0 0 }
{
    match seconds.get(job.0 as usize) {
        Some(second) => *second,
        None => 0,
    }
}

fn digits_of(alloc: Global, number: u128) -> Result<String, Memory>
    ensures { IfOk result (λ digits. string_bytes digits ≡ decimal number) }
{
    let digits = format!(in alloc; "{number}")?;
    Ok(digits)
}

#[tactic(auto, unfolding(crate::specs::code::Scheduling::job_row))]
fn push_row<'a>(
    text: &mut Vec<u8>,
    job: JobId,
    id: &'a str,
    site: u32,
    begins: &'a str,
    ends: &'a str,
) -> Result<(), Memory>
    ensures { OnOk result (text.new.items
        ≡ text.old.items ++ job_row job.0 id.now site begins.now ends.now) }
{
    let number = Word::Number(job.0 as u64);
    let name = Word::Name(id.as_bytes());
    let place = Word::Number(site as u64);
    let begins = Word::Plain(begins);
    let ends = Word::Plain(ends);
    push_line(
        text,
        "job",
        &[number, name, Word::Plain("site"), place, begins, ends],
    )
}

fn push_job(
    alloc: Global,
    text: &mut Vec<u8>,
    workflow: &Workflow,
    heft: &Heft,
    job: JobId,
) -> Result<(), Memory>
    ensures { OnOk result (text.new.items
        ≡ text.old.items ++ schedule_line workflow.now (schedule_of heft.now) job.0) }
{
    let begins = digits_of(alloc, second_at(&heft.starts, job))?;
    let ends = digits_of(alloc, second_at(&heft.finishes, job))?;
    let id = id_of(workflow, job);
    push_row(text, job, id, site_of(heft, job), &begins, &ends)
}

fn push_jobs(
    alloc: Global,
    text: &mut Vec<u8>,
    workflow: &Workflow,
    heft: &Heft,
    order: &[JobId],
) -> Result<(), Memory>
    ensures { OnOk result (text.new.items ≡ text.old.items
        ++ flat_map (schedule_line workflow.now (schedule_of heft.now)) (numbers order.now)) }
{
    for job in order {
        push_job(alloc, text, workflow, heft, *job)?;
    }
    Ok(())
}

/// A line for each job of a schedule, in the order in which they were placed.
pub fn schedule_text(alloc: Global, workflow: &Workflow, heft: &Heft) -> Result<Vec<u8>, Memory>
    ensures { IfOk result
        (λ text. text.items ≡ schedule_lines workflow.now (schedule_of heft.now)) }
{
    let mut text = Vec::new(alloc);
    push_jobs(alloc, &mut text, workflow, heft, &heft.order)?;
    Ok(text)
}
