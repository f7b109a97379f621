//! The text of a plan.

ghost use Rattle.std.specs.Prelude.{◌≡◌, ◌++◌, ℕ, List, map, length, slice_get, string_bytes, IfOk, OnOk};
ghost use Rattle.std.specs.Fmt.{decimal};
ghost use Rattle.values.specs.declared.numbers.PairId.{PairId};
ghost use Rattle.plan_core.specs.declared.plan.Pair.{Pair};
ghost use Rattle.plan_core.specs.code.Printing.{file_line, file_number, flag, is_plain, job_line, maybe, numbered, numbers, pair_files, peak_line, plan_text, policy_line, clean_row, run_row, site_line, site_number, spaced, task_line, task_row, transfer_row};
ghost use Rattle.plan_core.specs.Words.{job_numbers, task_numbers};

use crate::plan::{Pair, Plan, PlanFile, PlanJob, PlanSite, Source, Target, Task, TaskKind};
use itoa::Buffer;
use std::alloc::Global;
use values::{Blob, FileId, JobId, Memory, PairId, Policy, SiteId, TaskId, Text, Word, push_line};

/// Adds numbers, a space before each.
fn push_numbers(text: &mut String, numbers: &[u32]) -> Result<(), Memory>
    ensures { OnOk result (string_bytes text.new
        ≡ string_bytes text.old ++ spaced (map decimal numbers.now)) }
{
    let mut digits = Buffer::new();
    for number in numbers {
        text.push_str(" ")?;
        text.push_str(digits.format(*number))?;
    }
    Ok(())
}

#[tactic(auto, unfolding(crate::specs::code::Printing::numbers))]
fn numbers_text(alloc: Global, listed: &[u32]) -> Result<String, Memory>
    ensures { IfOk result (λ t. string_bytes t ≡ numbers listed.now) }
{
    match listed {
        [] => Ok(String::from_str(alloc, "-")?),
        [first, rest @ ..] => {
            let mut text = String::with_capacity(alloc, listed.len().saturating_mul(6))?;
            let mut digits = Buffer::new();
            text.push_str(digits.format(*first))?;
            push_numbers(&mut text, rest)?;
            Ok(text)
        }
    }
}

fn jobs_text(alloc: Global, jobs: &[JobId]) -> Result<String, Memory>
    ensures { IfOk result (λ t. string_bytes t ≡ numbers (job_numbers jobs.now)) }
{
    let listed: Vec<u32> = jobs.iter().map(|job| job.0).collect(alloc)?;
    numbers_text(alloc, &listed)
}

fn tasks_text(alloc: Global, tasks: &[TaskId]) -> Result<String, Memory>
    ensures { IfOk result (λ t. string_bytes t ≡ numbers (task_numbers tasks.now)) }
{
    let listed: Vec<u32> = tasks.iter().map(|task| task.0).collect(alloc)?;
    numbers_text(alloc, &listed)
}

fn site_number(pairs: &[Pair], pair: PairId) -> u32
    ensures { result ≡ site_number (slice_get pairs.now pair.0) }
{
    match pairs.get(pair.0 as usize) {
        Some(found) => found.site.0,
        None => 0,
    }
}

fn file_number(pairs: &[Pair], pair: PairId) -> u32
    ensures { result ≡ file_number (slice_get pairs.now pair.0) }
{
    match pairs.get(pair.0 as usize) {
        Some(found) => found.file.0,
        None => 0,
    }
}

fn files_text(alloc: Global, pairs: &[Pair], listed: &[PairId]) -> Result<String, Memory>
    ensures { IfOk result (λ t. string_bytes t ≡ numbers (pair_files pairs.now listed.now)) }
{
    let files: Vec<u32> = listed
        .iter()
        .map(|pair| file_number(pairs, *pair))
        .collect(alloc)?;
    numbers_text(alloc, &files)
}

#[tactic(auto, unfolding(crate::specs::code::Printing::maybe))]
fn maybe_text(alloc: Global, number: Option<u64>) -> Result<String, Memory>
    ensures { IfOk result (λ t. string_bytes t ≡ maybe number) }
{
    match number {
        Some(found) => Ok(format!(in alloc; "{found}")?),
        None => Ok(String::from_str(alloc, "-")?),
    }
}

fn is_plain(policy: &Policy) -> bool
    ensures { result ≡ is_plain policy.now }
{
    policy.retries == 0 && !policy.fresh && policy.output.is_none()
}

#[tactic(auto, unfolding(crate::specs::code::Printing::policy_line))]
fn push_policy(alloc: Global, text: &mut Vec<u8>, policy: &Policy) -> Result<(), Memory>
    ensures { OnOk result (text.new.items ≡ text.old.items ++ policy_line policy.now) }
{
    if is_plain(policy) {
        return Ok(());
    }
    let retries = Word::Number(u64::from(policy.retries));
    let fresh = Word::Number(if policy.fresh { 1 } else { 0 });
    let output = maybe_text(alloc, policy.output)?;
    push_line(
        text,
        "policy",
        &[retries, fresh, Word::Plain(output.as_str())],
    )
}

/// What has a line with its number.
trait HasLine {
    ghost line: { List Pair → ℕ → Self → List ℕ };

    fn push(
        &self,
        alloc: Global,
        text: &mut Vec<u8>,
        pairs: &[Pair],
        number: usize,
    ) -> Result<(), Memory>
        ensures { OnOk result (text.new.items ≡ text.old.items ++ line pairs.now number self.now) };
}

fn push_each<T: HasLine>(
    alloc: Global,
    text: &mut Vec<u8>,
    pairs: &[Pair],
    all: &[T],
) -> Result<(), Memory>
    ensures { OnOk result (text.new.items ≡ text.old.items ++ numbered (T.line pairs.now) 0 all.now) }
{
    for (number, one) in all.iter().enumerate() {
        one.push(alloc, text, pairs, number)?;
    }
    Ok(())
}

impl HasLine for PlanSite {
    ghost line = { λ pairs. site_line };

    #[tactic(auto, unfolding(crate::specs::code::Printing::site_line))]
    fn push(
        &self,
        _alloc: Global,
        text: &mut Vec<u8>,
        _pairs: &[Pair],
        number: usize,
    ) -> Result<(), Memory> {
        let site = Word::Number(number as u64);
        let name = Word::Name(self.name.as_bytes());
        push_line(text, "site", &[site, name, Word::Number(self.bound)])
    }
}

impl HasLine for PlanFile {
    ghost line = { λ pairs. file_line };

    #[tactic(auto, unfolding(crate::specs::code::Printing::file_line))]
    fn push(
        &self,
        alloc: Global,
        text: &mut Vec<u8>,
        _pairs: &[Pair],
        number: usize,
    ) -> Result<(), Memory> {
        let file = Word::Number(number as u64);
        let name = Word::Name(self.lfn.as_bytes());
        let size = maybe_text(alloc, self.declared)?;
        push_line(text, "file", &[file, name, Word::Plain(size.as_str())])
    }
}

impl HasLine for PlanJob {
    ghost line = { λ pairs. job_line };

    #[tactic(auto, unfolding(crate::specs::code::Printing::job_line))]
    fn push(
        &self,
        _alloc: Global,
        text: &mut Vec<u8>,
        _pairs: &[Pair],
        number: usize,
    ) -> Result<(), Memory> {
        let job = Word::Number(number as u64);
        let id = Word::Name(self.id.as_bytes());
        match self.site {
            Some(site) => {
                let place = Word::Number(u64::from(site.0));
                push_line(text, "job", &[job, id, Word::Plain("site"), place])
            }
            None => push_line(text, "job", &[job, id, Word::Plain("dropped")]),
        }
    }
}

/// Adds the line of a Run, given the texts of its lists.
#[tactic(auto, unfolding(crate::specs::code::Printing::run_row))]
fn push_run<'a>(
    text: &mut Vec<u8>,
    number: usize,
    site: SiteId,
    jobs: &'a str,
    reads: &'a str,
    writes: &'a str,
    after: &'a str,
) -> Result<(), Memory>
    ensures { OnOk result (text.new.items ≡ text.old.items
        ++ run_row number site jobs.now reads.now writes.now after.now) }
{
    push_line(
        text,
        "task",
        &[
            Word::Number(number as u64),
            Word::Plain("run"),
            Word::Number(u64::from(site.0)),
            Word::Plain("jobs"),
            Word::Plain(jobs),
            Word::Plain("reads"),
            Word::Plain(reads),
            Word::Plain("writes"),
            Word::Plain(writes),
            Word::Plain("after"),
            Word::Plain(after),
        ],
    )
}

/// Adds the line of a Transfer from a replica.
#[tactic(auto, unfolding(crate::specs::code::Printing::transfer_row))]
fn push_from_pfn<'a>(
    text: &mut Vec<u8>,
    number: usize,
    file: FileId,
    pfn: &'a Text,
    to: Target,
    after: &'a str,
) -> Result<(), Memory>
    ensures { OnOk result (text.new.items ≡ text.old.items
        ++ transfer_row number file (Source.Pfn pfn.now) to after.now) }
{
    let t = Word::Number(number as u64);
    let f = Word::Number(u64::from(file.0));
    let from = Word::Name(pfn.as_bytes());
    match to {
        Target::Site(site) => push_line(
            text,
            "task",
            &[
                t,
                Word::Plain("transfer"),
                f,
                Word::Plain("from"),
                Word::Plain("pfn"),
                from,
                Word::Plain("to"),
                Word::Plain("site"),
                Word::Number(u64::from(site.0)),
                Word::Plain("after"),
                Word::Plain(after),
            ],
        ),
        Target::Delivery => push_line(
            text,
            "task",
            &[
                t,
                Word::Plain("transfer"),
                f,
                Word::Plain("from"),
                Word::Plain("pfn"),
                from,
                Word::Plain("to"),
                Word::Plain("out"),
                Word::Plain("after"),
                Word::Plain(after),
            ],
        ),
    }
}

/// Adds the line of a Transfer from a site to another one.
#[tactic(auto, unfolding(crate::specs::code::Printing::transfer_row))]
fn push_move(
    text: &mut Vec<u8>,
    number: usize,
    file: FileId,
    home: SiteId,
    site: SiteId,
    after: &str,
) -> Result<(), Memory>
    ensures { OnOk result (text.new.items ≡ text.old.items
        ++ transfer_row number file (Source.Site home) (Target.Site site) after.now) }
{
    push_line(
        text,
        "task",
        &[
            Word::Number(number as u64),
            Word::Plain("transfer"),
            Word::Number(u64::from(file.0)),
            Word::Plain("from"),
            Word::Plain("site"),
            Word::Number(u64::from(home.0)),
            Word::Plain("to"),
            Word::Plain("site"),
            Word::Number(u64::from(site.0)),
            Word::Plain("after"),
            Word::Plain(after),
        ],
    )
}

/// Adds the line of a delivery from a site.
#[tactic(auto, unfolding(crate::specs::code::Printing::transfer_row))]
fn push_delivery(
    text: &mut Vec<u8>,
    number: usize,
    file: FileId,
    home: SiteId,
    after: &str,
) -> Result<(), Memory>
    ensures { OnOk result (text.new.items ≡ text.old.items
        ++ transfer_row number file (Source.Site home) Target.Delivery after.now) }
{
    push_line(
        text,
        "task",
        &[
            Word::Number(number as u64),
            Word::Plain("transfer"),
            Word::Number(u64::from(file.0)),
            Word::Plain("from"),
            Word::Plain("site"),
            Word::Number(u64::from(home.0)),
            Word::Plain("to"),
            Word::Plain("out"),
            Word::Plain("after"),
            Word::Plain(after),
        ],
    )
}

/// Adds the line of a Transfer from a site.
fn push_from_site(
    text: &mut Vec<u8>,
    number: usize,
    file: FileId,
    home: SiteId,
    to: &Target,
    after: &str,
) -> Result<(), Memory>
    ensures { OnOk result (text.new.items ≡ text.old.items
        ++ transfer_row number file (Source.Site home) to.now after.now) }
{
    match to {
        Target::Site(site) => push_move(text, number, file, home, *site, after),
        Target::Delivery => push_delivery(text, number, file, home, after),
    }
}

/// Adds the line of a Clean.
#[tactic(auto, unfolding(crate::specs::code::Printing::clean_row))]
fn push_clean(
    text: &mut Vec<u8>,
    number: usize,
    pairs: &[Pair],
    pair: PairId,
    after: &str,
) -> Result<(), Memory>
    ensures { OnOk result (text.new.items ≡ text.old.items
        ++ clean_row number (slice_get pairs.now pair.0) after.now) }
{
    let site = Word::Number(u64::from(site_number(pairs, pair)));
    let file = Word::Number(u64::from(file_number(pairs, pair)));
    push_line(
        text,
        "task",
        &[
            Word::Number(number as u64),
            Word::Plain("clean"),
            Word::Plain("site"),
            site,
            Word::Plain("file"),
            file,
            Word::Plain("after"),
            Word::Plain(after),
        ],
    )
}

fn push_task(
    alloc: Global,
    text: &mut Vec<u8>,
    pairs: &[Pair],
    number: usize,
    task: &Task,
) -> Result<(), Memory>
    ensures { OnOk result (text.new.items ≡ text.old.items
        ++ task_row pairs.now number task.now task.now.kind) }
{
    let after = tasks_text(alloc, task.parents.as_slice())?;
    match &task.kind {
        TaskKind::Run { site, jobs } => {
            let jobs = jobs_text(alloc, jobs.as_slice())?;
            let reads = files_text(alloc, pairs, task.reads.as_slice())?;
            let writes = files_text(alloc, pairs, task.writes.as_slice())?;
            push_run(
                text,
                number,
                *site,
                jobs.as_str(),
                reads.as_str(),
                writes.as_str(),
                after.as_str(),
            )
        }
        TaskKind::Transfer {
            file,
            from: Source::Pfn(pfn),
            to,
        } => push_from_pfn(text, number, *file, pfn, *to, after.as_str()),
        TaskKind::Transfer {
            file,
            from: Source::Site(home),
            to,
        } => push_from_site(text, number, *file, *home, to, after.as_str()),
        TaskKind::Clean { pair } => { push_clean(text, number, pairs, *pair, after.as_str()) }
    }
}

impl HasLine for Task {
    ghost line = { task_line };

    #[tactic(auto, unfolding(crate::specs::code::Printing::task_line))]
    fn push(
        &self,
        alloc: Global,
        text: &mut Vec<u8>,
        pairs: &[Pair],
        number: usize,
    ) -> Result<(), Memory> {
        push_task(alloc, text, pairs, number, self)
    }
}

impl HasLine for u64 {
    ghost line = { λ pairs. peak_line };

    #[tactic(auto, unfolding(crate::specs::code::Printing::peak_line))]
    fn push(
        &self,
        _alloc: Global,
        text: &mut Vec<u8>,
        _pairs: &[Pair],
        number: usize,
    ) -> Result<(), Memory> {
        push_line(
            text,
            "peak",
            &[Word::Number(number as u64), Word::Number(*self)],
        )
    }
}

/// The text of a plan, with an order of its tasks and the greatest usage of each site along it, in bytes.
#[tactic(auto, unfolding(crate::specs::code::Printing::plan_text))]
pub fn print(alloc: Global, plan: &Plan, order: &[TaskId], peaks: &[u64]) -> Result<Blob, Memory>
    requires { length peaks.now ≡ length plan.now.sites }
    ensures { IfOk result (λ b. b ≡ plan_text plan.now order.now peaks.now) }
{
    let mut text = Vec::new(alloc);
    let pairs = plan.pairs.as_slice();
    text.extend_from_slice(b"plan 1\n")?;
    push_line(
        &mut text,
        "workflow",
        &[Word::Name(plan.workflow.as_bytes())],
    )?;
    push_policy(alloc, &mut text, &plan.policy)?;
    push_each(alloc, &mut text, pairs, plan.sites.as_slice())?;
    push_each(alloc, &mut text, pairs, plan.files.as_slice())?;
    push_each(alloc, &mut text, pairs, plan.jobs.as_slice())?;
    push_each(alloc, &mut text, pairs, plan.tasks.as_slice())?;
    let placed = tasks_text(alloc, order)?;
    push_line(&mut text, "order", &[Word::Plain(placed.as_str())])?;
    push_each(alloc, &mut text, pairs, peaks)?;
    text.extend_from_slice(b"closed\n")?;
    Ok(Blob::new(text))
}
