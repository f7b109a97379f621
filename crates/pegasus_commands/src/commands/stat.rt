//! `stat`.

ghost use Rattle.std.specs.Prelude.{◌≡◌, ◌≤◌, IfOk, OnOk};
ghost use Rattle.plan_core.specs.Words.{retries, task_numbers};
ghost use Rattle.lease_rules.specs.Legal.{Legal};
ghost use Rattle.record_audit.specs.Verdict.{IsJudged};
ghost use Rattle.plan_run.specs.Moments.{Tools, Work};
ghost use Rattle.pegasus_commands.specs.code.Commands.Audit.{SaysOf};
ghost use Rattle.pegasus_commands.specs.code.Commands.Stat.{AddsSums, PrintsSums, stat};
ghost use Rattle.pegasus_commands.specs.code.CommandSpec.{Does, doing};
ghost use Rattle.pegasus_commands.specs.code.Moments.{docs_moment};

use crate::commands::audit::verdict_text;
use crate::commands::{Told, at_once};
use crate::fault::CallFault;
use crate::judging::{Judged, judge};
use crate::recorded::{Recorded, read_recorded};
use outside::{Docs, Memory};
use record_audit::{Verdict, push_statistics, statistics};
use std::alloc::Global;

/// Adds what a legal record sums up to.
fn push_sums(alloc: Global, text: &mut Vec<u8>, judged: &Judged) -> Result<(), Memory>
    requires legal { Legal judged.now.ordered.plan (task_numbers judged.now.ordered.tasks.items)
        judged.now.history.events }
    requires retries { retries judged.now.ordered.plan ≤ 10 }
    ensures { OnOk result (AddsSums judged.now.ordered.plan (task_numbers judged.now.ordered.tasks.items)
        judged.now.history.events text.old.items text.new.items) }
{
    let sums = statistics(alloc, &judged.ordered, &judged.history)?;
    push_statistics(text, &sums)
}

/// The verdict on a record, and what a record that isn't illegal sums up to.
fn sums_text(alloc: Global, judged: &Judged) -> Result<Vec<u8>, Memory>
    requires judged { IsJudged judged.now.ordered.plan (task_numbers judged.now.ordered.tasks.items)
        judged.now.history.events judged.now.verdict }
    requires retries { retries judged.now.ordered.plan ≤ 10 }
    ensures { IfOk result (λ text. PrintsSums judged.now.ordered.plan
        (task_numbers judged.now.ordered.tasks.items)
        judged.now.history.events judged.now.verdict text.items) }
{
    let mut text = verdict_text(alloc, judged.verdict)?;
    match judged.verdict {
        Verdict::Illegal(_) => Ok(text),
        Verdict::Legal => {
            push_sums(alloc, &mut text, judged)?;
            Ok(text)
        }
        Verdict::Complete => {
            push_sums(alloc, &mut text, judged)?;
            Ok(text)
        }
    }
}

/// The verdict and the sums of the record that was read.
fn judged_text(alloc: Global, recorded: &Recorded) -> Told
    ensures { SaysOf PrintsSums recorded.now result.text.items result.answer }
{
    let judged = match judge(alloc, recorded) {
        Ok(judged) => judged,
        Err(fault) => return at_once(alloc, fault),
    };
    match sums_text(alloc, &judged) {
        Ok(text) => {
            drop(judged);
            Told {
                answer: Ok(None),
                text,
            }
        }
        Err(Memory) => {
            drop(judged);
            at_once(alloc, CallFault::Memory)
        }
    }
}

pub(crate) fn work<D: Docs>(alloc: Global, name: &str, history: &str, docs: &mut D) -> Told
    ensures { (w : Work) (t : Tools) → w.after ≡ w.before → t.after ≡ t.before
        → Does (stat name.now history.now) (doing (docs_moment D.Docs docs.old)
        (docs_moment D.Docs docs.new) w t)
        result.text.items result.answer }
{
    match read_recorded(alloc, docs, name, history) {
        Ok(recorded) => {
            let told = judged_text(alloc, &recorded);
            drop(recorded);
            told
        }
        Err(fault) => at_once(alloc, fault),
    }
}
