//! `audit`.

ghost use Rattle.std.specs.Prelude.{◌≡◌, IfOk};
ghost use Rattle.record_audit.specs.Text.{verdict_line};
ghost use Rattle.plan_run.specs.Moments.{Tools, Work};
ghost use Rattle.pegasus_commands.specs.code.Commands.Audit.{PrintsVerdict, SaysOf, audit};
ghost use Rattle.pegasus_commands.specs.code.CommandSpec.{Does, doing};
ghost use Rattle.pegasus_commands.specs.code.Moments.{docs_moment};

use crate::commands::{Told, at_once};
use crate::fault::CallFault;
use crate::judging::judge;
use crate::recorded::{Recorded, read_recorded};
use outside::{Docs, Memory};
use record_audit::{Verdict, push_verdict};
use std::alloc::Global;

/// The text of a verdict.
pub(crate) fn verdict_text(alloc: Global, verdict: Verdict) -> Result<Vec<u8>, Memory>
    ensures { IfOk result (λ text. text.items ≡ verdict_line verdict) }
{
    let mut text = Vec::new(alloc);
    push_verdict(&mut text, verdict)?;
    Ok(text)
}

/// The verdict on the record that was read.
fn judged_text(alloc: Global, recorded: &Recorded) -> Told
    ensures { SaysOf PrintsVerdict recorded.now result.text.items result.answer }
{
    let judged = match judge(alloc, recorded) {
        Ok(judged) => judged,
        Err(fault) => return at_once(alloc, fault),
    };
    match verdict_text(alloc, judged.verdict) {
        Ok(text) => {
            drop(judged);
            Told {
                answer: Ok(None),
                text,
            }
        }
        Err(Memory) => {
            drop(judged);
            at_once(alloc, CallFault::Memory)
        }
    }
}

pub(crate) fn work<D: Docs>(alloc: Global, name: &str, history: &str, docs: &mut D) -> Told
    ensures { (w : Work) (t : Tools) → w.after ≡ w.before → t.after ≡ t.before
        → Does (audit name.now history.now) (doing (docs_moment D.Docs docs.old)
        (docs_moment D.Docs docs.new) w t)
        result.text.items result.answer }
{
    match read_recorded(alloc, docs, name, history) {
        Ok(recorded) => {
            let told = judged_text(alloc, &recorded);
            drop(recorded);
            told
        }
        Err(fault) => at_once(alloc, fault),
    }
}
