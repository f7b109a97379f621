//! `plan`.

ghost use Rattle.std.specs.Prelude.{◌≡◌, ◌≤◌, IfOk, length};
ghost use Rattle.plan_run.specs.Moments.{Tools, Work};
ghost use Rattle.pegasus_commands.specs.code.Commands.Plan.{ArePeaks, IsTextOf, Says, plan};
ghost use Rattle.pegasus_commands.specs.code.CommandSpec.{Does, doing};
ghost use Rattle.pegasus_commands.specs.code.Moments.{docs_moment};

use crate::commands::{TASK_LIMIT, Told, at_once};
use crate::fault::{CallFault, of_plan_fault};
use crate::survey::read_survey;
use outside::{Docs, Memory, SiteId};
use plan_core::print;
use planner::{Surveyed, plan_survey};
use std::alloc::Global;
use storage_simulation::Ordered;

/// The peak of each site.
#[tactic(auto, using(crate::proofs::PlanLemmas::no_peaks, crate::proofs::PlanLemmas::peaks_more))]
fn peaks_of(alloc: Global, ordered: &Ordered) -> Result<Vec<u64>, Memory>
    requires few { length ordered.now.plan.sites ≤ 64 }
    ensures { IfOk result (λ v. ArePeaks ordered.now.plan ordered.now.tasks.items v.items) }
{
    let mut peaks = Vec::new(alloc);
    for site in 0..ordered.plan().sites.as_slice().len() {
        peaks.push(ordered.peak(SiteId(site as u32)))?;
    }
    Ok(peaks)
}

/// The text of a plan with its order.
fn text_of(alloc: Global, ordered: &Ordered) -> Result<Vec<u8>, Memory>
    requires few { length ordered.now.plan.sites ≤ 64 }
    ensures { IfOk result (λ v. IsTextOf ordered.now.plan ordered.now.tasks.items v.items) }
{
    let peaks = peaks_of(alloc, ordered)?;
    let text = print(alloc, ordered.plan(), ordered.tasks(), &peaks)?;
    Ok(text.into_vec())
}

/// The text of the plan of a surveyed request, or why there is none.
fn plan_text(alloc: Global, surveyed: Surveyed) -> Told
    ensures { Says surveyed result.text.items result.answer }
{
    let planned = plan_survey(alloc, &surveyed, TASK_LIMIT);
    drop(surveyed);
    let ordered = match planned {
        Ok(ordered) => ordered,
        Err(fault) => return at_once(alloc, of_plan_fault(fault)),
    };
    let text = text_of(alloc, &ordered);
    drop(ordered);
    match text {
        Ok(text) => Told {
            answer: Ok(None),
            text,
        },
        Err(Memory) => at_once(alloc, CallFault::Memory),
    }
}

pub(crate) fn work<D: Docs>(alloc: Global, name: &str, docs: &mut D) -> Told
    ensures { (w : Work) (t : Tools) → w.after ≡ w.before → t.after ≡ t.before
        → Does (plan name.now) (doing (docs_moment D.Docs docs.old) (docs_moment D.Docs docs.new) w t)
        result.text.items result.answer }
{
    match read_survey(alloc, docs, name) {
        Ok(surveyed) => plan_text(alloc, surveyed),
        Err(fault) => at_once(alloc, fault),
    }
}
