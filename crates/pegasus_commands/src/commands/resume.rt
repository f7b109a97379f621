//! `resume`.

ghost use Rattle.std.specs.Prelude.{◌≡◌, length, map};
ghost use Rattle.craft.specs.declared.crew.Crew.{Crew};
ghost use Rattle.plan_run.specs.code.Moments.{counting, crew_moment, first_shown, work_moment, working};
ghost use Rattle.pegasus_commands.specs.code.Commands.Resume.{ResumesPlan, resume};
ghost use Rattle.pegasus_commands.specs.code.CommandSpec.{Does, doing};
ghost use Rattle.pegasus_commands.specs.code.Fault.{resumed_answer};
ghost use Rattle.pegasus_commands.specs.code.Moments.{docs_moment};

use crate::commands::{Told, Worked};
use crate::fault::of_resume_fault;
use crate::judging::record_in;
use crate::ready_plan::{ready_plan, unrun};
use crate::recorded::{Recorded, read_recorded};
use craft::{Crew, Gate};
use lease_rules::ordered_plans_fit;
use outside::{Docs, Host, Tool};
use planner::plans_deliver_requests;
use resume_run::{Resumed, resume_plan};
use site_yard::complete_records_deliver;
use std::alloc::Global;

/// What a command tells of a run that was gone on with.
fn ended<H: Host>(resumed: Resumed<H>) -> Worked<H>
    ensures answer { result.told.answer ≡ resumed_answer resumed.end }
    ensures text { result.told.text.items ≡ resumed.text.items }
    ensures host { result.host ≡ resumed.host }
{
    let Resumed { end, text, host } = resumed;
    let answer = match end {
        Ok(()) => Ok(None),
        Err(fault) => Err(of_resume_fault(fault)),
    };
    Worked {
        told: Told { answer, text },
        host,
    }
}

/// Goes on with a run of the plan of a surveyed request, from the record that was read.
fn resume_recorded<H: Host, T: Tool, G: Gate>(
    alloc: Global,
    recorded: Recorded,
    host: H,
    crew: &mut Vec<Crew<T, G>>,
) -> Worked<H>
    requires crew { length crew.old.items ≡ 16 }
    ensures works { let before = crew_moment T.Tool G.Gate crew.old.items in
        let after = crew_moment T.Tool G.Gate crew.new.items in
        ResumesPlan (working T.apply T.known (work_moment H.Host host (first_shown before))
        (work_moment H.Host result.host (first_shown after)))
        (counting before after) recorded result.told.text.items result.told.answer }
    ensures crew { length crew.new.items ≡ 16 }
    ensures gates { map (λ (c : Crew T G). G.asked c.gate) crew.new.items
        ≡ map (λ (c : Crew T G). G.asked c.gate) crew.old.items }
{
    // Laws for the proof: they do nothing.
    ordered_plans_fit();
    plans_deliver_requests();
    complete_records_deliver();
    let Recorded { surveyed, bytes } = recorded;
    let ready = ready_plan(alloc, &surveyed, &crew[0].tool);
    drop(surveyed);
    let ordered = match ready {
        Ok(ordered) => ordered,
        Err(fault) => {
            drop(bytes);
            return unrun(alloc, fault, host);
        }
    };
    let history = record_in(alloc, &bytes);
    drop(bytes);
    match history {
        Ok(history) => {
            let resumed = resume_plan(alloc, ordered, &history, host, crew);
            drop(history);
            ended(resumed)
        }
        Err(fault) => {
            drop(ordered);
            unrun(alloc, fault, host)
        }
    }
}

pub(crate) fn work<D: Docs, H: Host, T: Tool, G: Gate>(
    alloc: Global,
    name: &str,
    history: &str,
    docs: &mut D,
    host: H,
    crew: &mut Vec<Crew<T, G>>,
) -> Worked<H>
    requires crew { length crew.old.items ≡ 16 }
    ensures does { let before = crew_moment T.Tool G.Gate crew.old.items in
        let after = crew_moment T.Tool G.Gate crew.new.items in
        Does (resume name.now history.now) (doing (docs_moment D.Docs docs.old) (docs_moment D.Docs docs.new)
        (working T.apply T.known (work_moment H.Host host (first_shown before))
        (work_moment H.Host result.host (first_shown after)))
        (counting before after)) result.told.text.items result.told.answer }
    ensures crew { length crew.new.items ≡ 16 }
    ensures gates { map (λ (c : Crew T G). G.asked c.gate) crew.new.items
        ≡ map (λ (c : Crew T G). G.asked c.gate) crew.old.items }
{
    match read_recorded(alloc, docs, name, history) {
        Ok(recorded) => resume_recorded(alloc, recorded, host, crew),
        Err(fault) => unrun(alloc, fault, host),
    }
}
