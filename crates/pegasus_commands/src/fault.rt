//! Why a command isn't done.

ghost use Rattle.std.specs.Prelude.{◌≡◌};
ghost use Rattle.evaluation.specs.declared.fault.EvaluationFault.{EvaluationFault as Unvalued};
ghost use Rattle.pegasus_commands.specs.declared.fault.CallFault.TheVariants as faults;
ghost use Rattle.pegasus_commands.specs.code.Fault.{ensemble_answer, join_answer, member_answer, plan_answer, resume_answer, run_answer, value_answer};

use ensemble::{EnsembleFault, JoinFault};
use evaluation::EvaluationFault;
use outside::{Memory, TaskId, Text};
use peg_json::{ReadFault, TreeFault};
use planner::PlanFault;
use resume_run::ResumeFault;
use run_record::RunFault;
use std::alloc::AllocFailed;

/// Why a command isn't done.
#[derive(Drop)]
pub enum CallFault {
    /// No memory was left.
    Memory,
    DocAbsent(Text),
    /// The document is longer than this limit, in bytes.
    DocTooLong(Text, u64),
    DocFailed(Text),
    Refused(PlanFault),
    /// No order fits: the first task that doesn't, its site, and the bytes that it would need there.
    Exceeds {
        site: Text,
        task: TaskId,
        needed: u64,
        bound: u64,
    },
    Failed(RunFault),
    /// The first line of a record that stands in no record's text.
    BadRecord(u64),
    /// The first entry of a record that isn't allowed after those before it.
    IllegalRecord(u64),
    RefusedEnsemble(EnsembleFault),
    /// A member of an ensemble, and why its request's documents are refused.
    RefusedMember(Text, PlanFault),
}

impl From<Memory> for CallFault {
    ghost from_gives = { λ _ e. e ≡ faults.Memory };

    fn from(_e: Memory) -> CallFault {
        CallFault::Memory
    }
}

impl<T: Drop> From<AllocFailed<T>> for CallFault {
    ghost from_gives = { λ _ e. e ≡ faults.Memory };

    fn from(_e: AllocFailed<T>) -> CallFault {
        CallFault::Memory
    }
}

/// The answer for a fault of planning.
pub(crate) fn of_plan_fault(fault: PlanFault) -> CallFault
    ensures { result ≡ plan_answer fault }
{
    match fault {
        PlanFault::Memory => CallFault::Memory,
        PlanFault::Exceeds {
            site,
            task,
            needed,
            bound,
        } => CallFault::Exceeds {
            site,
            task,
            needed,
            bound,
        },
        fault => CallFault::Refused(fault),
    }
}

/// The answer for a fault of an ensemble's document.
pub(crate) fn of_ensemble_fault(fault: EnsembleFault) -> CallFault
    ensures { result ≡ ensemble_answer fault }
{
    match fault {
        EnsembleFault::Read(ReadFault::Tree(TreeFault::Memory)) => CallFault::Memory,
        fault => CallFault::RefusedEnsemble(fault),
    }
}

/// The answer for a member's documents that are answered with this: a refusal is told of the member.
pub(crate) fn of_member(name: Text, answer: CallFault) -> CallFault
    ensures { result ≡ member_answer name answer }
{
    match answer {
        CallFault::Refused(fault) => CallFault::RefusedMember(name, fault),
        answer => answer,
    }
}

/// The answer for members that have no joint.
pub(crate) fn of_join_fault(fault: JoinFault) -> CallFault
    ensures { result ≡ join_answer fault }
{
    match fault {
        JoinFault::TooMany(counted, count, limit) => {
            CallFault::Refused(PlanFault::TooMany(counted, count, limit))
        }
        JoinFault::Memory => CallFault::Memory,
    }
}

/// The answer for a fault of a run.
pub(crate) fn of_run_fault(fault: RunFault) -> CallFault
    ensures { result ≡ run_answer fault }
{
    match fault {
        RunFault::Memory => CallFault::Memory,
        fault => CallFault::Failed(fault),
    }
}

/// Why a run wasn't gone on with, or failed, as an answer.
pub(crate) fn of_resume_fault(fault: ResumeFault) -> CallFault
    ensures { result ≡ resume_answer fault }
{
    match fault {
        ResumeFault::Illegal(entry) => CallFault::IllegalRecord(entry),
        ResumeFault::Failed(fault) => of_run_fault(fault),
    }
}

/// The answer for a fault of an evaluation.
pub(crate) fn of_evaluation_fault(fault: EvaluationFault) -> CallFault
    ensures { result ≡ value_answer fault }
{
    match fault {
        EvaluationFault::NoReplica(lfn) => CallFault::Refused(PlanFault::NoReplica(lfn)),
        EvaluationFault::ToolUnknown(id, tool) => {
            CallFault::Refused(PlanFault::ToolUnknown(id, tool))
        }
        EvaluationFault::Failed(fault) => of_run_fault(fault),
    }
}
