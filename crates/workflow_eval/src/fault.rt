//! Why a workflow could not be evaluated.

ghost use Rattle.std.specs.Prelude.{◌≡◌};
ghost use Rattle.workflow_eval.specs.declared.fault.EvalFault.TheVariants.{Memory};

use outside::{JobId, Memory};

#[derive(Clone, Copy, PartialEq, Eq)]
pub enum EvalFault {
    /// Of the values of the job's inputs its tool makes nothing.
    Declined(JobId),
    /// The tool failed at the job.
    ToolFailed(JobId),
    Memory,
}

impl From<Memory> for EvalFault {
    ghost from_gives = { λ _ e. e ≡ Memory };

    fn from(_e: Memory) -> EvalFault {
        EvalFault::Memory
    }
}
