//! Why a workflow gives no values.

ghost use Rattle.std.specs.Prelude.{◌≡◌};
ghost use Rattle.evaluation.specs.declared.fault.EvaluationFault.TheVariants.{Failed};
ghost use Rattle.run_record.specs.declared.run_fault.RunFault.TheVariants as run_faults;

use outside::{Memory, Text};
use run_record::RunFault;
use std::alloc::AllocFailed;

/// Why a workflow gives no values.
#[derive(Drop)]
pub enum EvaluationFault {
    /// A file that no job makes, of which no place is registered.
    NoReplica(Text),
    /// A job's id, and its tool, which isn't known.
    ToolUnknown(Text, Text),
    Failed(RunFault),
}

impl From<Memory> for EvaluationFault {
    ghost from_gives = { λ _ e. e ≡ Failed run_faults.Memory };

    fn from(_e: Memory) -> EvaluationFault {
        EvaluationFault::Failed(RunFault::Memory)
    }
}

impl<T: Drop> From<AllocFailed<T>> for EvaluationFault {
    ghost from_gives = { λ _ e. e ≡ Failed run_faults.Memory };

    fn from(_e: AllocFailed<T>) -> EvaluationFault {
        EvaluationFault::Failed(RunFault::Memory)
    }
}
