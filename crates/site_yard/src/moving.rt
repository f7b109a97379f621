//! Why a call of the host failed, and the removal of a pair.

ghost use Rattle.std.specs.Prelude.{◌≡◌};
ghost use Rattle.outside.specs.code.Counts.{IsLater};
ghost use Rattle.plan_core.specs.Names.{pair_file_name, pair_site_name};
ghost use Rattle.site_yard.specs.code.Moving.{SweptAway, replica_cause, scratch_cause};

use crate::names::{pair_file_name, pair_site_name};
use outside::{Host, HostFault, PairId};
use plan_core::Plan;
use run_record::Cause;
use std::alloc::Global;

pub(crate) fn replica_cause(fault: HostFault) -> Cause
    ensures { result ≡ replica_cause fault }
{
    match fault {
        HostFault::Absent => Cause::Absent,
        HostFault::Failed => Cause::HostFailed,
        HostFault::Over(_, length) => Cause::TooLong(length),
        HostFault::Memory => Cause::Memory,
    }
}

pub(crate) fn scratch_cause(fault: HostFault) -> Cause
    ensures { result ≡ scratch_cause fault }
{
    match fault {
        HostFault::Memory => Cause::Memory,
        _ => Cause::HostFailed,
    }
}

/// Removes a pair.
pub(crate) fn sweep_pair<H: Host>(
    plan: &Plan,
    host: &mut H,
    alloc: Global,
    pair: PairId,
) -> Result<(), Cause>
    ensures answer { SweptAway (pair_site_name plan.now pair.0) (pair_file_name plan.now pair.0)
        (H.told host.old) (H.told host.new) (H.counts host.old) (H.counts host.new) result }
    ensures marked { H.marked host.new ≡ H.marked host.old }
    ensures later { IsLater (H.counts host.old) (H.counts host.new) }
{
    match host.remove(
        alloc,
        pair_site_name(plan, pair),
        pair_file_name(plan, pair),
    ) {
        Ok(()) => Ok(()),
        Err(fault) => Err(scratch_cause(fault)),
    }
}
