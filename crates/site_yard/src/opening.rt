//! Whether the sites of a plan are free, and why a run wasn't opened.

ghost use Rattle.std.specs.Prelude.{◌≡◌, ◌≤◌, ◌<◌, ◌^◌, ◌⊎◌, IfOk, length};
ghost use Rattle.outside.specs.code.Counts.{IsLater};
ghost use Rattle.site_yard.specs.code.Opening.{Looked, LookedAt, fault_of_opening};
ghost use Rattle.run_record.specs.declared.run_fault.RunFault.TheVariants as run;
ghost use Rattle.site_yard.specs.declared.opening.OpenFault.TheVariants as openings;

use crate::names::{is_used, pair_file_name, pair_site_name, site_name};
use outside::{Host, HostFault, Memory, PairId, SiteId, Text};
use plan_core::Plan;
use run_record::RunFault;
use std::alloc::Global;
use storage_simulation::Ordered;

/// Why nothing was opened.
#[derive(Clone, Copy)]
pub enum OpenFault {
    ScratchInUse(SiteId),
    HostFailed,
    Memory,
    /// A pair that is stored by the record, and isn't there.
    PairAbsent(PairId),
    /// A pair that is stored, its size by the record, and the length of the file that is there.
    LengthDiffers(PairId, u64, u64),
}

/// Why nothing was opened, with what was handed in.
#[derive(Drop)]
pub struct OpenRefused<H> {
    pub fault: OpenFault,
    pub ordered: Ordered,
    pub host: H,
}

/// Whether a site that has a pair is empty.
fn look_at<H: Host>(plan: &Plan, host: &mut H, alloc: Global, site: SiteId) -> Result<(), OpenFault>
    ensures answer { LookedAt plan.now site.0 (H.told host.old) (H.counts host.old)
        (H.counts host.new) result }
    ensures told { H.told host.new ≡ H.told host.old }
    ensures marked { H.marked host.new ≡ H.marked host.old }
    ensures later { IsLater (H.counts host.old) (H.counts host.new) }
{
    if !is_used(plan, site) {
        return Ok(());
    }
    match host.scratch_empty(alloc, site_name(plan, site)) {
        Ok(true) => Ok(()),
        Ok(false) => Err(OpenFault::ScratchInUse(site)),
        Err(HostFault::Memory) => Err(OpenFault::Memory),
        Err(_) => Err(OpenFault::HostFailed),
    }
}

/// Whether each site that has a pair is empty.
pub(crate) fn look<H: Host>(plan: &Plan, host: &mut H, alloc: Global) -> Result<(), OpenFault>
    requires { length plan.now.sites < 2 ^ 32 }
    ensures answer { Looked plan.now (H.told host.old) (H.counts host.old) (H.counts host.new) result }
    ensures told { H.told host.new ≡ H.told host.old }
    ensures marked { H.marked host.new ≡ H.marked host.old }
    ensures later { IsLater (H.counts host.old) (H.counts host.new) }
{
    for k in 0..plan.sites.as_slice().len() {
        match look_at(plan, host, alloc, SiteId(k as u32)) {
            Ok(()) => {}
            Err(fault) => return Err(fault),
        }
    }
    Ok(())
}

/// The name of a site in use.
fn in_use(plan: &Plan, alloc: Global, site: SiteId) -> Result<RunFault, Memory>
    ensures { IfOk result (λ f. f ≡ fault_of_opening plan.now (openings.ScratchInUse site)) }
{
    let name = Text::copy_of(alloc, site_name(plan, site))?;
    Ok(RunFault::ScratchInUse(name))
}

/// The names of a pair that isn't there.
fn absent_pair(plan: &Plan, alloc: Global, pair: PairId) -> Result<RunFault, Memory>
    ensures { IfOk result (λ f. f ≡ fault_of_opening plan.now (openings.PairAbsent pair)) }
{
    let site = Text::copy_of(alloc, pair_site_name(plan, pair))?;
    let name = Text::copy_of(alloc, pair_file_name(plan, pair))?;
    Ok(RunFault::PairAbsent(site, name))
}

/// The names of a pair of another length.
fn other_length(
    plan: &Plan,
    alloc: Global,
    pair: PairId,
    recorded: u64,
    found: u64,
) -> Result<RunFault, Memory>
    ensures { IfOk result (λ f. f ≡ fault_of_opening plan.now (openings.LengthDiffers pair recorded found)) }
{
    let site = Text::copy_of(alloc, pair_site_name(plan, pair))?;
    let name = Text::copy_of(alloc, pair_file_name(plan, pair))?;
    Ok(RunFault::LengthDiffers(site, name, recorded, found))
}

/// Why a run failed that wasn't opened, or want of memory for the names in it.
pub fn opening_fault(plan: &Plan, alloc: Global, fault: OpenFault) -> RunFault
    ensures { (result ≡ fault_of_opening plan.now fault) ⊎ (result ≡ run.Memory) }
{
    let named = match fault {
        OpenFault::ScratchInUse(site) => in_use(plan, alloc, site),
        OpenFault::PairAbsent(pair) => absent_pair(plan, alloc, pair),
        OpenFault::LengthDiffers(pair, recorded, found) => {
            other_length(plan, alloc, pair, recorded, found)
        }
        OpenFault::HostFailed => Ok(RunFault::HostFailed(None)),
        OpenFault::Memory => Err(Memory),
    };
    match named {
        Ok(fault) => fault,
        Err(Memory) => RunFault::Memory,
    }
}
