//! The workload of so many images, surveyed, and the store of its images.

ghost use Rattle.std.specs.Prelude.{◌≡◌, ◌≤◌, IfErr, IfOk, Ok, OnOk};
ghost use Rattle.outside.specs.code.Counts.{no_calls};
ghost use Rattle.outside.specs.code.MemoryHost.{host_counts, host_store};
ghost use Rattle.outside.specs.code.Store.{blank};
ghost use Rattle.plan_request.specs.code.Limits.{IsWithinLimits};
ghost use Rattle.plan_request.specs.Request.{execute_checked, request_from_text};
ghost use Rattle.planner.specs.code.PlanFault.{GivesPlan, answered};
ghost use Rattle.planner.specs.declared.document.Document.TheVariants.{Request};
ghost use Rattle.rehearsal.specs.Preparing.{HasMosaic, IsPrepared, RefusesWorkload, stored};
ghost use Rattle.rehearsal.specs.Registered.{RegistersImages};

use crate::mosaic::check_mosaic;
use crate::registered::check_registered;
use outside::{Blob, Memory, MemoryHost, Text};
use plan_request::PlanRequest;
use planner::{Document, PlanFault, Surveyed, of_read_fault, survey_request};
use std::alloc::Global;
use workload_maker::montage;

/// A workload that is surveyed, and the host that holds its images.
#[derive(Drop)]
pub struct Prepared {
    pub surveyed: Surveyed,
    pub host: MemoryHost,
}

/// The request that a workload's text says.
fn read_request(alloc: Global, text: &Blob) -> Result<PlanRequest, PlanFault>
    ensures answer { GivesPlan (λ r. r) result (answered Request (request_from_text text.now)) }
    ensures sites { IfOk result (λ r. execute_checked r.execute ≡ Ok tt) }
    ensures limits { IfOk result (λ r. IsWithinLimits r) }
{
    match plan_request::read(alloc, text.as_slice()) {
        Ok(request) => Ok(request),
        Err(fault) => Err(of_read_fault(Document::Request, fault)),
    }
}

/// A store that holds these replicas alone.
fn host_of(alloc: Global, replicas: &[(Text, Blob)]) -> Result<MemoryHost, Memory>
    ensures store { IfOk result (λ h. host_store h ≡ stored replicas.now blank) }
    ensures counts { IfOk result (λ h. host_counts h ≡ no_calls) }
{
    let mut host = MemoryHost::new(alloc, Vec::new(alloc));
    for (pfn, bytes) in replicas {
        let Ok(()) = host.put_replica(alloc, pfn.as_str(), bytes.as_slice()) else {
            drop(host);
            return Err(Memory);
        };
    }
    Ok(host)
}

/// A store that holds a workload's images alone, if its survey registers them alone and requests mosaic.txt alone.
fn checked_host(
    alloc: Global,
    surveyed: &Surveyed,
    replicas: &[(Text, Blob)],
) -> Result<MemoryHost, Memory>
    ensures store { IfOk result (λ h. host_store h ≡ stored replicas.now blank) }
    ensures counts { IfOk result (λ h. host_counts h ≡ no_calls) }
    ensures registers { OnOk result (RegistersImages surveyed.now.survey.workflow
        surveyed.now.survey.replicas.entries replicas.now) }
    ensures mosaic { OnOk result (HasMosaic surveyed.now) }
{
    check_registered(alloc, surveyed, replicas)?;
    check_mosaic(surveyed)?;
    host_of(alloc, replicas)
}

/// The workload of so many images, surveyed, and a store that holds its images alone.
///
/// Whether its replicas are honest and mosaic.txt alone is requested is looked for, as it is for every number of
/// images; a workload where it isn't so would be answered as want of memory.
pub fn prepare(alloc: Global, images: u32) -> Result<Prepared, PlanFault>
    requires some { 2 ≤ images }
    requires few { images ≤ 3000 }
    ensures ready { IfOk result (IsPrepared images) }
    ensures fault { IfErr result (RefusesWorkload images) }
{
    let workload = montage(alloc, images)?;
    let request = match read_request(alloc, &workload.request) {
        Ok(request) => request,
        Err(fault) => {
            drop(workload);
            return Err(fault);
        }
    };
    let surveyed = match survey_request(alloc, request, &workload.documents) {
        Ok(surveyed) => surveyed,
        Err(fault) => {
            drop(workload);
            return Err(fault);
        }
    };
    match checked_host(alloc, &surveyed, &workload.replicas) {
        Ok(host) => {
            drop(workload);
            Ok(Prepared { surveyed, host })
        }
        Err(Memory) => {
            drop(workload);
            drop(surveyed);
            Err(PlanFault::Memory)
        }
    }
}
