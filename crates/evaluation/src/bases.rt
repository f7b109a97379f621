//! The bases of a workflow's files, read from their sources.

ghost use Rattle.std.specs.Prelude.{◌≡◌, List, ℕ, Result};
ghost use Rattle.outside.specs.code.Counts.{IsLater};
ghost use Rattle.evaluation.specs.Bases.{IsBaseRead, ReadsBases, base_answer, checked};
ghost use Rattle.evaluation.specs.Fault.{UnlessMemory, items_of};

use crate::fault::EvaluationFault;
use crate::sources::Source;
use outside::{Blob, Host, HostFault};
use run_record::RunFault;
use sha2::{Digest, Sha256};
use std::alloc::Global;

/// The longest base, in bytes.
const BASE_LIMIT: u64 = 1 << 40;

/// The bytes of a source, if they have the checksum that is registered.
fn checked(alloc: Global, source: &Source, bytes: Blob) -> Result<Blob, EvaluationFault>
    ensures { UnlessMemory result (result ≡ checked source.now bytes source.now.checksum) }
{
    let Some(wanted) = source.checksum else {
        return Ok(bytes);
    };
    let got = Sha256::digest(bytes.as_slice());
    if got == wanted {
        return Ok(bytes);
    }
    let lfn = source.lfn.copied(alloc)?;
    let fault = RunFault::ChecksumDiffers(lfn, wanted, got);
    Err(EvaluationFault::Failed(fault))
}

/// What the reading of a source answers.
fn base_answer(
    alloc: Global,
    source: &Source,
    read: Result<Blob, HostFault>,
) -> Result<Blob, EvaluationFault>
    ensures { UnlessMemory result (result ≡ base_answer source.now read) }
{
    let fault = match read {
        Ok(bytes) => return checked(alloc, source, bytes),
        Err(fault) => fault,
    };
    let lfn = source.lfn.copied(alloc)?;
    match fault {
        HostFault::Absent => {
            let fault = RunFault::ReplicaAbsent(lfn, source.pfn.copied(alloc)?);
            Err(EvaluationFault::Failed(fault))
        }
        HostFault::Failed => Err(EvaluationFault::Failed(RunFault::HostFailed(None))),
        HostFault::Over(limit, length) => {
            let fault = RunFault::ReplicaTooLong(lfn, limit, length);
            Err(EvaluationFault::Failed(fault))
        }
        HostFault::Memory => Err(EvaluationFault::Failed(RunFault::Memory)),
    }
}

/// Reads the bytes of a source.
fn read_base<H: Host>(alloc: Global, host: &mut H, source: &Source) -> Result<Blob, EvaluationFault>
    ensures answer { UnlessMemory result
        (IsBaseRead (H.told host.old) source.now (H.counts host.old) (H.counts host.new) result) }
    ensures told { H.told host.new ≡ H.told host.old }
    ensures later { IsLater (H.counts host.old) (H.counts host.new) }
{
    let read = host.read_replica(alloc, source.pfn.as_str(), BASE_LIMIT);
    base_answer(alloc, source, read)
}

/// Reads the base of each file that has a source, by number, up to the first fault.
pub(crate) fn read_bases<H: Host>(
    alloc: Global,
    host: &mut H,
    sources: &[Option<Source>],
) -> Result<Vec<Option<Blob>>, EvaluationFault>
    ensures answer { UnlessMemory result
        (ReadsBases (H.told host.old) sources.now (H.counts host.old) (H.counts host.new) (items_of result)) }
    ensures told { H.told host.new ≡ H.told host.old }
    ensures later { IsLater (H.counts host.old) (H.counts host.new) }
{
    let mut bases = Vec::new(alloc);
    for source in sources {
        match source {
            Some(source) => match read_base(alloc, host, source) {
                Ok(bytes) => bases.push(Some(bytes))?,
                Err(fault) => return Err(fault),
            },
            None => bases.push(None)?,
        }
    }
    Ok(bases)
}
