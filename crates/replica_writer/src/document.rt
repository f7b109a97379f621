//! The document of a replica catalogue.

ghost use Rattle.std.specs.Prelude.{◌≡◌, map, IfOk};
ghost use Rattle.serde_json.specs.View.{view};
ghost use Rattle.replica_writer.specs.Document.{checksum_tree, document_tree, entry_tree, pfn_tree};

use crate::pfn::pfn_of;
use hex::encode;
use serde_json::{Value, json};
use std::alloc::Global;
use values::{Memory, Text};

fn checksum(alloc: Global, digest: &[u8; 32]) -> Result<Value, Memory>
    ensures { IfOk result (λ v. view v ≡ checksum_tree digest.now) }
{
    let digits = encode(alloc, digest)?;
    let checksum = json!(in alloc; {"sha256": digits})?;
    Ok(checksum)
}

fn local_pfn(alloc: Global, pfn: &Text) -> Result<Value, Memory>
    ensures { IfOk result (λ v. view v ≡ pfn_tree pfn.now) }
{
    let pfn = json!(in alloc; {"pfn": pfn.as_str(), "site": "local"})?;
    Ok(pfn)
}

/// The entry of a file.
pub fn entry(alloc: Global, lfn: &Text, digest: &[u8; 32]) -> Result<Value, Memory>
    ensures { IfOk result
        (λ v. view v ≡ entry_tree (record { lfn = lfn.now; digest = digest.now })) }
{
    let checksum = checksum(alloc, digest)?;
    let pfn = local_pfn(alloc, &pfn_of(alloc, lfn)?)?;
    let entry = json!(in alloc; {"checksum": checksum, "lfn": lfn.as_str(), "pfns": [pfn]})?;
    Ok(entry)
}

/// The document with these entries.
pub fn document(alloc: Global, entries: Vec<Value>) -> Result<Value, Memory>
    ensures { IfOk result (λ v. view v ≡ document_tree (map view entries.items)) }
{
    let document = json!(in alloc; {"pegasus": "5.0", "replicas": entries})?;
    Ok(document)
}
