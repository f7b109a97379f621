//! The files that would have to be made.

ghost use Rattle.std.specs.Prelude.{◌≡◌, map, IfOk};
ghost use Rattle.data_reuse.specs.Absent.{is_absent};

use replica_catalog::{ReplicaCatalog, Replicas};
use std::alloc::Global;
use values::{Memory, Text};

fn is_absent(replicas: &Replicas<'_>, force: bool, file: &Text) -> bool
    ensures { result ≡ is_absent replicas.now force file.now }
{
    force || !replicas.is_registered(file)
}

/// For each file, whether it would have to be made.
pub fn absent_files(
    alloc: Global,
    files: &[Text],
    catalog: &ReplicaCatalog,
    force: bool,
) -> Result<Vec<bool>, Memory>
    ensures { IfOk result (λ v. v.items ≡ map (is_absent catalog.now.entries force) files.now) }
{
    let replicas = Replicas::new(alloc, catalog)?;
    let mut absent = Vec::new(alloc);
    for file in files {
        absent.push(is_absent(&replicas, force, file))?;
    }
    Ok(absent)
}
