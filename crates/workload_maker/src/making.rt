//! The workload of so many images.

ghost use Rattle.std.specs.Prelude.{◌≤◌, IfOk};
ghost use Rattle.workload_maker.specs.Making.{IsMontage};

use crate::catalogues::{request, site_catalog, transformation_catalog};
use crate::images::Images;
use crate::replicas::{image_replicas, replica_catalog};
use crate::workflow::workflow;
use std::alloc::Global;
use values::{Blob, Documents, Memory, Text};

/// What a rehearsal runs: a request, the documents that it names, and the bytes of each replica by
/// its pfn.
#[derive(Drop)]
pub struct Workload {
    pub request: Blob,
    pub documents: Documents,
    pub replicas: Vec<(Text, Blob)>,
}

/// The workload of so many images.
pub fn montage(alloc: Global, images: u32) -> Result<Workload, Memory>
    requires some { 2 ≤ images }
    requires few { images ≤ 3000 }
    ensures { IfOk result (IsMontage images) }
{
    let images = Images { count: images };
    let documents = Documents {
        workflow: workflow(alloc, images)?,
        sites: Some(site_catalog(alloc)?),
        replicas: Some(replica_catalog(alloc, images)?),
        transformations: Some(transformation_catalog(alloc)?),
    };
    Ok(Workload {
        request: request(alloc, images)?,
        documents,
        replicas: image_replicas(alloc, images)?,
    })
}
