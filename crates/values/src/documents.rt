//! The documents that a request names.

use crate::blob::Blob;

/// The bytes of a workflow's document and of the catalogues that are named beside it.
#[derive(Drop)]
pub struct Documents {
    pub workflow: Blob,
    pub sites: Option<Blob>,
    pub replicas: Option<Blob>,
    pub transformations: Option<Blob>,
}
