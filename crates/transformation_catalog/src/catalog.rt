//! A transformation catalogue after its document.

use values::{Items, Text};
use workflow_core::Transformation;

/// Transformations, no two with the same namespace, name and version.
#[derive(Drop)]
pub struct TransformationCatalog {
    pub entries: Items<TransformationEntry>,
    /// The paths of the document's keys that aren't acted on, in byte order.
    pub ignored: Items<Text>,
}

/// A transformation and the sites that have it. The two profiles are kept as texts.
pub struct TransformationEntry {
    pub transformation: Transformation,
    pub sites: Items<TransformationSite>,
    pub cluster_size: Option<Text>,
    pub cluster_num: Option<Text>,
}

impl Drop for TransformationEntry {
    fn drop(self) {
        let TransformationEntry {
            transformation,
            sites,
            cluster_size,
            cluster_num,
        } = self;
    }
}

/// A site that has a transformation: installed there, or else to be staged from there.
#[derive(Drop)]
pub struct TransformationSite {
    pub name: Text,
    pub installed: bool,
}
