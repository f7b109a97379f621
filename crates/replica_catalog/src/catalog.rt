//! What a replica catalogue says.

ghost use Rattle.std.specs.Prelude.{◌≡◌, [], IfOk};
ghost use Rattle.replica_catalog.specs.Catalog.{replica_view, no_replicas};

use std::alloc::Global;
use values::{Items, Text};

/// A whole catalogue.
#[derive(Drop)]
pub struct ReplicaCatalog {
    /// Each lfn once, in order of first appearance.
    pub entries: Items<Replica>,
    /// How many entries the document lists, those of one lfn each for itself.
    pub listed: u64,
    /// The paths of the document's keys that are not acted on, in byte order.
    pub ignored: Items<Text>,
}

/// A file, and where it is.
#[derive(Drop)]
pub struct Replica {
    pub lfn: Text,
    pub pfns: Items<Pfn>,
    /// The SHA-256 of the file.
    pub checksum: Option<[u8; 32]>,
}

/// Where a file is: the site, and the file's name there.
#[derive(Drop)]
pub struct Pfn {
    pub site: Text,
    pub pfn: Text,
}

impl ReplicaCatalog {
    /// The catalogue that says nothing.
    pub fn empty(alloc: Global) -> ReplicaCatalog
        ensures says { replica_view result ≡ no_replicas }
        ensures ignored { result.ignored ≡ [] }
    {
        ReplicaCatalog {
            entries: Items::new(Vec::new(alloc)),
            listed: 0,
            ignored: Items::new(Vec::new(alloc)),
        }
    }
}
