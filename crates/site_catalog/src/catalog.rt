//! What a site catalogue says.

use values::{Items, Text};

/// A whole catalogue.
#[derive(Drop)]
pub struct SiteCatalog {
    pub sites: Items<SiteEntry>,
    /// The paths of the document's keys that are not acted on, in byte order.
    pub ignored: Items<Text>,
}

/// A site.
#[derive(Drop)]
pub struct SiteEntry {
    pub name: Text,
    pub directories: Items<Directory>,
}

/// A directory of a site. Its kind and its path are kept as they stand in the document.
#[derive(Drop)]
pub struct Directory {
    pub kind: Text,
    pub path: Option<Text>,
    pub servers: Items<FileServer>,
}

/// Where a directory is reached, and for what. Both are kept as they stand in the document.
#[derive(Drop)]
pub struct FileServer {
    pub operation: Text,
    pub url: Text,
}
