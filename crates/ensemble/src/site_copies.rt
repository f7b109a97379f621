//! Copies of site catalogues.

ghost use Rattle.std.specs.Prelude.{◌≡◌, IfOk};

use crate::copying::option_copied;
use plan_core::texts_copied;
use site_catalog::{Directory, FileServer, SiteCatalog, SiteEntry};
use std::alloc::Global;
use values::{Items, Memory};

fn servers_copied(alloc: Global, servers: &[FileServer]) -> Result<Items<FileServer>, Memory>
    ensures { IfOk result (λ copy. copy ≡ servers.now) }
{
    let mut copies = Vec::new(alloc);
    for server in servers {
        copies.push(FileServer {
            operation: server.operation.copied(alloc)?,
            url: server.url.copied(alloc)?,
        })?;
    }
    Ok(Items::new(copies))
}

fn directory_copied(alloc: Global, directory: &Directory) -> Result<Directory, Memory>
    ensures { IfOk result (λ copy. copy ≡ directory.now) }
{
    Ok(Directory {
        kind: directory.kind.copied(alloc)?,
        path: option_copied(alloc, &directory.path)?,
        servers: servers_copied(alloc, directory.servers.as_slice())?,
    })
}

fn directories_copied(alloc: Global, directories: &[Directory]) -> Result<Items<Directory>, Memory>
    ensures { IfOk result (λ copy. copy ≡ directories.now) }
{
    let mut copies = Vec::new(alloc);
    for directory in directories {
        copies.push(directory_copied(alloc, directory)?)?;
    }
    Ok(Items::new(copies))
}

fn sites_copied(alloc: Global, sites: &[SiteEntry]) -> Result<Items<SiteEntry>, Memory>
    ensures { IfOk result (λ copy. copy ≡ sites.now) }
{
    let mut copies = Vec::new(alloc);
    for site in sites {
        copies.push(SiteEntry {
            name: site.name.copied(alloc)?,
            directories: directories_copied(alloc, site.directories.as_slice())?,
        })?;
    }
    Ok(Items::new(copies))
}

/// A copy of a catalogue.
pub fn catalog_copied(alloc: Global, catalog: &SiteCatalog) -> Result<SiteCatalog, Memory>
    ensures { IfOk result (λ copy. copy ≡ catalog.now) }
{
    Ok(SiteCatalog {
        sites: sites_copied(alloc, catalog.sites.as_slice())?,
        ignored: texts_copied(alloc, catalog.ignored.as_slice())?,
    })
}
