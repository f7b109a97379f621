//! Where a file of the working folder is to stand.

ghost use Rattle.std.specs.Prelude.{◌≡◌, IfOk, string_bytes};
ghost use Rattle.host_files.specs.Target.{IsTarget, output_path, site_folder, site_path};

use crate::file_name::path_in;
use crate::standing::SITES;
use outside::{Memory, Place};
use std::alloc::Global;

/// The folder of the delivered files.
pub const OUTPUT: &str = "output";

/// A site's folder, and the path of a file in it.
#[derive(Drop)]
pub struct SitePath {
    pub folder: String,
    pub path: String,
}

/// The path of a file of the working folder.
#[derive(Drop)]
pub enum Target {
    Site(SitePath),
    Output(String),
}

pub fn site_folder(alloc: Global, site: &str) -> Result<String, Memory>
    ensures { IfOk result (λ p. string_bytes p ≡ site_folder site.now) }
{
    path_in(alloc, SITES, site)
}

pub fn site_path(alloc: Global, site: &str, name: &str) -> Result<SitePath, Memory>
    ensures folder { IfOk result (λ p. string_bytes p.folder ≡ site_folder site.now) }
    ensures path { IfOk result (λ p. string_bytes p.path ≡ site_path site.now name.now) }
{
    let folder = site_folder(alloc, site)?;
    let path = path_in(alloc, folder.as_str(), name)?;
    Ok(SitePath { folder, path })
}

pub fn output_path(alloc: Global, name: &str) -> Result<String, Memory>
    ensures { IfOk result (λ p. string_bytes p ≡ output_path name.now) }
{
    path_in(alloc, OUTPUT, name)
}

/// Where the file of a place is to stand.
pub fn target_of(alloc: Global, place: &Place) -> Result<Target, Memory>
    ensures { IfOk result (IsTarget place.now) }
{
    match place {
        Place::Scratch(site, name) => {
            let path = site_path(alloc, site.as_str(), name.as_str())?;
            Ok(Target::Site(path))
        }
        Place::Delivery(name) => {
            let path = output_path(alloc, name.as_str())?;
            Ok(Target::Output(path))
        }
    }
}
