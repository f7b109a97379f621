//! What stands at a path of the working folder. A symbolic link is never followed.

use std::alloc::Global;
use std::io::ErrorKind;
use std::rt::Files;
use std::{fs, io};

/// The folder of the sites' folders.
pub const SITES: &str = "sites";

/// What stands at a path.
#[derive(Drop)]
pub enum Standing {
    Nothing,
    File,
    Folder,
    /// A symbolic link, or what else isn't a file.
    Other,
}

/// What stands at a path itself, be it a link.
pub fn found_at<R: Files>(rt: &R, path: &str) -> io::Result<Standing> {
    let found = match fs::symlink_metadata(rt, path) {
        Ok(found) => found,
        Err(e) if e.kind() == ErrorKind::NotFound => return Ok(Standing::Nothing),
        Err(e) => return Err(e),
    };
    if found.is_dir() {
        Ok(Standing::Folder)
    } else if found.is_file() {
        Ok(Standing::File)
    } else {
        Ok(Standing::Other)
    }
}

/// What stands at a path in a site's folder. If the folder is something else, so is what stands in it.
pub fn standing_at_site<R: Files>(rt: &R, folder: &str, path: &str) -> io::Result<Standing> {
    for outer in [SITES, folder] {
        match found_at(rt, outer)? {
            Standing::Folder => {}
            Standing::Nothing => return Ok(Standing::Nothing),
            Standing::File | Standing::Other => return Ok(Standing::Other),
        }
    }
    found_at(rt, path)
}

/// Whether a site's folder has no entry.
pub fn is_empty<R: Files>(alloc: Global, rt: &R, folder: &str) -> io::Result<bool> {
    match standing_at_site(rt, SITES, folder)? {
        Standing::Nothing => Ok(true),
        Standing::Folder => {
            let mut entries = fs::read_dir(&(rt, alloc), folder)?;
            match entries.next() {
                None => Ok(true),
                Some(Ok(_)) => Ok(false),
                Some(Err(e)) => Err(e),
            }
        }
        Standing::File | Standing::Other => Err(io::Error::from(ErrorKind::NotADirectory)),
    }
}
