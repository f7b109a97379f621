//! Writing a file of the working folder: as a draft with a name of its own, which is renamed in one step.

ghost use Rattle.std.specs.Prelude.{◌≡◌, IfOk, string_bytes};
ghost use Rattle.host_files.specs.Writing.{part_path};

use crate::standing::{SITES, Standing, found_at};
use crate::target::{OUTPUT, Target};
use outside::Memory;
use std::alloc::Global;
use std::io::ErrorKind;
use std::rt::Files;
use std::{fs, io};

/// The path of the draft with a number.
pub fn part_path(alloc: Global, number: u64) -> Result<String, Memory>
    ensures { IfOk result (λ p. string_bytes p ≡ part_path number) }
{
    let path = format!(in alloc; ".pegasus.part.{number}")?;
    Ok(path)
}

/// Makes a file. What stands under its path already, a link too, is removed first.
pub fn create_part<R: Files>(rt: &R, part: &str) -> io::Result<R::File> {
    match fs::File::create_new(rt, part) {
        Err(e) if e.kind() == ErrorKind::AlreadyExists => {
            fs::remove_file(rt, part)?;
            fs::File::create_new(rt, part)
        }
        made => made,
    }
}

/// Removes a draft's file. One that stays is replaced by the next draft of that number.
pub fn remove_part<R: Files>(rt: &R, part: &str) {
    let _removed = fs::remove_file(rt, part);
}

/// Makes a folder, if nothing stands there.
fn make_folder<R: Files>(rt: &R, path: &str) -> io::Result<()> {
    match found_at(rt, path)? {
        Standing::Folder => Ok(()),
        Standing::Nothing => fs::create_dir(rt, path),
        Standing::File | Standing::Other => Err(io::Error::from(ErrorKind::NotADirectory)),
    }
}

fn rename_part<R: Files>(rt: &R, part: &str, target: &Target) -> io::Result<()> {
    match target {
        Target::Site(site) => {
            make_folder(rt, SITES)?;
            make_folder(rt, site.folder.as_str())?;
            fs::rename(rt, part, site.path.as_str())
        }
        Target::Output(path) => {
            make_folder(rt, OUTPUT)?;
            fs::rename(rt, part, path.as_str())
        }
    }
}

/// Gives a draft's file its name, in place of an earlier file, or removes it.
pub fn place_part<R: Files>(rt: &R, part: &str, target: &Target) -> io::Result<()> {
    let placed = rename_part(rt, part, target);
    if placed.is_err() {
        remove_part(rt, part);
    }
    placed
}
