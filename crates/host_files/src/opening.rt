//! Opening files of the machine. Each call counts itself.

ghost use Rattle.std.specs.Prelude.{◌≡◌, ◌≤◌, Err, IfErr, IfOk, IfSome, None, OnOk, Some, option_map};
ghost use Rattle.outside.specs.code.Counts.{IsLater};
ghost use Rattle.outside.specs.code.Host.{Reads};
ghost use Rattle.outside.specs.code.Lending.{Opens};
ghost use Rattle.host_files.specs.Opening.{FindsNone};

use crate::folder_reading::FolderReading;
use crate::reading::{Reading, read_within};
use crate::standing::{Standing, found_at, standing_at_site};
use crate::target::SitePath;
use outside::{Blob, Counts, HostFault, ReadPart};
use std::alloc::Global;
use std::fs;
use std::fs::OpenFile;
use std::io::{ErrorKind, Read};
use std::rt::Files;

/// An open file, and its length, if it has one: a folder or a pipe has none.
#[derive(Drop)]
struct Opened<F> {
    file: F,
    length: Option<u64>,
}

/// Opens a file of the machine, if it isn't longer than a limit. A refusal counts itself.
fn open_within<R: Files>(
    rt: &R,
    counts: &mut Counts,
    path: &str,
    limit: u64,
) -> Result<Opened<R::File>, HostFault>
    ensures ok { OnOk result (counts.new ≡ counts.old) }
    ensures within { IfOk result (λ o. IfSome o.length (λ n. n ≤ limit)) }
    ensures err { IfErr result (λ e. Reads None limit counts.old counts.new (Err e)) }
    ensures later { IsLater counts.old counts.new }
{
    let file = match fs::open(rt, path) {
        Ok(file) => file,
        Err(e) if e.kind() == ErrorKind::NotFound => {
            counts.add_miss();
            return Err(HostFault::Absent);
        }
        Err(_) => {
            counts.add_fault();
            return Err(HostFault::Failed);
        }
    };
    let Ok(found) = file.metadata() else {
        counts.add_fault();
        return Err(HostFault::Failed);
    };
    let length = found.is_file().then_some(found.len());
    match length {
        Some(length) if length > limit => {
            counts.add_miss();
            Err(HostFault::Over(limit, length))
        }
        _ => Ok(Opened { file, length }),
    }
}

/// Reads an open file to its end, and counts the call.
fn read_open<F: Read>(
    alloc: Global,
    file: &mut F,
    counts: &mut Counts,
    limit: u64,
) -> Result<Blob, HostFault>
    ensures answer { Reads (option_map Some (F.remaining file.old)) limit counts.old counts.new result }
    ensures later { IsLater counts.old counts.new }
{
    let mut bytes = Vec::new(alloc);
    match read_within(file, limit, &mut bytes) {
        Reading::Whole => {
            counts.add_done();
            Ok(Blob::new(bytes))
        }
        Reading::Longer(length) => {
            counts.add_miss();
            Err(HostFault::Over(limit, length))
        }
        Reading::Failed => {
            counts.add_fault();
            Err(HostFault::Failed)
        }
        Reading::Memory => Err(HostFault::Memory),
    }
}

/// Reads a file of the machine, and counts the call.
pub fn read_file<R: Files>(
    alloc: Global,
    rt: &R,
    counts: &mut Counts,
    path: &str,
    limit: u64,
) -> Result<Blob, HostFault>
    ensures answer { Reads None limit counts.old counts.new result }
    ensures later { IsLater counts.old counts.new }
{
    let mut opened = open_within(rt, counts, path, limit)?;
    read_open(alloc, &mut opened.file, counts, limit)
}

/// Whether a file of length 0 has no bytes. One of `/proc` has that length, and gives some.
fn has_none<F: Read>(file: &mut F) -> bool {
    let mut piece = [0u8; 1];
    matches!(file.read(&mut piece), Ok(0))
}

/// Opens a file of the machine to be read in pieces, and counts the call. What has no length, or another than it tells,
/// fails.
pub fn open_file<R: Files>(
    rt: &R,
    counts: &mut Counts,
    path: &str,
    limit: u64,
) -> Result<FolderReading<R::File>, HostFault>
    ensures answer { Opens ⟦<FolderReading<R::File> as ReadPart>⟧.state None limit counts.old counts.new
        result }
    ensures later { IsLater counts.old counts.new }
{
    let mut opened = open_within(rt, counts, path, limit)?;
    let Some(length) = opened.length else {
        counts.add_fault();
        return Err(HostFault::Failed);
    };
    if length == 0 && !has_none(&mut opened.file) {
        counts.add_fault();
        return Err(HostFault::Failed);
    }
    counts.add_done();
    Ok(FolderReading::new(opened.file, length))
}

/// Whether a file stands in a site's folder, which is looked at too where it wasn't just seen. A refusal counts itself.
pub fn find_at_site<R: Files>(
    rt: &R,
    counts: &mut Counts,
    at: &SitePath,
    folder_seen: bool,
) -> Result<(), HostFault>
    ensures ok { OnOk result (counts.new ≡ counts.old) }
    ensures err { IfErr result (FindsNone counts.old counts.new) }
    ensures later { IsLater counts.old counts.new }
{
    let path = at.path.as_str();
    let found = if folder_seen {
        found_at(rt, path)
    } else {
        standing_at_site(rt, at.folder.as_str(), path)
    };
    match found {
        Ok(Standing::File) => Ok(()),
        Ok(Standing::Nothing) => {
            counts.add_miss();
            Err(HostFault::Absent)
        }
        _ => {
            counts.add_fault();
            Err(HostFault::Failed)
        }
    }
}
