//! Files as documents, as replicas, and as what a store keeps.

use host_files::*;
use outside::{DocFault, Docs, Host, HostFault, Place, ReadPart, Text, WritePart};
use std::alloc::Global;
use std::fs;
use std::os::unix::fs::symlink;
use std::process::Abort;
use std::rt::Files;
use std::test::Fail;

const NAME: &str = "host_files_document.txt";

/// The file of the tests of drafts.
const PARTS: &str = "sites/host_files_parts/x";

/// Whether a fetch gives these bytes, or this fault.
fn gives<R: Files>(
    alloc: Global,
    docs: &mut FolderDocs<R>,
    (name, limit): (&str, u64),
    wanted: Result<&[u8], DocFault>,
) -> bool {
    let mut into = Vec::new(alloc);
    match (docs.fetch(alloc, name, limit, &mut into), wanted) {
        (Ok(()), Ok(bytes)) => into.as_slice() == bytes,
        (Err(fault), Err(wanted)) => fault == wanted && into.is_empty(),
        _ => false,
    }
}

fn documents_are_told<R: Files + Abort>(
    rt: &R,
    alloc: Global,
    docs: &mut FolderDocs<R>,
) -> Result<(), Fail> {
    let too_long = DocFault::TooLong(4);
    assert!(rt; gives(alloc, docs, (NAME, 5), Ok(b"hello")));
    assert!(rt; gives(alloc, docs, (NAME, 4), Err(too_long)));
    assert!(rt;
        gives(
            alloc,
            docs,
            ("host_files_nothing.txt", 5),
            Err(DocFault::Absent)
        )
    );
    assert!(rt; gives(alloc, docs, (".", 5), Err(DocFault::Failed)));
    assert!(rt; docs.faults() == 1 && docs.misses() == 2);
    Ok(())
}

#[test]
fn documents_of_a_folder(rt: HostRuntime) -> Result<(), Fail> {
    fs::write(&rt, NAME, "hello")?;
    let mut docs = FolderDocs::new(rt);
    let told = documents_are_told(&rt, rt.alloc(), &mut docs);
    drop(docs);
    told?;
    fs::remove_file(&rt, NAME)?;
    Ok(())
}

/// What a reading gave: how many bytes, or the fault.
fn length_of<R: Files + Drop>(
    alloc: Global,
    host: &mut FolderHost<R>,
    pfn: &str,
) -> Result<usize, HostFault>
where
    R::File: Claim,
{
    let replica = host.read_replica(alloc, pfn, 5)?;
    Ok(replica.as_slice().len())
}

fn replicas_are_told<R: Files + Abort + Drop>(
    rt: &R,
    alloc: Global,
    host: &mut FolderHost<R>,
) -> Result<(), Fail>
where
    R::File: Claim,
{
    for (pfn, wanted) in [
        ("host_files_replica", Ok(5)),
        ("file://host_files_replica", Ok(5)),
        ("gsiftp://host_files_replica", Err(HostFault::Absent)),
        ("host_files_long_replica", Err(HostFault::Over(5, 6))),
        ("host_files_no_replica", Err(HostFault::Absent)),
        (".", Err(HostFault::Failed)),
    ] {
        assert!(rt; length_of(alloc, host, pfn) == wanted, "{pfn}");
    }
    assert!(rt; host.faults() == 1 && host.misses() == 3);
    Ok(())
}

#[test]
fn replicas_of_a_folder(rt: HostRuntime) -> Result<(), Fail> {
    fs::write(&rt, "host_files_replica", "hello")?;
    fs::write(&rt, "host_files_long_replica", "hello!")?;
    let mut host = FolderHost::new(rt);
    let told = replicas_are_told(&rt, rt.alloc(), &mut host);
    drop(host);
    told?;
    fs::remove_file(&rt, "host_files_replica")?;
    fs::remove_file(&rt, "host_files_long_replica")?;
    Ok(())
}

/// What a reading of a site's file gave: how many bytes, or the fault.
fn scratch_at<R: Files + Drop>(
    alloc: Global,
    host: &mut FolderHost<R>,
    site: &str,
    name: &str,
) -> Result<usize, HostFault>
where
    R::File: Claim,
{
    let bytes = host.read_scratch(alloc, site, name, 5)?;
    Ok(bytes.as_slice().len())
}

/// Two files of a site are written, read and removed, and one is delivered.
fn files_are_kept<R: Files + Abort + Drop>(
    rt: &R,
    alloc: Global,
    host: &mut FolderHost<R>,
) -> Result<(), Fail>
where
    R::File: Claim,
{
    let site = "host/files";
    assert!(rt; host.scratch_empty(alloc, site) == Ok(true));
    assert!(rt; host.write_scratch(alloc, site, ".x%", b"hello") == Ok(()));
    assert!(rt; host.write_scratch(alloc, site, "long", b"hello!") == Ok(()));
    assert!(rt; fs::exists(rt, "sites/host%2Ffiles/%2Ex%25")?);
    assert!(rt; scratch_at(alloc, host, site, ".x%") == Ok(5));
    assert!(rt; scratch_at(alloc, host, site, "long") == Err(HostFault::Over(5, 6)));
    assert!(rt; scratch_at(alloc, host, site, "x") == Err(HostFault::Absent));
    assert!(rt; host.scratch_empty(alloc, site) == Ok(false));
    assert!(rt; host.remove(alloc, site, ".x%") == Ok(()));
    assert!(rt; host.remove(alloc, site, ".x%") == Err(HostFault::Absent));
    assert!(rt; host.remove(alloc, site, "long") == Ok(()));
    assert!(rt; host.scratch_empty(alloc, site) == Ok(true));
    assert!(rt; host.deliver(alloc, "host/files", b"hello") == Ok(()));
    assert!(rt; fs::exists(rt, "output/host%2Ffiles")?);
    assert!(rt; host.faults() == 0 && host.misses() == 4);
    Ok(())
}

#[test]
fn scratch_of_a_folder(rt: HostRuntime) -> Result<(), Fail> {
    let mut host = FolderHost::new(rt);
    let kept = files_are_kept(&rt, rt.alloc(), &mut host);
    drop(host);
    kept?;
    fs::remove_dir(&rt, "sites/host%2Ffiles")?;
    fs::remove_file(&rt, "output/host%2Ffiles")?;
    Ok(())
}

/// A draft of a site's file `x`, with these bytes; it is discarded where it doesn't take them.
fn drafted<H: Host>(
    alloc: Global,
    host: &mut H,
    site: &str,
    bytes: &[u8],
) -> Result<H::Draft, HostFault> {
    let place = Place::Scratch(Text::copy_of(alloc, site)?, Text::copy_of(alloc, "x")?);
    let mut draft = host.draft(alloc, &place, 5)?;
    match draft.append(alloc, bytes) {
        Ok(()) => Ok(draft),
        Err(fault) => {
            host.discard(draft);
            Err(fault)
        }
    }
}

/// Reads a file in pieces of three bytes, and tells how many came each time.
fn pieces_of<I: ReadPart>(reading: &mut I) -> Result<[usize; 3], HostFault> {
    let mut piece = [0u8; 3];
    let first = reading.read(&mut piece)?;
    let second = reading.read(&mut piece)?;
    let third = reading.read(&mut piece)?;
    Ok([first, second, third])
}

/// Publishes a draft of two bytes once three more were appended, after another one was discarded; tells what came of
/// an append past the limit, and of a look at the site before the publication.
fn published<H: Host>(
    alloc: Global,
    host: &mut H,
    site: &str,
) -> Result<(Result<(), HostFault>, Result<bool, HostFault>), HostFault> {
    let other = drafted(alloc, host, site, b"other")?;
    host.discard(other);
    let mut kept = drafted(alloc, host, site, b"he")?;
    let past = kept.append(alloc, b"llo!");
    let rest = kept.append(alloc, b"llo");
    let empty = host.scratch_empty(alloc, site);
    host.publish(alloc, kept)?;
    rest?;
    Ok((past, empty))
}

/// The pieces in which the file is read that a site has once its draft was published.
fn pieces_at<H: Host>(alloc: Global, host: &mut H, site: &str) -> Result<[usize; 3], HostFault> {
    let mut reading = host.open_scratch(alloc, site, "x", 5)?;
    let pieces = pieces_of(&mut reading);
    host.finish(reading);
    pieces
}

fn drafts_are_kept<R: Files + Abort + Drop>(
    rt: &R,
    alloc: Global,
    host: &mut FolderHost<R>,
) -> Result<(), Fail>
where
    R::File: Claim,
{
    let site = "host_files_drafts";
    let (past, empty) = published(alloc, host, site)?;
    assert!(rt; past == Err(HostFault::Over(5, 6)) && empty == Ok(true));
    assert!(rt; standing(rt, "sites/host_files_drafts/x") == [Some(5), None, None]);
    assert!(rt; pieces_at(alloc, host, site) == Ok([3, 2, 0]));
    assert!(rt; host.faults() == 0);
    Ok(())
}

#[test]
fn drafts_of_a_folder(rt: HostRuntime) -> Result<(), Fail> {
    let mut host = FolderHost::new(rt);
    let kept = drafts_are_kept(&rt, rt.alloc(), &mut host);
    drop(host);
    kept?;
    let text = fs::read_to_string(&rt, "sites/host_files_drafts/x")?;
    assert_eq!(rt; text.as_str(), "hello");
    fs::remove_dir_all(&rt, "sites/host_files_drafts")?;
    Ok(())
}

/// The length of a file, if it is there.
fn length_at<R: Files>(rt: &R, path: &str) -> Option<u64> {
    match fs::metadata(rt, path) {
        Ok(found) => Some(found.len()),
        Err(_) => None,
    }
}

/// What stands at a path, and in two drafts' files: the length of each, if it is there.
fn standing<R: Files>(rt: &R, path: &str) -> [Option<u64>; 3] {
    [
        length_at(rt, path),
        length_at(rt, ".pegasus.part.1"),
        length_at(rt, ".pegasus.part.2"),
    ]
}

/// What stands while two drafts of one file are there, once the second was published, and once the first was.
fn published_in_turn<H: Host, R: Files>(
    rt: &R,
    alloc: Global,
    host: &mut H,
    site: &str,
) -> Result<[[Option<u64>; 3]; 3], HostFault> {
    let first = drafted(alloc, host, site, b"one")?;
    let second = match drafted(alloc, host, site, b"three") {
        Ok(second) => second,
        Err(fault) => {
            host.discard(first);
            return Err(fault);
        }
    };
    let both = standing(rt, PARTS);
    let came = host.publish(alloc, second);
    let one = standing(rt, PARTS);
    host.publish(alloc, first)?;
    came?;
    Ok([both, one, standing(rt, PARTS)])
}

fn drafts_stay_apart<R: Files + Abort + Drop>(
    rt: &R,
    alloc: Global,
    host: &mut FolderHost<R>,
) -> Result<(), Fail>
where
    R::File: Claim,
{
    let [both, one, two] = published_in_turn(rt, alloc, host, "host_files_parts")?;
    assert!(rt; both == [None, Some(3), Some(5)]);
    assert!(rt; one == [Some(5), Some(3), None]);
    assert!(rt; two == [Some(3), None, None]);
    assert!(rt; host.faults() == 0);
    Ok(())
}

#[test]
fn two_drafts_of_one_name(rt: HostRuntime) -> Result<(), Fail> {
    fs::write(&rt, "host_files_elsewhere", "hello")?;
    fs::write(&rt, ".pegasus.part.1", "of an earlier run")?;
    symlink(&rt, "host_files_elsewhere", ".pegasus.part.2")?;
    let mut host = FolderHost::new(rt);
    let apart = drafts_stay_apart(&rt, rt.alloc(), &mut host);
    drop(host);
    apart?;
    let text = fs::read_to_string(&rt, "host_files_elsewhere")?;
    assert_eq!(rt; text.as_str(), "hello");
    fs::remove_dir_all(&rt, "sites/host_files_parts")?;
    fs::remove_file(&rt, "host_files_elsewhere")?;
    Ok(())
}

/// Why a site's file isn't opened.
fn refusal<H: Host>(alloc: Global, host: &mut H, site: &str, name: &str) -> Option<HostFault> {
    match host.open_scratch(alloc, site, name, 5) {
        Ok(reading) => {
            host.finish(reading);
            None
        }
        Err(fault) => Some(fault),
    }
}

fn links_are_refused<R: Files + Abort + Drop>(
    rt: &R,
    alloc: Global,
    host: &mut FolderHost<R>,
) -> Result<(), Fail>
where
    R::File: Claim,
{
    let site = "host_files_links";
    assert!(rt; host.write_scratch(alloc, site, "x", b"hello") == Ok(()));
    symlink(rt, "../../host_files_outside", "sites/host_files_links/y")?;
    assert!(rt; scratch_at(alloc, host, site, "x") == Ok(5));
    assert!(rt; scratch_at(alloc, host, site, "y") == Err(HostFault::Failed));
    assert!(rt; refusal(alloc, host, site, "y") == Some(HostFault::Failed));
    assert!(rt; host.remove(alloc, site, "y") == Err(HostFault::Failed));
    assert!(rt; host.faults() == 3);
    Ok(())
}

#[test]
fn links_are_not_followed(rt: HostRuntime) -> Result<(), Fail> {
    fs::write(&rt, "host_files_outside", "hello")?;
    let mut host = FolderHost::new(rt);
    let refused = links_are_refused(&rt, rt.alloc(), &mut host);
    drop(host);
    refused?;
    fs::remove_dir_all(&rt, "sites/host_files_links")?;
    fs::remove_file(&rt, "host_files_outside")?;
    Ok(())
}
