//! The files that jobs use, and their sizes.

ghost use Rattle.std.specs.Prelude.{◌≡◌, OnOk, IfOk};
ghost use Rattle.workflow_core.specs.code.Names.{with_names};
ghost use Rattle.workflow_reader.specs.Linking.{lfns_in, files_of, sizes_of};
ghost use Rattle.workflow_reader.specs.code.Known.{with_size, with_sizes};

use crate::document::{JobEntry, Use};
use std::alloc::Global;
use values::{Items, Memory};
use workflow_core::{Names, names_are_numbered};

fn add_files(alloc: Global, files: &mut Names, job: &JobEntry) -> Result<(), Memory>
    ensures { OnOk result (files.new ≡ with_names files.old (lfns_in job.now)) }
{
    for used in job.uses.as_slice() {
        files.add(alloc, &used.lfn)?;
    }
    Ok(())
}

/// The names of all files.
pub fn files_of(alloc: Global, jobs: &[JobEntry]) -> Result<Names, Memory>
    ensures { IfOk result (λ files. files ≡ files_of jobs.now) }
{
    // A law for the proof: it does nothing.
    names_are_numbered();
    let mut files = Names::new(alloc);
    for job in jobs {
        add_files(alloc, &mut files, job)?;
    }
    Ok(files)
}

fn add_size(sizes: &mut Vec<Option<u64>>, files: &Names, used: &Use)
    ensures { sizes.new.items ≡ with_size files.now sizes.old.items used.now }
{
    let file = files.number(&used.lfn);
    if file < sizes.len() {
        sizes[file] = sizes[file].or(used.size);
    }
}

fn add_sizes(sizes: &mut Vec<Option<u64>>, files: &Names, job: &JobEntry)
    ensures { sizes.new.items ≡ with_sizes files.now sizes.old.items job.now.uses }
{
    for used in job.uses.as_slice() {
        add_size(sizes, files, used);
    }
}

/// For each file the first size that a use of it states.
pub fn sizes_of(
    alloc: Global,
    files: &Names,
    jobs: &[JobEntry],
) -> Result<Items<Option<u64>>, Memory>
    requires { files.now ≡ files_of jobs.now }
    ensures { IfOk result (λ sizes. sizes ≡ sizes_of jobs.now) }
{
    // A law for the proof: it does nothing.
    names_are_numbered();
    let mut sizes = vec![in alloc; None; files.len()]?;
    for job in jobs {
        add_sizes(&mut sizes, files, job);
    }
    Ok(Items::new(sizes))
}
