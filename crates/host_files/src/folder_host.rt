//! A store of files.

ghost use Rattle.std.specs.Prelude.{◌≡◌, ◌+◌, IfErr, IfOk, Ok, OnErr, OnOk, string_bytes};
ghost use Rattle.outside.specs.code.Counts.{IsLater, no_calls, one_done, one_fault};
ghost use Rattle.outside.specs.code.Lending.{with_faults};
ghost use Rattle.host_files.specs.FolderHost.{Refuses};
ghost use Rattle.host_files.specs.Writing.{part_path};

use crate::claim::Claim;
use crate::folder_draft::{FolderDraft, make_draft, write_whole};
use crate::folder_reading::FolderReading;
use crate::opening::{find_at_site, open_file, read_file};
use crate::pfn::path_of;
use crate::standing::{Standing, is_empty, standing_at_site};
use crate::target::{SitePath, Target, output_path, site_folder, site_path, target_of};
use crate::writing::part_path;
use outside::{Blob, Counts, Host, HostFault, Memory, Place, ReadPart, WritePart};
use std::alloc::Global;
use std::io::ErrorKind;
use std::rt::Files;
use std::{fs, io};

/// Replicas are files of the machine, a site's file is `sites/SITE/NAME` in the working folder and a delivered one
/// `output/NAME`, with names escaped. What it holds isn't told. One host at a time has the working folder: the first that
/// looks at a site, writes or removes, until it is dropped. Then no site is empty for another, whose other calls fail.
#[derive(Drop)]
pub struct FolderHost<R: Files> {
    rt: R,
    counts: Counts,
    /// The working folder, once this host has it.
    folder: Option<R::File>,
    /// How many drafts were made: each is in a file of its own, which has this number.
    drafts: u64,
    /// The folder of the site at which the last call opened a file. What a task reads is opened in one go, so the next
    /// call doesn't look at it again if it opens a file there too.
    opened: Option<String>,
}

impl<R: Files + Drop> FolderHost<R>
where
    R::File: Claim,
{
    pub fn new(rt: R) -> FolderHost<R>
        ensures { ⟦<FolderHost<R> as Host>⟧.counts result ≡ no_calls }
    {
        FolderHost {
            rt,
            counts: Counts::zero(),
            folder: None,
            drafts: 0,
            opened: None,
        }
    }

    /// Takes the working folder, and tells whether this host has it now. One that can't be opened is had by none.
    fn has_folder(&mut self) -> bool
        ensures counts { self.new.counts ≡ self.old.counts }
        ensures drafts { self.new.drafts ≡ self.old.drafts }
    {
        if self.folder.is_some() {
            return true;
        }
        let Ok(folder) = fs::open(&self.rt, ".") else {
            return true;
        };
        if !folder.claim() {
            return false;
        }
        self.folder = Some(folder);
        true
    }

    /// The path of a draft that this host has made none at. It fails where another has the folder, or the numbers are used up.
    fn next_part(&mut self, alloc: Global) -> Result<String, HostFault>
        ensures part { IfOk result (λ p. string_bytes p ≡ part_path self.new.drafts) }
        ensures next { OnOk result (self.new.drafts ≡ self.old.drafts + 1) }
        ensures ok { OnOk result (self.new.counts ≡ self.old.counts) }
        ensures err { IfErr result (Refuses self.old.counts self.new.counts) }
        ensures later { IsLater self.old.counts self.new.counts }
    {
        self.opened = None;
        let number = match self.drafts.checked_add(1) {
            Some(number) if self.has_folder() => number,
            _ => {
                self.counts.add_fault();
                return Err(HostFault::Failed);
            }
        };
        let part = part_path(alloc, number)?;
        self.drafts = number;
        Ok(part)
    }
}

/// Counts a call that was done or failed.
fn count_call<T>(counts: &mut Counts, made: io::Result<T>) -> Result<T, HostFault>
    ensures made { IfOk result (λ t. made ≡ Ok t) }
    ensures done { OnOk result (counts.new ≡ one_done counts.old) }
    ensures failed { IfErr result (λ e. e ≡ HostFault.Failed) }
    ensures fault { OnErr result (counts.new ≡ one_fault counts.old) }
    ensures later { IsLater counts.old counts.new }
{
    match made {
        Ok(made) => {
            counts.add_done();
            Ok(made)
        }
        Err(_) => {
            counts.add_fault();
            Err(HostFault::Failed)
        }
    }
}

/// Takes a part's count over.
fn take_over(counts: &mut Counts, faults: u64)
    ensures counted { counts.new ≡ with_faults counts.old faults }
    ensures later { IsLater counts.old counts.new }
{
    counts.faults = counts.faults.saturating_add(faults);
}

/// Takes a file out of a site's folder, and tells whether it was there.
fn remove_at_site<R: Files>(rt: &R, at: &SitePath) -> io::Result<bool> {
    let path = at.path.as_str();
    match standing_at_site(rt, at.folder.as_str(), path)? {
        Standing::Nothing => Ok(false),
        Standing::File => {
            fs::remove_file(rt, path)?;
            Ok(true)
        }
        Standing::Folder | Standing::Other => Err(io::Error::from(ErrorKind::InvalidInput)),
    }
}

impl<R: Files + Drop> Host for FolderHost<R>
where
    R::File: Claim,
{
    ghost use Rattle.std.specs.Prelude.{None};
    ghost use Rattle.outside.specs.code.Store.{blank};

    type Reading = FolderReading<R::File>;

    type Draft = FolderDraft<R::File>;

    ghost told = { λ _. None };

    ghost marked = { λ _. blank };

    ghost counts = { λ h. h.counts };

    fn faults(&self) -> u64 {
        self.counts.faults
    }

    fn misses(&self) -> u64 {
        self.counts.misses
    }

    fn read_replica(&mut self, alloc: Global, pfn: &str, limit: u64) -> Result<Blob, HostFault> {
        self.opened = None;
        let Some(path) = path_of(pfn) else {
            self.counts.add_miss();
            return Err(HostFault::Absent);
        };
        read_file(alloc, &self.rt, &mut self.counts, path, limit)
    }

    fn read_scratch(
        &mut self,
        alloc: Global,
        site: &str,
        name: &str,
        limit: u64,
    ) -> Result<Blob, HostFault> {
        self.opened = None;
        let at = site_path(alloc, site, name)?;
        find_at_site(&self.rt, &mut self.counts, &at, false)?;
        read_file(alloc, &self.rt, &mut self.counts, at.path.as_str(), limit)
    }

    fn write_scratch(
        &mut self,
        alloc: Global,
        site: &str,
        name: &str,
        bytes: &[u8],
    ) -> Result<(), HostFault> {
        let target = Target::Site(site_path(alloc, site, name)?);
        let part = self.next_part(alloc)?;
        let written = write_whole(&self.rt, alloc, part, target, bytes);
        count_call(&mut self.counts, written)
    }

    fn deliver(&mut self, alloc: Global, name: &str, bytes: &[u8]) -> Result<(), HostFault> {
        let target = Target::Output(output_path(alloc, name)?);
        let part = self.next_part(alloc)?;
        let written = write_whole(&self.rt, alloc, part, target, bytes);
        count_call(&mut self.counts, written)
    }

    fn remove(&mut self, alloc: Global, site: &str, name: &str) -> Result<(), HostFault> {
        self.opened = None;
        let at = site_path(alloc, site, name)?;
        if !self.has_folder() {
            self.counts.add_fault();
            return Err(HostFault::Failed);
        }
        match remove_at_site(&self.rt, &at) {
            Ok(true) => {
                self.counts.add_done();
                Ok(())
            }
            Ok(false) => {
                self.counts.add_miss();
                Err(HostFault::Absent)
            }
            Err(_) => {
                self.counts.add_fault();
                Err(HostFault::Failed)
            }
        }
    }

    fn scratch_empty(&mut self, alloc: Global, site: &str) -> Result<bool, HostFault> {
        self.opened = None;
        let folder = site_folder(alloc, site)?;
        if !self.has_folder() {
            self.counts.add_miss();
            return Ok(false);
        }
        match is_empty(alloc, &self.rt, folder.as_str()) {
            Ok(true) => {
                self.counts.add_done();
                Ok(true)
            }
            Ok(false) => {
                self.counts.add_miss();
                Ok(false)
            }
            Err(e) if e.kind() == ErrorKind::OutOfMemory => Err(HostFault::Memory),
            Err(_) => {
                self.counts.add_fault();
                Err(HostFault::Failed)
            }
        }
    }

    fn open_replica(
        &mut self,
        _alloc: Global,
        pfn: &str,
        limit: u64,
    ) -> Result<FolderReading<R::File>, HostFault> {
        self.opened = None;
        let Some(path) = path_of(pfn) else {
            self.counts.add_miss();
            return Err(HostFault::Absent);
        };
        open_file(&self.rt, &mut self.counts, path, limit)
    }

    fn open_scratch(
        &mut self,
        alloc: Global,
        site: &str,
        name: &str,
        limit: u64,
    ) -> Result<FolderReading<R::File>, HostFault> {
        let last = self.opened.take();
        let at = site_path(alloc, site, name)?;
        let folder_seen = match last {
            Some(folder) => folder.as_str() == at.folder.as_str(),
            None => false,
        };
        find_at_site(&self.rt, &mut self.counts, &at, folder_seen)?;
        let SitePath { folder, path } = at;
        let reading = open_file(&self.rt, &mut self.counts, path.as_str(), limit)?;
        self.opened = Some(folder);
        Ok(reading)
    }

    fn draft(
        &mut self,
        alloc: Global,
        place: &Place,
        limit: u64,
    ) -> Result<FolderDraft<R::File>, HostFault> {
        let target = target_of(alloc, place)?;
        let part = self.next_part(alloc)?;
        let made = make_draft(&self.rt, part, target, limit);
        count_call(&mut self.counts, made)
    }

    fn publish(&mut self, _alloc: Global, draft: FolderDraft<R::File>) -> Result<(), HostFault> {
        self.opened = None;
        take_over(&mut self.counts, draft.faults());
        let placed = draft.place(&self.rt);
        count_call(&mut self.counts, placed)
    }

    fn discard(&mut self, draft: FolderDraft<R::File>) {
        self.opened = None;
        take_over(&mut self.counts, draft.faults());
        draft.remove(&self.rt);
    }

    fn finish(&mut self, reading: FolderReading<R::File>) {
        self.opened = None;
        take_over(&mut self.counts, reading.faults());
    }

    fn mark(&mut self, _alloc: Global) -> Result<(), Memory> {
        Ok(())
    }
}
