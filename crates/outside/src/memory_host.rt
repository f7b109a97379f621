//! A store in memory.

ghost use Rattle.std.specs.Prelude.{◌≡◌, ◌++◌, [], Some, IfOk, IsErrOf, OnOk, OnErr, option_map};
ghost use Rattle.std.specs.FinMap as map;
ghost use Rattle.outside.specs.code.Counts.{IsLater};
ghost use Rattle.outside.specs.code.Host.{Reads};
ghost use Rattle.outside.specs.code.Store.{changed};
ghost use Rattle.outside.specs.code.Lending.{Opens, placing, with_faults};
ghost use Rattle.outside.specs.code.Failing.{failing_calls};
ghost use Rattle.outside.specs.code.MemoryParts.{listed_for, reading_failing, reading_state};

use crate::counts::Counts;
use crate::failing::Failing;
use crate::host::{Host, HostFault};
use crate::memory_parts::{MemoryDraft, MemoryReading};
use crate::operation::Operation;
use crate::place::Place;
use crate::store::Store;
use std::alloc::Global;
use values::{Blob, Memory};

/// A store that tells what it holds, of whose calls the listed ones fail.
#[derive(Drop)]
pub struct MemoryHost {
    store: Store,
    marked: Store,
    failing: Failing,
    parts: Vec<(u64, u64)>,
    counts: Counts,
}

impl MemoryHost {
    ghost use Rattle.outside.specs.code.Counts.{no_calls};
    ghost use Rattle.outside.specs.code.Failing.{calls_made, failing_calls};
    ghost use Rattle.outside.specs.code.MemoryHost.{host_counts, host_failing, host_marked, host_parts, host_store, with_replica, with_scratch};
    ghost use Rattle.values.specs.code.SiteMap.{pair_at};
    ghost use Rattle.outside.specs.code.Store.{blank};

    /// No file. `failing` lists the calls that are to fail, by number from 1.
    pub fn new(alloc: Global, failing: Vec<u64>) -> MemoryHost
        ensures store { host_store result ≡ blank }
        ensures marked { host_marked result ≡ blank }
        ensures failing { failing_calls (host_failing result) ≡ failing.items }
        ensures calls { calls_made (host_failing result) ≡ 0 }
        ensures parts { host_parts result ≡ [] }
        ensures counts { host_counts result ≡ no_calls }
    {
        MemoryHost::with_parts(alloc, failing, Vec::new(alloc))
    }

    /// The same, and of the file that its call number k opened or drafted, read or append number j fails, for each pair
    /// (k, j); both are counted from 1.
    pub fn with_parts(alloc: Global, failing: Vec<u64>, parts: Vec<(u64, u64)>) -> MemoryHost
        ensures store { host_store result ≡ blank }
        ensures marked { host_marked result ≡ blank }
        ensures failing { failing_calls (host_failing result) ≡ failing.items }
        ensures calls { calls_made (host_failing result) ≡ 0 }
        ensures parts { host_parts result ≡ parts.items }
        ensures counts { host_counts result ≡ no_calls }
    {
        MemoryHost {
            store: Store::new(alloc),
            marked: Store::new(alloc),
            failing: Failing::new(failing),
            parts,
            counts: Counts::zero(),
        }
    }

    /// Sets the bytes of a replica.
    pub fn put_replica(&mut self, alloc: Global, pfn: &str, bytes: &[u8]) -> Result<(), Memory>
        ensures ok { OnOk result (host_store self.new
            ≡ with_replica pfn.now bytes.now (host_store self.old)) }
        ensures err { OnErr result (host_store self.new ≡ host_store self.old) }
        ensures marked { host_marked self.new ≡ host_marked self.old }
        ensures failing { host_failing self.new ≡ host_failing self.old }
        ensures counts { host_counts self.new ≡ host_counts self.old }
    {
        self.store.replicas.insert(alloc, pfn, bytes)
    }

    /// Sets the bytes of a site's file, without a trace.
    pub fn put_scratch(
        &mut self,
        alloc: Global,
        site: &str,
        name: &str,
        bytes: &[u8],
    ) -> Result<(), Memory>
        ensures ok { OnOk result (host_store self.new
            ≡ with_scratch site.now name.now bytes.now (host_store self.old)) }
        ensures err { OnErr result (host_store self.new ≡ host_store self.old) }
        ensures marked { host_marked self.new ≡ host_marked self.old }
        ensures failing { host_failing self.new ≡ host_failing self.old }
        ensures counts { host_counts self.new ≡ host_counts self.old }
    {
        self.store.scratch.insert(alloc, site, name, bytes)
    }

    /// The bytes that were delivered under a name.
    pub fn delivered(&self, name: &str) -> Option<&[u8]>
        ensures { option_map (λ b. b.now) result ≡ map.get (host_store self.now).delivered name.now }
    {
        self.store.delivered.get(name)
    }

    /// The bytes of a site's file.
    pub fn scratch(&self, site: &str, name: &str) -> Option<&[u8]>
        ensures { option_map (λ b. b.now) result ≡ pair_at (host_store self.now).scratch site.now name.now }
    {
        self.store.scratch.get(site, name)
    }

    /// The changes that were made, in order.
    pub fn trace(&self) -> &[Operation]
        ensures { result.now ≡ (host_store self.now).trace }
    {
        self.store.trace.as_slice()
    }
}

/// A copy of what was found, if it is within the limit.
fn read_found(
    alloc: Global,
    counts: &mut Counts,
    found: Option<&[u8]>,
    limit: u64,
) -> Result<Blob, HostFault>
    ensures answer { Reads (Some (option_map (λ b. b.now) found.entry)) limit counts.old counts.new result }
    ensures never_fails { IsErrOf result HostFault.Failed → ⊥ }
    ensures later { IsLater counts.old counts.new }
{
    let Some(bytes) = found else {
        counts.add_miss();
        return Err(HostFault::Absent);
    };
    let length = bytes.len() as u64;
    if length > limit {
        counts.add_miss();
        return Err(HostFault::Over(limit, length));
    }
    let bytes = Blob::copy_of(alloc, bytes)?;
    counts.add_done();
    Ok(bytes)
}

/// The calls that are to fail of the part that a call makes.
fn listed_for(alloc: Global, parts: &[(u64, u64)], call: u64) -> Result<Vec<u64>, Memory>
    ensures { IfOk result (λ v. v.items ≡ listed_for parts.now call) }
{
    let mut listed = Vec::new(alloc);
    for part in parts {
        if part.0 == call {
            listed.push(part.1)?;
        }
    }
    Ok(listed)
}

/// A reading of what was found, if it is within the limit.
fn open_found(
    alloc: Global,
    counts: &mut Counts,
    found: Option<&[u8]>,
    limit: u64,
    parts: &[(u64, u64)],
    call: u64,
) -> Result<MemoryReading, HostFault>
    ensures answer { Opens reading_state (Some
        (option_map (λ b. b.now) found.entry)) limit counts.old counts.new result }
    ensures never_fails { IsErrOf result HostFault.Failed → ⊥ }
    ensures later { IsLater counts.old counts.new }
    ensures listed { IfOk result (λ r. failing_calls (reading_failing r) ≡ listed_for parts.now call) }
{
    let Some(bytes) = found else {
        counts.add_miss();
        return Err(HostFault::Absent);
    };
    let length = bytes.len() as u64;
    if length > limit {
        counts.add_miss();
        return Err(HostFault::Over(limit, length));
    }
    let listed = listed_for(alloc, parts, call)?;
    let bytes = Blob::copy_of(alloc, bytes)?;
    counts.add_done();
    Ok(MemoryReading {
        bytes,
        at: 0,
        failing: Failing::new(listed),
        faults: 0,
    })
}

/// Takes a part's count over.
fn take_over(counts: &mut Counts, faults: u64)
    ensures counted { counts.new ≡ with_faults counts.old faults }
    ensures later { IsLater counts.old counts.new }
{
    counts.faults = counts.faults.saturating_add(faults);
}

/// Sets the bytes of a place. A refusal leaves all as it was.
fn set_place(store: &mut Store, alloc: Global, place: &Place, bytes: &[u8]) -> Result<(), Memory>
    ensures ok { OnOk result (store.new ≡ changed store.old (placing place.now bytes.now)) }
    ensures err { OnErr result (store.new ≡ store.old) }
{
    match place {
        Place::Scratch(site, name) => store.publish(alloc, site.as_str(), name.as_str(), bytes),
        Place::Delivery(name) => store.deliver(alloc, name.as_str(), bytes),
    }
}

fn copy_place(alloc: Global, place: &Place) -> Result<Place, Memory>
    ensures { IfOk result (λ p. p ≡ place.now) }
{
    match place {
        Place::Scratch(site, name) => {
            let site = site.copied(alloc)?;
            let name = name.copied(alloc)?;
            Ok(Place::Scratch(site, name))
        }
        Place::Delivery(name) => {
            let name = name.copied(alloc)?;
            Ok(Place::Delivery(name))
        }
    }
}

impl Host for MemoryHost {
    ghost use Rattle.std.specs.Prelude.{◌↔◌, IfOk, IfSome, IsErrOf, None, OnErr, OnOk, Some, option_map, true};
    ghost use Rattle.std.specs.FinMap as map;
    ghost use Rattle.outside.specs.code.Counts.{IsLater};
    ghost use Rattle.outside.specs.code.Failing.{IsNextCall, calls_made, failing_calls, fails_next};
    ghost use Rattle.outside.specs.code.Host.{Changes, Empties, Reads};
    ghost use Rattle.outside.specs.code.MemoryHost.{host_counts, host_failing, host_marked, host_parts, host_store};
    ghost use Rattle.values.specs.code.SiteMap.{pair_at};
    ghost use Rattle.outside.specs.code.Store.{Delivers, Publishes, Removes};
    ghost use Rattle.outside.specs.code.Lending.{Makes, Opens, Publishing, with_faults};
    ghost use Rattle.outside.specs.code.MemoryParts.{draft_failing, draft_state, listed_for, reading_failing, reading_state};

    type Reading = MemoryReading;

    type Draft = MemoryDraft;

    ghost told = { λ h. Some h.store };

    ghost marked = { λ h. h.marked };

    ghost counts = { λ h. h.counts };

    fn faults(&self) -> u64 {
        self.counts.faults
    }

    fn misses(&self) -> u64 {
        self.counts.misses
    }

    fn read_replica(&mut self, alloc: Global, pfn: &str, limit: u64) -> Result<Blob, HostFault>
        ensures answer { Reads (Some (map.get (host_store self.old).replicas pfn.now)) limit
            (host_counts self.old) (host_counts self.new) result }
        ensures told { Some (host_store self.new) ≡ Some (host_store self.old) }
        ensures marked { host_marked self.new ≡ host_marked self.old }
        ensures later { IsLater (host_counts self.old) (host_counts self.new) }
        // A call fails exactly where its number is listed.
        ensures failed { IsErrOf result HostFault.Failed ↔ (fails_next (host_failing self.old) ≡ true) }
        ensures call { IsNextCall (host_failing self.old) (host_failing self.new) }
    {
        if self.failing.call() {
            self.counts.add_fault();
            return Err(HostFault::Failed);
        }
        read_found(alloc, &mut self.counts, self.store.replicas.get(pfn), limit)
    }

    fn read_scratch(
        &mut self,
        alloc: Global,
        site: &str,
        name: &str,
        limit: u64,
    ) -> Result<Blob, HostFault>
        ensures answer { Reads (Some (pair_at (host_store self.old).scratch site.now name.now)) limit
            (host_counts self.old) (host_counts self.new) result }
        ensures told { Some (host_store self.new) ≡ Some (host_store self.old) }
        ensures marked { host_marked self.new ≡ host_marked self.old }
        ensures later { IsLater (host_counts self.old) (host_counts self.new) }
        // A call fails exactly where its number is listed.
        ensures failed { IsErrOf result HostFault.Failed ↔ (fails_next (host_failing self.old) ≡ true) }
        ensures call { IsNextCall (host_failing self.old) (host_failing self.new) }
    {
        if self.failing.call() {
            self.counts.add_fault();
            return Err(HostFault::Failed);
        }
        read_found(
            alloc,
            &mut self.counts,
            self.store.scratch.get(site, name),
            limit,
        )
    }

    fn write_scratch(
        &mut self,
        alloc: Global,
        site: &str,
        name: &str,
        bytes: &[u8],
    ) -> Result<(), HostFault>
        ensures answer { Changes (Some (host_store self.old)) (Some (host_store self.new))
            (host_counts self.old) (host_counts self.new) ⊥ (Publishes site.now name.now bytes.now) result }
        ensures marked { host_marked self.new ≡ host_marked self.old }
        ensures later { IsLater (host_counts self.old) (host_counts self.new) }
        // A call fails exactly where its number is listed.
        ensures failed { IsErrOf result HostFault.Failed ↔ (fails_next (host_failing self.old) ≡ true) }
        ensures call { IsNextCall (host_failing self.old) (host_failing self.new) }
    {
        if self.failing.call() {
            self.counts.add_fault();
            return Err(HostFault::Failed);
        }
        self.store.publish(alloc, site, name, bytes)?;
        self.counts.add_done();
        Ok(())
    }

    fn deliver(&mut self, alloc: Global, name: &str, bytes: &[u8]) -> Result<(), HostFault>
        ensures answer { Changes (Some (host_store self.old)) (Some (host_store self.new))
            (host_counts self.old) (host_counts self.new) ⊥ (Delivers name.now bytes.now) result }
        ensures marked { host_marked self.new ≡ host_marked self.old }
        ensures later { IsLater (host_counts self.old) (host_counts self.new) }
        // A call fails exactly where its number is listed.
        ensures failed { IsErrOf result HostFault.Failed ↔ (fails_next (host_failing self.old) ≡ true) }
        ensures call { IsNextCall (host_failing self.old) (host_failing self.new) }
    {
        if self.failing.call() {
            self.counts.add_fault();
            return Err(HostFault::Failed);
        }
        self.store.deliver(alloc, name, bytes)?;
        self.counts.add_done();
        Ok(())
    }

    fn remove(&mut self, alloc: Global, site: &str, name: &str) -> Result<(), HostFault>
        ensures answer { Changes (Some (host_store self.old)) (Some (host_store self.new))
            (host_counts self.old) (host_counts self.new)
            (pair_at (host_store self.old).scratch site.now name.now ≡ None)
            (Removes site.now name.now) result }
        ensures stood { OnOk result (pair_at (host_store self.old).scratch site.now name.now ≡ None → ⊥) }
        ensures marked { host_marked self.new ≡ host_marked self.old }
        ensures later { IsLater (host_counts self.old) (host_counts self.new) }
        // A call fails exactly where its number is listed.
        ensures failed { IsErrOf result HostFault.Failed ↔ (fails_next (host_failing self.old) ≡ true) }
        ensures call { IsNextCall (host_failing self.old) (host_failing self.new) }
    {
        if self.failing.call() {
            self.counts.add_fault();
            return Err(HostFault::Failed);
        }
        if self.store.remove(alloc, site, name)? {
            self.counts.add_done();
            return Ok(());
        }
        self.counts.add_miss();
        Err(HostFault::Absent)
    }

    fn scratch_empty(&mut self, _alloc: Global, site: &str) -> Result<bool, HostFault>
        ensures answer { Empties (Some (host_store self.old)) site.now (host_counts self.old)
            (host_counts self.new) result }
        ensures told { Some (host_store self.new) ≡ Some (host_store self.old) }
        ensures marked { host_marked self.new ≡ host_marked self.old }
        ensures later { IsLater (host_counts self.old) (host_counts self.new) }
        // A call fails exactly where its number is listed.
        ensures failed { IsErrOf result HostFault.Failed ↔ (fails_next (host_failing self.old) ≡ true) }
        ensures call { IsNextCall (host_failing self.old) (host_failing self.new) }
    {
        if self.failing.call() {
            self.counts.add_fault();
            return Err(HostFault::Failed);
        }
        if self.store.scratch.is_empty_at(site) {
            self.counts.add_done();
            return Ok(true);
        }
        self.counts.add_miss();
        Ok(false)
    }

    fn open_replica(
        &mut self,
        alloc: Global,
        pfn: &str,
        limit: u64,
    ) -> Result<MemoryReading, HostFault>
        ensures answer { Opens reading_state (Some (map.get (host_store self.old).replicas pfn.now)) limit
            (host_counts self.old) (host_counts self.new) result }
        ensures told { Some (host_store self.new) ≡ Some (host_store self.old) }
        ensures marked { host_marked self.new ≡ host_marked self.old }
        ensures later { IsLater (host_counts self.old) (host_counts self.new) }
        // A call fails exactly where its number is listed.
        ensures failed { IsErrOf result HostFault.Failed ↔ (fails_next (host_failing self.old) ≡ true) }
        ensures call { IsNextCall (host_failing self.old) (host_failing self.new) }
        ensures listed { IfOk result (λ r. failing_calls (reading_failing r)
            ≡ listed_for (host_parts self.old) (calls_made (host_failing self.new))) }
    {
        if self.failing.call() {
            self.counts.add_fault();
            return Err(HostFault::Failed);
        }
        let call = self.failing.made();
        let found = self.store.replicas.get(pfn);
        open_found(alloc, &mut self.counts, found, limit, &self.parts, call)
    }

    fn open_scratch(
        &mut self,
        alloc: Global,
        site: &str,
        name: &str,
        limit: u64,
    ) -> Result<MemoryReading, HostFault>
        ensures answer { Opens reading_state
            (Some (pair_at (host_store self.old).scratch site.now name.now)) limit (host_counts self.old)
            (host_counts self.new) result }
        ensures told { Some (host_store self.new) ≡ Some (host_store self.old) }
        ensures marked { host_marked self.new ≡ host_marked self.old }
        ensures later { IsLater (host_counts self.old) (host_counts self.new) }
        // A call fails exactly where its number is listed.
        ensures failed { IsErrOf result HostFault.Failed ↔ (fails_next (host_failing self.old) ≡ true) }
        ensures call { IsNextCall (host_failing self.old) (host_failing self.new) }
        ensures listed { IfOk result (λ r. failing_calls (reading_failing r)
            ≡ listed_for (host_parts self.old) (calls_made (host_failing self.new))) }
    {
        if self.failing.call() {
            self.counts.add_fault();
            return Err(HostFault::Failed);
        }
        let call = self.failing.made();
        let found = self.store.scratch.get(site, name);
        open_found(alloc, &mut self.counts, found, limit, &self.parts, call)
    }

    fn draft(&mut self, alloc: Global, place: &Place, limit: u64) -> Result<MemoryDraft, HostFault>
        ensures answer { Makes draft_state (Some (host_store self.old)) place.now limit
            (host_counts self.old) (host_counts self.new) result }
        ensures told { Some (host_store self.new) ≡ Some (host_store self.old) }
        ensures marked { host_marked self.new ≡ host_marked self.old }
        ensures later { IsLater (host_counts self.old) (host_counts self.new) }
        // A call fails exactly where its number is listed.
        ensures failed { IsErrOf result HostFault.Failed ↔ (fails_next (host_failing self.old) ≡ true) }
        ensures call { IsNextCall (host_failing self.old) (host_failing self.new) }
        ensures listed { IfOk result (λ d. failing_calls (draft_failing d)
            ≡ listed_for (host_parts self.old) (calls_made (host_failing self.new))) }
    {
        if self.failing.call() {
            self.counts.add_fault();
            return Err(HostFault::Failed);
        }
        let listed = listed_for(alloc, &self.parts, self.failing.made())?;
        let place = copy_place(alloc, place)?;
        self.counts.add_done();
        Ok(MemoryDraft {
            place,
            bytes: Vec::new(alloc),
            limit,
            failing: Failing::new(listed),
            faults: 0,
        })
    }

    fn publish(&mut self, alloc: Global, draft: MemoryDraft) -> Result<(), HostFault>
        ensures answer { Publishing (draft_state draft) (Some (host_store self.old))
            (Some (host_store self.new)) (host_counts self.old) (host_counts self.new) result }
        ensures marked { host_marked self.new ≡ host_marked self.old }
        ensures later { IsLater (host_counts self.old) (host_counts self.new) }
        // A call fails exactly where its number is listed.
        ensures failed { IsErrOf result HostFault.Failed ↔ (fails_next (host_failing self.old) ≡ true) }
        ensures call { IsNextCall (host_failing self.old) (host_failing self.new) }
    {
        take_over(&mut self.counts, draft.faults);
        if self.failing.call() {
            self.counts.add_fault();
            return Err(HostFault::Failed);
        }
        set_place(&mut self.store, alloc, &draft.place, &draft.bytes)?;
        self.counts.add_done();
        Ok(())
    }

    fn discard(&mut self, draft: MemoryDraft)
        ensures told { Some (host_store self.new) ≡ Some (host_store self.old) }
        ensures marked { host_marked self.new ≡ host_marked self.old }
        ensures counts { host_counts self.new
            ≡ with_faults (host_counts self.old) (draft_state draft).faults }
        ensures later { IsLater (host_counts self.old) (host_counts self.new) }
        // It isn't one of the calls that are listed.
        ensures failing { host_failing self.new ≡ host_failing self.old }
    {
        take_over(&mut self.counts, draft.faults);
    }

    fn finish(&mut self, reading: MemoryReading)
        ensures told { Some (host_store self.new) ≡ Some (host_store self.old) }
        ensures marked { host_marked self.new ≡ host_marked self.old }
        ensures counts { host_counts self.new
            ≡ with_faults (host_counts self.old) (reading_state reading).faults }
        ensures later { IsLater (host_counts self.old) (host_counts self.new) }
        ensures failing { host_failing self.new ≡ host_failing self.old }
    {
        take_over(&mut self.counts, reading.faults);
    }

    fn mark(&mut self, _alloc: Global) -> Result<(), Memory>
        ensures ok { OnOk result (host_marked self.new ≡ host_store self.old) }
        ensures err { OnErr result (host_marked self.new ≡ host_marked self.old) }
        ensures told { Some (host_store self.new) ≡ Some (host_store self.old) }
        ensures counts { host_counts self.new ≡ host_counts self.old }
        ensures failing { host_failing self.new ≡ host_failing self.old }
    {
        self.marked = self.store.clone()?;
        Ok(())
    }
}
