//! Where a catalogue has a file.

ghost use Rattle.std.specs.Prelude.{◌≡◌, List, ℕ, IfOk, option_map, position, find};
ghost use Rattle.std.specs.Str.{bytes_eq};
ghost use Rattle.indexmap.specs.IndexMap.{get_by};
ghost use Rattle.replica_catalog.specs.Lookup.{has_pfn, is_of, is_registered};

use crate::catalog::{Pfn, Replica, ReplicaCatalog};
use indexmap::IndexMap;
use std::alloc::Global;
use std::marker::Model;
use values::{Memory, Text};

/// The entries of a catalogue, found by their files' names.
#[derive(Drop)]
pub struct Replicas<'a> {
    entries: &'a [Replica],
    places: IndexMap<Text, usize>,
    ghost exact: { (lfn : List ℕ) → get_by (bytes_eq lfn) places ≡ position (is_of lfn) entries.now },
}

impl<'a> Model for Replicas<'a> {
    ghost use Rattle.std.specs.Prelude.{List};
    ghost use Rattle.replica_catalog.specs.declared.catalog.Replica as declared;

    ghost Value = { List declared.Replica };

    ghost view = { λ r. r.entries.now };
}

/// The first place of each file.
fn places_of(alloc: Global, entries: &[Replica]) -> Result<IndexMap<Text, usize>, Memory>
    ensures { IfOk result (λ places. (lfn : List ℕ)
        → get_by (bytes_eq lfn) places ≡ position (is_of lfn) entries.now) }
{
    let mut places = IndexMap::new(alloc);
    for (place, entry) in entries.iter().enumerate() {
        if !places.contains_key(&entry.lfn) {
            places.insert(entry.lfn.copied(alloc)?, place)?;
        }
    }
    Ok(places)
}

fn has_pfn(pfns: &[Pfn]) -> bool
    ensures { result ≡ has_pfn pfns.now }
{
    match pfns {
        [] => false,
        [_, ..] => true,
    }
}

impl<'a> Replicas<'a> {
    pub fn new(alloc: Global, catalog: &'a ReplicaCatalog) -> Result<Replicas<'a>, Memory>
        ensures { IfOk result (λ r. r ≡ catalog.now.entries) }
    {
        let entries = catalog.entries.as_slice();
        let places = places_of(alloc, entries)?;
        Ok(Replicas { entries, places })
    }

    /// The entry of a file.
    pub fn entry_of(&self, lfn: &Text) -> Option<&Replica>
        ensures { option_map (λ e. e.now) result ≡ find (is_of lfn.now) self.now }
    {
        match self.places.get(lfn) {
            Some(place) => Some(&self.entries[*place]),
            None => None,
        }
    }

    /// Whether a file's entry has a pfn.
    pub fn is_registered(&self, lfn: &Text) -> bool
        ensures { result ≡ is_registered self.now lfn.now }
    {
        match self.entry_of(lfn) {
            Some(entry) => has_pfn(entry.pfns.as_slice()),
            None => false,
        }
    }
}
