//! Where a catalogue has a transformation.

ghost use Rattle.std.specs.Prelude.{◌≡◌, ◌<◌, length, IfOk, IfSome};
ghost use Rattle.indexmap.specs.IndexMap.{get_by};
ghost use Rattle.workflow_core.specs.declared.workflow.Transformation.{Transformation};
ghost use Rattle.transformation_catalog.specs.Catalog.{same_transformation};
ghost use Rattle.transformation_catalog.specs.Lookup.{place_of};

use crate::catalog::{TransformationCatalog, TransformationEntry};
use crate::key::Key;
use indexmap::IndexMap;
use std::alloc::Global;
use std::marker::Model;
use values::Memory;
use workflow_core::Transformation;

/// The entries of a catalogue, found by their transformations.
#[derive(Drop)]
pub struct Entries<'a> {
    entries: &'a [TransformationEntry],
    places: IndexMap<Key<'a>, usize>,
    ghost exact: { (t : Transformation) → get_by (same_transformation t) places ≡ place_of entries.now t },
}

impl<'a> Model for Entries<'a> {
    ghost use Rattle.std.specs.Prelude.{List};
    ghost use Rattle.transformation_catalog.specs.declared.catalog.TransformationEntry as declared;

    ghost Value = { List declared.TransformationEntry };

    ghost view = { λ e. e.entries.now };
}

/// The first place of each transformation.
fn places_of<'a>(
    alloc: Global,
    entries: &'a [TransformationEntry],
) -> Result<IndexMap<Key<'a>, usize>, Memory>
    ensures { IfOk result
        (λ places. (t : Transformation) → get_by (same_transformation t) places ≡ place_of entries.now t) }
{
    let mut places = IndexMap::new(alloc);
    for (place, entry) in entries.iter().enumerate() {
        let key = Key::new(&entry.transformation);
        if !places.contains_key(&key) {
            places.insert(key, place)?;
        }
    }
    Ok(places)
}

impl<'a> Entries<'a> {
    pub fn new(alloc: Global, catalog: &'a TransformationCatalog) -> Result<Entries<'a>, Memory>
        ensures { IfOk result (λ e. e ≡ catalog.now.entries) }
    {
        let entries = catalog.entries.as_slice();
        let places = places_of(alloc, entries)?;
        Ok(Entries { entries, places })
    }

    /// The place of a transformation's entry.
    #[tactic(auto, using(crate::proofs::LookupLemmas::place_within))]
    pub fn entry_of(&self, transformation: &Transformation) -> Option<usize>
        ensures place { result ≡ place_of self.now transformation.now }
        ensures within { IfSome result (λ i. i < length self.now) }
    {
        self.places.get(&Key::new(transformation)).copied()
    }
}
