//! The numbers of pairs.

ghost use Rattle.std.specs.Prelude.{◌≡◌, ◌<◌, ◌^◌, ◌++◌, ℕ, Bool, IfOk, OnOk, length, option_map, option_to_list, position, slice_get};
ghost use Rattle.indexmap.specs.IndexMap.{get_by};
ghost use Rattle.plan_core.specs.Kinds.{on_pair};
ghost use Rattle.plan_core.specs.Numbers.{below};
ghost use Rattle.plan_core.specs.Words.{pair_numbers};
ghost use Rattle.plan_core.specs.code.Files.{AreFilesOf};
ghost use Rattle.transfer_refiner.specs.code.Places.{is_place, is_pair_of, place_of, places_at, AreOnce};

use indexmap::IndexMap;
use plan_core::{Pair, SiteFiles, sorted};
use std::alloc::Global;
use std::marker::Model;
use values::{Items, Memory, PairId};

/// The pairs of a plan, found by site and file.
#[derive(Drop)]
pub struct Places<'a> {
    pairs: &'a [Pair],
    numbers: IndexMap<(u32, u32), u32>,
    ghost exact: { (s f : ℕ) → get_by (is_place s f) numbers ≡ position (is_pair_of s f) pairs.now },
}

impl<'a> Model for Places<'a> {
    ghost use Rattle.std.specs.Prelude.{List};
    ghost use Rattle.plan_core.specs.declared.plan.Pair as declared;

    ghost Value = { List declared.Pair };

    ghost view = { λ p. p.pairs.now };
}

fn key_of(pair: &Pair) -> (u32, u32)
    ensures { result ≡ (pair.now.site.0, pair.now.file.0) }
{
    (pair.site.0, pair.file.0)
}

/// The first number of each pair.
fn numbers_of(alloc: Global, pairs: &[Pair]) -> Result<IndexMap<(u32, u32), u32>, Memory>
    requires few { length pairs.now < 2 ^ 32 }
    ensures { IfOk result (λ numbers. (s f : ℕ)
        → get_by (is_place s f) numbers ≡ position (is_pair_of s f) pairs.now) }
{
    let mut numbers = IndexMap::new(alloc);
    for (place, pair) in pairs.iter().enumerate() {
        let key = key_of(pair);
        if !numbers.contains_key(&key) {
            numbers.insert(key, place as u32)?;
        }
    }
    Ok(numbers)
}

impl<'a> Places<'a> {
    pub fn new(alloc: Global, pairs: &'a [Pair]) -> Result<Places<'a>, Memory>
        requires few { length pairs.now < 2 ^ 32 }
        ensures { IfOk result (λ p. p ≡ pairs.now) }
    {
        let numbers = numbers_of(alloc, pairs)?;
        Ok(Places { pairs, numbers })
    }

    /// The number of a file at a site.
    pub fn number(&self, site: u32, file: u32) -> Option<u32>
        ensures { result ≡ position (is_pair_of site file) self.now }
    {
        match self.numbers.get(&(site, file)) {
            Some(number) => Some(*number),
            None => None,
        }
    }
}

fn push_number(list: &mut Vec<u32>, number: Option<u32>) -> Result<(), Memory>
    ensures { OnOk result (list.new.items ≡ list.old.items ++ option_to_list number) }
{
    if let Some(found) = number {
        list.push(found)?;
    }
    Ok(())
}

fn push_place(list: &mut Vec<u32>, places: &Places<'_>, site: u32, file: u32) -> Result<(), Memory>
    ensures { OnOk result (list.new.items ≡ list.old.items ++ place_of places.now site file) }
{
    let number = places.number(site, file);
    push_number(list, number)
}

fn places_at(
    alloc: Global,
    places: &Places<'_>,
    site: u32,
    files: &[u32],
) -> Result<Vec<u32>, Memory>
    ensures { IfOk result (λ v. v.items ≡ places_at places.now site files.now) }
{
    let mut list = Vec::new(alloc);
    for i in 0..files.len() {
        push_place(&mut list, places, site, files[i])?;
    }
    Ok(list)
}

fn pair_ids(alloc: Global, numbers: &[u32]) -> Result<Items<PairId>, Memory>
    ensures { IfOk result (λ ids. pair_numbers ids ≡ numbers.now) }
{
    let mut ids = Vec::new(alloc);
    for number in numbers {
        ids.push(PairId(*number))?;
    }
    Ok(Items::new(ids))
}

/// The pairs of some files at a site, in rising order.
pub fn pairs_at(
    alloc: Global,
    places: &Places<'_>,
    found: &SiteFiles,
) -> Result<Items<PairId>, Memory>
    requires once { AreOnce places.now }
    ensures { IfOk result (λ ids. (test : ℕ → ℕ → Bool) → AreFilesOf test found.now
        → pair_numbers ids ≡ below (length places.now) (λ q. on_pair test (slice_get places.now q))) }
{
    let numbers = sorted(places_at(alloc, places, found.site.0, &found.files)?);
    let ids = pair_ids(alloc, &numbers)?;
    Ok(ids)
}
