//! Entries of one lfn, joined.

ghost use Rattle.std.specs.Prelude.{◌≡◌, [], OnOk, IfOk};
ghost use Rattle.replica_catalog.specs.Lookup.{lfns_of, joined};
ghost use Rattle.replica_catalog.specs.code.Merged.{with_entry, with_entries};

use crate::catalog::Replica;
use crate::merged::Merged;
use indexmap::IndexSet;
use std::alloc::Global;
use values::{Items, Memory, Text};

/// Adds an entry to the one of its lfn, or at the end.
fn add_entry(
    alloc: Global,
    lfns: &mut IndexSet<Text>,
    merged: &mut Vec<Merged>,
    entry: Replica,
) -> Result<(), Memory>
    requires { lfns.old.keys ≡ lfns_of merged.old.items }
    ensures merged { OnOk result (merged.new.items ≡ with_entry merged.old.items entry) }
    ensures lfns { OnOk result (lfns.new.keys ≡ lfns_of merged.new.items) }
{
    match lfns.get_index_of(&entry.lfn) {
        Some(place) => merged[place].absorb(entry)?,
        None => {
            lfns.insert(entry.lfn.copied(alloc)?)?;
            merged.push(Merged::new(entry))?;
        }
    }
    Ok(())
}

fn merged_entries(alloc: Global, entries: Vec<Replica>) -> Result<Vec<Merged>, Memory>
    ensures { IfOk result (λ merged. merged.items ≡ with_entries [] entries.items) }
{
    let mut lfns = IndexSet::new(alloc);
    let mut merged = Vec::new(alloc);
    for entry in entries {
        add_entry(alloc, &mut lfns, &mut merged, entry)?;
    }
    Ok(merged)
}

fn replicas_of(alloc: Global, merged: Vec<Merged>) -> Result<Items<Replica>, Memory>
    ensures { IfOk result (λ replicas. replicas ≡ merged.items) }
{
    let mut replicas = Vec::with_capacity(alloc, merged.len())?;
    for entry in merged {
        replicas.push(entry.into_replica())?;
    }
    Ok(Items::new(replicas))
}

/// The entries of a document, those of one lfn joined.
#[tactic(auto, using(crate::proofs::JoiningLemmas::joined_in_turn))]
pub fn joined(alloc: Global, entries: Vec<Replica>) -> Result<Items<Replica>, Memory>
    ensures { IfOk result (λ entries_joined. entries_joined ≡ joined entries.items) }
{
    let merged = merged_entries(alloc, entries)?;
    replicas_of(alloc, merged)
}
