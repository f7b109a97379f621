//! Entries of a member's catalogues, in the joint of all members.

ghost use Rattle.std.specs.Prelude.{◌≡◌, ◌++◌, map, IfOk, OnOk};
ghost use Rattle.ensemble.specs.Entries.{entry_of, replica_of};

use crate::copying::option_copied;
use crate::prefix::{prefixed, transformation_of};
use replica_catalog::{Pfn, Replica};
use std::alloc::Global;
use transformation_catalog::{TransformationEntry, TransformationSite};
use values::{Items, Memory, Text};

fn pfns_copied(alloc: Global, pfns: &[Pfn]) -> Result<Items<Pfn>, Memory>
    ensures { IfOk result (λ copy. copy ≡ pfns.now) }
{
    let mut copies = Vec::new(alloc);
    for pfn in pfns {
        copies.push(Pfn {
            site: pfn.site.copied(alloc)?,
            pfn: pfn.pfn.copied(alloc)?,
        })?;
    }
    Ok(Items::new(copies))
}

fn replica_of(alloc: Global, member: &Text, entry: &Replica) -> Result<Replica, Memory>
    ensures { IfOk result (λ e. e ≡ replica_of member.now entry.now) }
{
    Ok(Replica {
        lfn: prefixed(alloc, member, &entry.lfn)?,
        pfns: pfns_copied(alloc, entry.pfns.as_slice())?,
        checksum: entry.checksum,
    })
}

/// Adds the entries of a member's replica catalogue.
pub fn add_replicas(
    alloc: Global,
    entries: &mut Vec<Replica>,
    member: &Text,
    more: &[Replica],
) -> Result<(), Memory>
    ensures { OnOk result
        (entries.new.items ≡ entries.old.items ++ map (replica_of member.now) more.now) }
{
    for entry in more {
        entries.push(replica_of(alloc, member, entry)?)?;
    }
    Ok(())
}

fn offers_copied(
    alloc: Global,
    sites: &[TransformationSite],
) -> Result<Items<TransformationSite>, Memory>
    ensures { IfOk result (λ copy. copy ≡ sites.now) }
{
    let mut copies = Vec::new(alloc);
    for site in sites {
        copies.push(TransformationSite {
            name: site.name.copied(alloc)?,
            installed: site.installed,
        })?;
    }
    Ok(Items::new(copies))
}

fn entry_of(
    alloc: Global,
    member: &Text,
    entry: &TransformationEntry,
) -> Result<TransformationEntry, Memory>
    ensures { IfOk result (λ e. e ≡ entry_of member.now entry.now) }
{
    Ok(TransformationEntry {
        transformation: transformation_of(alloc, member, &entry.transformation)?,
        sites: offers_copied(alloc, entry.sites.as_slice())?,
        cluster_size: option_copied(alloc, &entry.cluster_size)?,
        cluster_num: option_copied(alloc, &entry.cluster_num)?,
    })
}

/// Adds the entries of a member's transformation catalogue.
pub fn add_entries(
    alloc: Global,
    entries: &mut Vec<TransformationEntry>,
    member: &Text,
    more: &[TransformationEntry],
) -> Result<(), Memory>
    ensures { OnOk result
        (entries.new.items ≡ entries.old.items ++ map (entry_of member.now) more.now) }
{
    for entry in more {
        entries.push(entry_of(alloc, member, entry)?)?;
    }
    Ok(())
}
