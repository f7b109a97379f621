//! The joint catalogues.

ghost use Rattle.std.specs.Prelude.{◌≡◌, IfOk};
ghost use Rattle.replica_catalog.specs.Catalog.{replica_view};
ghost use Rattle.ensemble.specs.Catalogues.{AreJointReplicas, AreJointTransformations, first_sites, joint_entries, joint_replicas};
ghost use Rattle.ensemble.specs.Member.{AreMembers, IsJoined};

use crate::entries::{add_entries, add_replicas};
use crate::member::Member;
use crate::site_copies::catalog_copied;
use replica_catalog::{Replica, ReplicaCatalog};
use site_catalog::SiteCatalog;
use std::alloc::Global;
use transformation_catalog::{TransformationCatalog, TransformationEntry};
use values::{Items, Memory};
use workflow_core::names_are_numbered;

/// The sites of the first member.
pub fn first_sites(alloc: Global, members: &[Member]) -> Result<SiteCatalog, Memory>
    ensures { IfOk result (λ c. c ≡ first_sites members.now) }
{
    match members.first() {
        Some(member) => catalog_copied(alloc, &member.survey.sites),
        None => Ok(SiteCatalog {
            sites: Items::new(Vec::new(alloc)),
            ignored: Items::new(Vec::new(alloc)),
        }),
    }
}

fn replicas_of(alloc: Global, members: &[Member]) -> Result<Vec<Replica>, Memory>
    ensures { IfOk result (λ v. v.items ≡ joint_replicas members.now) }
{
    let mut entries = Vec::new(alloc);
    for member in members {
        let more = member.survey.replicas.entries.as_slice();
        add_replicas(alloc, &mut entries, &member.name, more)?;
    }
    Ok(entries)
}

fn entries_of(alloc: Global, members: &[Member]) -> Result<Vec<TransformationEntry>, Memory>
    ensures { IfOk result (λ v. v.items ≡ joint_entries members.now) }
{
    let mut entries = Vec::new(alloc);
    for member in members {
        let more = member.survey.transformations.entries.as_slice();
        add_entries(alloc, &mut entries, &member.name, more)?;
    }
    Ok(entries)
}

/// The replicas of all members, each file once.
pub fn joint_replicas(alloc: Global, members: &[Member]) -> Result<ReplicaCatalog, Memory>
    requires { AreMembers members.now }
    ensures joint { IfOk result (λ c. AreJointReplicas members.now c) }
    ensures joined { IfOk result (λ c. IsJoined (replica_view c)) }
{
    // A law for the proof: it does nothing.
    names_are_numbered();
    let entries = replicas_of(alloc, members)?;
    let listed = entries.len() as u64;
    Ok(ReplicaCatalog {
        entries: Items::new(entries),
        listed,
        ignored: Items::new(Vec::new(alloc)),
    })
}

/// The transformations of all members.
pub fn joint_transformations(
    alloc: Global,
    members: &[Member],
) -> Result<TransformationCatalog, Memory>
    ensures { IfOk result (λ c. AreJointTransformations members.now c) }
{
    let entries = entries_of(alloc, members)?;
    Ok(TransformationCatalog {
        entries: Items::new(entries),
        ignored: Items::new(Vec::new(alloc)),
    })
}
