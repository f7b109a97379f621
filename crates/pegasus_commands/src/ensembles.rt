//! The documents of an ensemble, and the joint of its members.

ghost use Rattle.std.specs.Prelude.{◌≡◌, ◌++◌, [], ◌∷◌, false, IfErr, IfOk, OnOk};
ghost use Rattle.plan_request.specs.code.Limits.{IsWithinLimits};
ghost use Rattle.ensemble.specs.Applying.{own_request};
ghost use Rattle.ensemble.specs.Joining.{IsJoint};
ghost use Rattle.ensemble.specs.Law.{MeansMembers};
ghost use Rattle.ensemble.specs.Limits.{IsFit};
ghost use Rattle.ensemble.specs.Member.{AreMembers, IsMember};
ghost use Rattle.ensemble.specs.MemberEntry.{has_slash};
ghost use Rattle.pegasus_commands.specs.code.Course.{ButMemory, IsStep};
ghost use Rattle.pegasus_commands.specs.code.Ensembles.{AreRead, HasNoJoint, IsJoinedOf, ReadsMember, Stops, StopsAt, SurveysMember, ensemble_document, ensemble_in_bytes};
ghost use Rattle.pegasus_commands.specs.code.Moments.{docs_moment};

use crate::course::{Requested, fetch, fetch_documents};
use crate::fault::{CallFault, of_ensemble_fault, of_join_fault, of_member, of_plan_fault};
use ensemble::{
    Ensemble, Member, MemberEntry, ensemble_request, join, joint_means_the_members, member_request,
    surveyed_members_are_members,
};
use outside::{Blob, Docs, Memory, Text};
use planner::{Surveyed, survey_request};
use std::alloc::Global;

/// The ensemble that a document's bytes say.
fn ensemble_in(alloc: Global, bytes: &Blob) -> Result<Ensemble, CallFault>
    ensures answer { ButMemory result (result ≡ ensemble_in_bytes bytes.now) }
    ensures fit { IfOk result (λ e. IsFit e) }
{
    match ensemble::read(alloc, bytes.as_slice()) {
        Ok(ensemble) => Ok(ensemble),
        Err(fault) => Err(of_ensemble_fault(fault)),
    }
}

fn fetch_ensemble<D: Docs>(alloc: Global, docs: &mut D, name: &str) -> Result<Ensemble, CallFault>
    ensures answer { IsStep (ensemble_document name.now) (docs_moment D.Docs docs.old)
        (docs_moment D.Docs docs.new) result }
    ensures fit { IfOk result (λ e. IsFit e) }
{
    match fetch(alloc, docs, name) {
        Ok(bytes) => ensemble_in(alloc, &bytes),
        Err(fault) => Err(fault),
    }
}

/// Surveys a member's documents, with the ensemble's keys in its request.
fn survey_member(
    alloc: Global,
    ensemble: &Ensemble,
    name: Text,
    requested: Requested,
) -> Result<Member, CallFault>
    requires fit { IsFit ensemble.now }
    requires limits { IsWithinLimits requested.request }
    ensures surveys { SurveysMember ensemble.now name requested result }
    ensures member { IfOk result (λ m. has_slash m.name ≡ false → IsMember m) }
{
    // A law for the proof: it does nothing.
    surveyed_members_are_members();
    let Requested { request, documents } = requested;
    let request = member_request(alloc, ensemble, request)?;
    match survey_request(alloc, request, &documents) {
        Ok(Surveyed { request, survey }) => {
            drop(documents);
            Ok(Member {
                name,
                request,
                survey,
            })
        }
        Err(fault) => {
            drop(documents);
            Err(of_member(name, of_plan_fault(fault)))
        }
    }
}

/// Fetches and surveys the documents of a member.
fn read_member<D: Docs>(
    alloc: Global,
    docs: &mut D,
    ensemble: &Ensemble,
    entry: &MemberEntry,
) -> Result<Member, CallFault>
    requires { IsFit ensemble.now }
    ensures reads { ReadsMember ensemble.now entry.now (docs_moment D.Docs docs.old)
        (docs_moment D.Docs docs.new) result }
    ensures member { IfOk result (λ m. has_slash m.name ≡ false → IsMember m) }
{
    let name = entry.name.copied(alloc)?;
    match fetch_documents(alloc, docs, entry.request.as_str()) {
        Ok(requested) => survey_member(alloc, ensemble, name, requested),
        Err(fault) => Err(of_member(name, fault)),
    }
}

fn add(members: &mut Vec<Member>, member: Member) -> Result<(), Memory>
    ensures { OnOk result (members.new.items ≡ members.old.items ++ member ∷ []) }
{
    members.push(member)?;
    Ok(())
}

/// Fetches and surveys the documents of each member, one after the other.
fn read_members<D: Docs>(
    alloc: Global,
    docs: &mut D,
    ensemble: &Ensemble,
) -> Result<Vec<Member>, CallFault>
    requires { IsFit ensemble.now }
    ensures read { IfOk result (λ ms. AreRead ensemble.now ensemble.now.members (docs_moment D.Docs docs.old)
        (docs_moment D.Docs docs.new) ms.items) }
    ensures stops { IfErr result (StopsAt ensemble.now ensemble.now.members (docs_moment D.Docs docs.old)
        (docs_moment D.Docs docs.new)) }
    ensures members { IfOk result (λ ms. AreMembers ms.items) }
{
    let mut members = Vec::new(alloc);
    for entry in ensemble.members.as_slice() {
        let member = match read_member(alloc, docs, ensemble, entry) {
            Ok(member) => member,
            Err(fault) => {
                drop(members);
                return Err(fault);
            }
        };
        match add(&mut members, member) {
            Ok(()) => {}
            Err(Memory) => {
                drop(members);
                return Err(CallFault::Memory);
            }
        }
    }
    Ok(members)
}

/// Joins members that were read.
fn join_members(
    alloc: Global,
    ensemble: &Ensemble,
    members: &[Member],
) -> Result<Surveyed, CallFault>
    requires fit { IsFit ensemble.now }
    requires members { AreMembers members.now }
    ensures joint { IfOk result (λ s. IsJoint members.now (own_request ensemble.now) s) }
    ensures means { IfOk result (λ s. MeansMembers members.now s) }
    ensures unjoined { IfErr result (HasNoJoint members.now) }
{
    // A law for the proof: it does nothing.
    joint_means_the_members();
    let request = ensemble_request(alloc, ensemble)?;
    match join(alloc, members, &request) {
        Ok(joint) => {
            drop(request);
            Ok(joint)
        }
        Err(fault) => {
            drop(request);
            Err(of_join_fault(fault))
        }
    }
}

/// Fetches an ensemble and the documents of its members, and joins what they say.
pub(crate) fn read_joint<D: Docs>(
    alloc: Global,
    docs: &mut D,
    name: &str,
) -> Result<Surveyed, CallFault>
    ensures joined { IfOk result (IsJoinedOf name.now (docs_moment D.Docs docs.old)
        (docs_moment D.Docs docs.new)) }
    ensures stops { IfErr result (Stops name.now (docs_moment D.Docs docs.old)
        (docs_moment D.Docs docs.new)) }
{
    let ensemble = match fetch_ensemble(alloc, docs, name) {
        Ok(ensemble) => ensemble,
        Err(fault) => return Err(fault),
    };
    let members = match read_members(alloc, docs, &ensemble) {
        Ok(members) => members,
        Err(fault) => {
            drop(ensemble);
            return Err(fault);
        }
    };
    match join_members(alloc, &ensemble, &members) {
        Ok(joint) => {
            drop(members);
            drop(ensemble);
            Ok(joint)
        }
        Err(fault) => {
            drop(members);
            drop(ensemble);
            Err(fault)
        }
    }
}
