//! The names of members, of which there are few and none comes twice.

ghost use Rattle.std.specs.Prelude.{◌≡◌, length};
ghost use Rattle.std.specs.Str.{bytes_eq};
ghost use Rattle.peg_json.specs.Elements.{first_repeat};
ghost use Rattle.ensemble.specs.Reader.{GivesEnsemble, few_members, named_once, names_of, twice_refused};

use crate::document::MemberEntry;
use crate::fault::EnsembleFault;
use std::alloc::Global;
use workflow_core::Names;

const MAX_MEMBERS: u64 = 64;

/// Refuses more than 64 members.
pub fn check_count(members: &[MemberEntry]) -> Result<(), EnsembleFault>
    ensures { result ≡ few_members (length members.now) }
{
    let count = members.len() as u64;
    if MAX_MEMBERS < count {
        return Err(EnsembleFault::TooMany(count, MAX_MEMBERS));
    }
    Ok(())
}

/// Adds the members' names, and refuses one that is there before.
fn add_names(alloc: Global, known: &mut Names, members: &[MemberEntry]) -> Result<(), EnsembleFault>
    ensures { GivesEnsemble (λ u. u) result
        (twice_refused (first_repeat bytes_eq known.old (names_of members.now))) }
{
    for member in members {
        if known.contains(&member.name) {
            return Err(EnsembleFault::DuplicateMember(member.name.copied(alloc)?));
        }
        known.add(alloc, &member.name)?;
    }
    Ok(())
}

/// Refuses a member whose name is there before.
pub fn check_names(alloc: Global, members: &[MemberEntry]) -> Result<(), EnsembleFault>
    ensures { GivesEnsemble (λ u. u) result (named_once members.now) }
{
    let mut known = Names::new(alloc);
    let checked = add_names(alloc, &mut known, members);
    drop(known);
    checked
}
