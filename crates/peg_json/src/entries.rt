//! Objects from free keys to values.

ghost use Rattle.std.specs.Prelude.{◌≡◌, map};
ghost use Rattle.serde_json.specs.View.{view as tree_view};
ghost use Rattle.peg_json.specs.code.Tree.{Gives};
ghost use Rattle.peg_json.specs.Entries.{entry_of, entries_from, entries_in};
ghost use Rattle.peg_json.specs.code.Entries.{seen_members};

use crate::fault::TreeFault;
use crate::path::at_key;
use crate::tree::FromTree;
use serde_json::{Map, Value};
use std::alloc::Global;
use values::Text;

#[tactic(auto, unfolding(crate::specs::Entries::entry_of))]
fn read_entry<T: FromTree>(
    alloc: Global,
    value: &Value,
    path: &Text,
    key: &str,
) -> Result<(Text, T), TreeFault>
    ensures { Gives (λ e. (e.0, T.seen e.1)) result
        (entry_of T.reads path.now key.now (tree_view value.now)) }
{
    let place = at_key(alloc, path, key)?;
    let read = T::from_tree(alloc, value, &place)?;
    Ok((Text::copy_of(alloc, key)?, read))
}

fn entries_of<T: FromTree>(
    alloc: Global,
    members: &Map<String, Value>,
    path: &Text,
) -> Result<Vec<(Text, T)>, TreeFault>
    ensures { Gives (λ v. map (λ e. (e.0, T.seen e.1)) v.items) result
        (entries_from T.reads path.now (seen_members members.now.entries)) }
{
    let mut out = Vec::new(alloc);
    for member in members.iter() {
        match read_entry(alloc, member.1, path, member.0.as_str()) {
            Ok(read) => out.push(read)?,
            Err(e) => return Err(e),
        }
    }
    Ok(out)
}

/// Each member of an object with its key, in byte order of the keys. A null is read like any other value.
#[tactic(auto, using(crate::proofs::TreeLemmas::members_seen))]
pub fn entries_at<T: FromTree>(
    alloc: Global,
    value: &Value,
    path: &Text,
) -> Result<Vec<(Text, T)>, TreeFault>
    ensures { Gives (λ v. map (λ e. (e.0, T.seen e.1)) v.items) result
        (entries_in T.reads path.now (tree_view value.now)) }
{
    match value.as_object() {
        Some(members) => entries_of(alloc, members, path),
        None => Err(TreeFault::WrongKind(path.copied(alloc)?)),
    }
}
