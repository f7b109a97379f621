//! Objects that have no keys but those of their table.

ghost use Rattle.std.specs.Prelude.{◌≡◌, IfOk, map, option_map, string_bytes};
ghost use Rattle.std.specs.BTreeMap.{keys};
ghost use Rattle.serde_json.specs.View.{view as tree_view};
ghost use Rattle.peg_json.specs.code.Table.{rows_of};
ghost use Rattle.peg_json.specs.Table.{is_key};
ghost use Rattle.peg_json.specs.code.Tree.{Gives};
ghost use Rattle.plan_request.specs.Request.{earlier, first_unknown_key, unknown_refused, only_known};

use peg_json::{KeyRow, KeyTable, TreeFault, at_key};
use serde_json::{Map, Value};
use std::alloc::Global;
use std::cmp::Ordering;
use values::{Memory, Text};

/// Whether a row has the key.
fn has_key(rows: &[KeyRow], key: &str) -> bool
    ensures { result ≡ is_key (rows_of rows.now) key.now }
{
    for row in rows {
        if row.key == key {
            return true;
        }
    }
    false
}

/// Of two keys the one whose path comes first.
fn earlier<'a>(alloc: Global, path: &Text, one: &'a str, other: &'a str) -> Result<&'a str, Memory>
    ensures { IfOk result (λ k. k.now ≡ earlier path.now one.now other.now) }
{
    let place = at_key(alloc, path, one)?;
    match place.cmp(&at_key(alloc, path, other)?) {
        Ordering::Less | Ordering::Equal => Ok(one),
        Ordering::Greater => Ok(other),
    }
}

/// The unknown key whose path comes first.
fn first_unknown<'a>(
    alloc: Global,
    members: &'a Map<String, Value>,
    path: &Text,
    rows: &[KeyRow],
) -> Result<Option<&'a str>, Memory>
    ensures { IfOk result (λ o. option_map (λ k. k.now) o
        ≡ first_unknown_key path.now (rows_of rows.now) (map string_bytes (keys members.now))) }
{
    let mut first = None;
    for key in members.keys() {
        if !has_key(rows, key.as_str()) {
            first = match first {
                Some(before) => Some(earlier(alloc, path, before, key.as_str())?),
                None => Some(key.as_str()),
            };
        }
    }
    Ok(first)
}

fn refuse_unknown(
    alloc: Global,
    members: &Map<String, Value>,
    path: &Text,
    rows: &[KeyRow],
) -> Result<(), TreeFault>
    ensures { Gives (λ u. u) result (unknown_refused path.now
        (first_unknown_key path.now (rows_of rows.now) (map string_bytes (keys members.now)))) }
{
    match first_unknown(alloc, members, path, rows)? {
        Some(key) => {
            let what = Text::copy_of(alloc, key)?;
            Err(TreeFault::Unsupported(at_key(alloc, path, key)?, what))
        }
        None => Ok(()),
    }
}

/// Refuses an object with a key that no row has, be its value null.
#[tactic(auto, using(crate::proofs::KnownLemmas::keys_view))]
pub fn only_known<const N: usize>(
    alloc: Global,
    value: &Value,
    path: &Text,
    table: &KeyTable<N>,
) -> Result<(), TreeFault>
    ensures { Gives (λ u. u) result
        (only_known path.now (tree_view value.now) (rows_of table.now.rows.now)) }
{
    match value.as_object() {
        Some(members) => refuse_unknown(alloc, members, path, table.rows),
        None => Ok(()),
    }
}
