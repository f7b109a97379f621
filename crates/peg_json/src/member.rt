//! The members of an object, checked against its rows.

ghost use Rattle.std.specs.Prelude.{◌≡◌, ◌++◌, IfOk, OnOk, map, option_map, string_bytes};
ghost use Rattle.std.specs.BTreeMap.{keys};
ghost use Rattle.std.specs.List.Sorted.{IsPermutation, IsSorted};
ghost use Rattle.std.specs.Ordering.{nat_cmp};
ghost use Rattle.std.specs.Cmp.Lexicographic.{slice_cmp};
ghost use Rattle.serde_json.specs.View.{view as tree_view};
ghost use Rattle.peg_json.specs.code.Tree.{Gives};
ghost use Rattle.peg_json.specs.Table.{member_of, is_kind, checks, is_key};
ghost use Rattle.peg_json.specs.code.Table.{row_of, rows_of, row_checked, rows_checked};
ghost use Rattle.peg_json.specs.code.Unknown.{unknown_paths, unknown_in};

use crate::fault::TreeFault;
use crate::path;
use crate::row::{KeyRow, Kind};
use crate::table::KeyTable;
use serde_json::{Map, Value};
use std::alloc::Global;
use values::{Memory, Text};

/// The object's member of a key. A null counts as absent.
pub fn present<'a>(value: &'a Value, key: &str) -> Option<&'a Value>
    ensures { option_map (λ v. tree_view v.now) result ≡ member_of (tree_view value.now) key.now }
{
    match value.get(key) {
        Some(found) => { if found.is_null() { None } else { Some(found) } }
        None => None,
    }
}

/// Whether a value is of a kind.
fn is_of_kind(value: &Value, kind: Kind) -> bool
    ensures { result ≡ is_kind kind (tree_view value.now) }
{
    match kind {
        Kind::Name => match value.as_str() {
            Some(text) => !text.is_empty(),
            None => false,
        },
        Kind::Text => value.is_string(),
        Kind::Number => value.is_u64(),
        Kind::Flag => value.is_boolean(),
        Kind::List => value.is_array(),
        Kind::Object => value.is_object(),
        Kind::Digits => value.is_u64() || value.is_string(),
        Kind::Any => true,
    }
}

/// Checks the object's member of a row: that it is there where it has to be, and of the row's kind.
fn check_row(alloc: Global, value: &Value, path: &Text, row: &KeyRow) -> Result<(), TreeFault>
    ensures { Gives (λ u. u) result (row_checked path.now (tree_view value.now) (row_of row.now)) }
{
    match present(value, row.key) {
        Some(found) => {
            if is_of_kind(found, row.kind) {
                Ok(())
            } else {
                Err(TreeFault::WrongKind(path::at_key(alloc, path, row.key)?))
            }
        }
        None => {
            if row.required {
                Err(TreeFault::MissingKey(path::at_key(alloc, path, row.key)?))
            } else {
                Ok(())
            }
        }
    }
}

fn check_rows(alloc: Global, value: &Value, path: &Text, rows: &[KeyRow]) -> Result<(), TreeFault>
    ensures { Gives (λ u. u) result (rows_checked path.now (tree_view value.now) (rows_of rows.now)) }
{
    for row in rows {
        check_row(alloc, value, path, row)?;
    }
    Ok(())
}

/// Checks an object whole: the first fault of its rows.
#[tactic(auto, unfolding(crate::specs::Table::members_of), using(crate::proofs::TableLemmas::rows_are_checked))]
pub fn checked<const N: usize>(
    alloc: Global,
    value: &Value,
    path: &Text,
    table: &KeyTable<N>,
) -> Result<(), TreeFault>
    ensures { Gives (λ u. u) result
        (checks path.now (tree_view value.now) (rows_of table.now.rows.now)) }
{
    if !value.is_object() {
        return Err(TreeFault::WrongKind(path.copied(alloc)?));
    }
    check_rows(alloc, value, path, table.rows)
}

/// Whether a row has the key.
fn has_key(rows: &[KeyRow], key: &str) -> bool
    ensures { result ≡ is_key (rows_of rows.now) key.now }
{
    for row in rows {
        if row.key == key {
            return true;
        }
    }
    false
}

fn gather_from(
    alloc: Global,
    members: &Map<String, Value>,
    path: &Text,
    rows: &[KeyRow],
    into: &mut Vec<Text>,
) -> Result<(), Memory>
    ensures { OnOk result
        (into.new.items ≡ into.old.items ++ unknown_paths path.now (rows_of rows.now)
        (map string_bytes (keys members.now))) }
{
    for key in members.keys() {
        if !has_key(rows, key.as_str()) {
            into.push(path::at_key(alloc, path, key.as_str())?)?;
        }
    }
    Ok(())
}

/// Adds the paths of the object's keys that no row has.
#[tactic(auto, using(crate::proofs::TreeLemmas::keys_view))]
pub fn gather<const N: usize>(
    alloc: Global,
    value: &Value,
    path: &Text,
    table: &KeyTable<N>,
    into: &mut Vec<Text>,
) -> Result<(), Memory>
    ensures { OnOk result
        (into.new.items ≡ into.old.items ++ unknown_in path.now (tree_view value.now)
        (rows_of table.now.rows.now)) }
{
    match value.as_object() {
        Some(members) => gather_from(alloc, members, path, table.rows, into),
        None => Ok(()),
    }
}

/// The paths of the object's keys that no row has, in byte order.
pub fn ignored<const N: usize>(
    alloc: Global,
    value: &Value,
    path: &Text,
    table: &KeyTable<N>,
) -> Result<Vec<Text>, Memory>
    ensures exact { IfOk result
        (λ v. IsPermutation (unknown_in path.now (tree_view value.now)
        (rows_of table.now.rows.now)) v.items) }
    ensures order { IfOk result (λ v. IsSorted (slice_cmp nat_cmp) v.items) }
{
    let mut paths = Vec::new(alloc);
    gather(alloc, value, path, table, &mut paths)?;
    paths.sort()?;
    Ok(paths)
}
