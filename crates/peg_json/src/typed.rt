//! A row's value, in its type.

ghost use Rattle.std.specs.Prelude.{◌≡◌, map, option_map};
ghost use Rattle.serde_json.specs.View.{view as tree_view};
ghost use Rattle.peg_json.specs.code.Tree.{Gives};
ghost use Rattle.peg_json.specs.Tree.{list_in};
ghost use Rattle.peg_json.specs.Typed.{required, optional, text_of, name_of, number_of, flag_of, digits_of, any_of};

use crate::fault::TreeFault;
use crate::kinds;
use crate::list::list_at;
use crate::member::present;
use crate::path::at_key;
use crate::tree::FromTree;
use serde_json::Value;
use std::alloc::Global;
use values::Text;

pub fn text(alloc: Global, value: &Value, path: &Text, key: &str) -> Result<Text, TreeFault>
    ensures { Gives (λ x. x) result (required text_of path.now (tree_view value.now) key.now) }
{
    match present(value, key) {
        Some(found) => kinds::as_text(alloc, found, path, key),
        None => Err(TreeFault::MissingKey(at_key(alloc, path, key)?)),
    }
}

/// The text at a key, lent: for one that is only compared.
pub fn lent_text<'a>(
    alloc: Global,
    value: &'a Value,
    path: &Text,
    key: &str,
) -> Result<&'a str, TreeFault>
    ensures { Gives (λ s. s.now) result
        (required text_of path.now (tree_view value.now) key.now) }
{
    match present(value, key) {
        Some(found) => kinds::as_lent(alloc, found, path, key),
        None => Err(TreeFault::MissingKey(at_key(alloc, path, key)?)),
    }
}

pub fn optional_text(
    alloc: Global,
    value: &Value,
    path: &Text,
    key: &str,
) -> Result<Option<Text>, TreeFault>
    ensures { Gives (λ x. x) result (optional text_of path.now (tree_view value.now) key.now) }
{
    match present(value, key) {
        Some(found) => Ok(Some(kinds::as_text(alloc, found, path, key)?)),
        None => Ok(None),
    }
}

pub fn name(alloc: Global, value: &Value, path: &Text, key: &str) -> Result<Text, TreeFault>
    ensures { Gives (λ x. x) result (required name_of path.now (tree_view value.now) key.now) }
{
    match present(value, key) {
        Some(found) => kinds::as_name(alloc, found, path, key),
        None => Err(TreeFault::MissingKey(at_key(alloc, path, key)?)),
    }
}

pub fn optional_name(
    alloc: Global,
    value: &Value,
    path: &Text,
    key: &str,
) -> Result<Option<Text>, TreeFault>
    ensures { Gives (λ x. x) result (optional name_of path.now (tree_view value.now) key.now) }
{
    match present(value, key) {
        Some(found) => Ok(Some(kinds::as_name(alloc, found, path, key)?)),
        None => Ok(None),
    }
}

pub fn number(
    alloc: Global,
    value: &Value,
    path: &Text,
    key: &str,
    limit: u64,
) -> Result<u64, TreeFault>
    ensures { Gives (λ x. x) result
        (required (number_of limit) path.now (tree_view value.now) key.now) }
{
    match present(value, key) {
        Some(found) => kinds::as_number(alloc, found, path, key, limit),
        None => Err(TreeFault::MissingKey(at_key(alloc, path, key)?)),
    }
}

pub fn optional_number(
    alloc: Global,
    value: &Value,
    path: &Text,
    key: &str,
    limit: u64,
) -> Result<Option<u64>, TreeFault>
    ensures { Gives (λ x. x) result
        (optional (number_of limit) path.now (tree_view value.now) key.now) }
{
    match present(value, key) {
        Some(found) => Ok(Some(kinds::as_number(alloc, found, path, key, limit)?)),
        None => Ok(None),
    }
}

pub fn flag(alloc: Global, value: &Value, path: &Text, key: &str) -> Result<bool, TreeFault>
    ensures { Gives (λ x. x) result (required flag_of path.now (tree_view value.now) key.now) }
{
    match present(value, key) {
        Some(found) => kinds::as_flag(alloc, found, path, key),
        None => Err(TreeFault::MissingKey(at_key(alloc, path, key)?)),
    }
}

pub fn optional_flag(
    alloc: Global,
    value: &Value,
    path: &Text,
    key: &str,
) -> Result<Option<bool>, TreeFault>
    ensures { Gives (λ x. x) result (optional flag_of path.now (tree_view value.now) key.now) }
{
    match present(value, key) {
        Some(found) => Ok(Some(kinds::as_flag(alloc, found, path, key)?)),
        None => Ok(None),
    }
}

pub fn digits(alloc: Global, value: &Value, path: &Text, key: &str) -> Result<Text, TreeFault>
    ensures { Gives (λ x. x) result (required digits_of path.now (tree_view value.now) key.now) }
{
    match present(value, key) {
        Some(found) => kinds::as_digits(alloc, found, path, key),
        None => Err(TreeFault::MissingKey(at_key(alloc, path, key)?)),
    }
}

pub fn optional_digits(
    alloc: Global,
    value: &Value,
    path: &Text,
    key: &str,
) -> Result<Option<Text>, TreeFault>
    ensures { Gives (λ x. x) result (optional digits_of path.now (tree_view value.now) key.now) }
{
    match present(value, key) {
        Some(found) => Ok(Some(kinds::as_digits(alloc, found, path, key)?)),
        None => Ok(None),
    }
}

pub fn any<'a>(
    alloc: Global,
    value: &'a Value,
    path: &Text,
    key: &str,
) -> Result<&'a Value, TreeFault>
    ensures { Gives (λ v. tree_view v.now) result
        (required any_of path.now (tree_view value.now) key.now) }
{
    match present(value, key) {
        Some(found) => Ok(found),
        None => Err(TreeFault::MissingKey(at_key(alloc, path, key)?)),
    }
}

pub fn optional_any<'a>(
    _alloc: Global,
    value: &'a Value,
    _path: &Text,
    key: &str,
) -> Result<Option<&'a Value>, TreeFault>
    ensures { Gives (λ o. option_map (λ v. tree_view v.now) o) result
        (optional any_of _path.now (tree_view value.now) key.now) }
{
    match present(value, key) {
        Some(found) => Ok(Some(found)),
        None => Ok(None),
    }
}

pub fn object<T: FromTree>(
    alloc: Global,
    value: &Value,
    path: &Text,
    key: &str,
) -> Result<T, TreeFault>
    ensures { Gives T.seen result (required T.reads path.now (tree_view value.now) key.now) }
{
    let place = at_key(alloc, path, key)?;
    match present(value, key) {
        Some(found) => T::from_tree(alloc, found, &place),
        None => Err(TreeFault::MissingKey(place)),
    }
}

pub fn optional_object<T: FromTree>(
    alloc: Global,
    value: &Value,
    path: &Text,
    key: &str,
) -> Result<Option<T>, TreeFault>
    ensures { Gives (option_map T.seen) result
        (optional T.reads path.now (tree_view value.now) key.now) }
{
    match present(value, key) {
        Some(found) => {
            let place = at_key(alloc, path, key)?;
            Ok(Some(T::from_tree(alloc, found, &place)?))
        }
        None => Ok(None),
    }
}

pub fn list<T: FromTree>(
    alloc: Global,
    value: &Value,
    path: &Text,
    key: &str,
) -> Result<Vec<T>, TreeFault>
    ensures { Gives (λ v. map T.seen v.items) result
        (required (list_in T.reads) path.now (tree_view value.now) key.now) }
{
    let place = at_key(alloc, path, key)?;
    match present(value, key) {
        Some(found) => list_at(alloc, found, &place),
        None => Err(TreeFault::MissingKey(place)),
    }
}

pub fn optional_list<T: FromTree>(
    alloc: Global,
    value: &Value,
    path: &Text,
    key: &str,
) -> Result<Option<Vec<T>>, TreeFault>
    ensures { Gives (option_map (λ v. map T.seen v.items)) result
        (optional (list_in T.reads) path.now (tree_view value.now) key.now) }
{
    match present(value, key) {
        Some(found) => {
            let place = at_key(alloc, path, key)?;
            Ok(Some(list_at(alloc, found, &place)?))
        }
        None => Ok(None),
    }
}

/// A row's value, in its type, or the return of its fault.
#[macro_export]
macro_rules! row {
    ($alloc:expr, $value:expr, $path:expr, $key:expr, Text) => { $crate::typed::text($alloc, $value, $path, $key)? };
    ($alloc:expr, $value:expr, $path:expr, $key:expr, optional Text) => { $crate::typed::optional_text($alloc, $value, $path, $key)? };
    ($alloc:expr, $value:expr, $path:expr, $key:expr, Name) => { $crate::typed::name($alloc, $value, $path, $key)? };
    ($alloc:expr, $value:expr, $path:expr, $key:expr, optional Name) => { $crate::typed::optional_name($alloc, $value, $path, $key)? };
    ($alloc:expr, $value:expr, $path:expr, $key:expr, Flag) => { $crate::typed::flag($alloc, $value, $path, $key)? };
    ($alloc:expr, $value:expr, $path:expr, $key:expr, optional Flag) => { $crate::typed::optional_flag($alloc, $value, $path, $key)? };
    ($alloc:expr, $value:expr, $path:expr, $key:expr, Digits) => { $crate::typed::digits($alloc, $value, $path, $key)? };
    ($alloc:expr, $value:expr, $path:expr, $key:expr, optional Digits) => { $crate::typed::optional_digits($alloc, $value, $path, $key)? };
    ($alloc:expr, $value:expr, $path:expr, $key:expr, Any) => { $crate::typed::any($alloc, $value, $path, $key)? };
    ($alloc:expr, $value:expr, $path:expr, $key:expr, optional Any) => { $crate::typed::optional_any($alloc, $value, $path, $key)? };
    ($alloc:expr, $value:expr, $path:expr, $key:expr, Number up to $limit:expr) => { $crate::typed::number($alloc, $value, $path, $key, $limit)? };
    ($alloc:expr, $value:expr, $path:expr, $key:expr, optional Number up to $limit:expr) => { $crate::typed::optional_number($alloc, $value, $path, $key, $limit)? };
    ($alloc:expr, $value:expr, $path:expr, $key:expr, Object $t:ty) => { $crate::typed::object::<$t>($alloc, $value, $path, $key)? };
    ($alloc:expr, $value:expr, $path:expr, $key:expr, optional Object $t:ty) => { $crate::typed::optional_object::<$t>($alloc, $value, $path, $key)? };
    ($alloc:expr, $value:expr, $path:expr, $key:expr, List $t:ty) => { $crate::typed::list::<$t>($alloc, $value, $path, $key)? };
    ($alloc:expr, $value:expr, $path:expr, $key:expr, optional List $t:ty) => { $crate::typed::optional_list::<$t>($alloc, $value, $path, $key)? };
}
