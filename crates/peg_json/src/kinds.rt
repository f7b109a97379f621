//! A value of a kind, at a key's path.

ghost use Rattle.std.specs.Prelude.{◌≡◌};
ghost use Rattle.serde_json.specs.View.{view as tree_view};
ghost use Rattle.peg_json.specs.code.Tree.{Gives};
ghost use Rattle.peg_json.specs.Path.{key_path};
ghost use Rattle.peg_json.specs.Typed.{text_of, name_of, number_of, flag_of, digits_of};

use crate::fault::TreeFault;
use crate::path::at_key;
use serde_json::Value;
use std::alloc::Global;
use values::Text;

/// The text that a value is, lent.
pub fn as_lent<'a>(
    alloc: Global,
    found: &'a Value,
    path: &Text,
    key: &str,
) -> Result<&'a str, TreeFault>
    ensures { Gives (λ s. s.now) result
        (text_of (key_path path.now key.now) (tree_view found.now)) }
{
    match found.as_str() {
        Some(text) => Ok(text),
        None => Err(TreeFault::WrongKind(at_key(alloc, path, key)?)),
    }
}

pub fn as_text(alloc: Global, found: &Value, path: &Text, key: &str) -> Result<Text, TreeFault>
    ensures { Gives (λ t. t) result (text_of (key_path path.now key.now) (tree_view found.now)) }
{
    let text = as_lent(alloc, found, path, key)?;
    Ok(Text::copy_of(alloc, text)?)
}

pub fn as_name(alloc: Global, found: &Value, path: &Text, key: &str) -> Result<Text, TreeFault>
    ensures { Gives (λ t. t) result (name_of (key_path path.now key.now) (tree_view found.now)) }
{
    match found.as_str() {
        Some(text) => {
            if text.is_empty() {
                Err(TreeFault::WrongKind(at_key(alloc, path, key)?))
            } else {
                Ok(Text::copy_of(alloc, text)?)
            }
        }
        None => Err(TreeFault::WrongKind(at_key(alloc, path, key)?)),
    }
}

pub fn as_number(
    alloc: Global,
    found: &Value,
    path: &Text,
    key: &str,
    limit: u64,
) -> Result<u64, TreeFault>
    ensures { Gives (λ n. n) result
        (number_of limit (key_path path.now key.now) (tree_view found.now)) }
{
    match found.as_u64() {
        Some(n) => {
            if limit < n {
                Err(TreeFault::OutOfRange(at_key(alloc, path, key)?, n))
            } else {
                Ok(n)
            }
        }
        None => Err(TreeFault::WrongKind(at_key(alloc, path, key)?)),
    }
}

pub fn as_flag(alloc: Global, found: &Value, path: &Text, key: &str) -> Result<bool, TreeFault>
    ensures { Gives (λ b. b) result (flag_of (key_path path.now key.now) (tree_view found.now)) }
{
    match found.as_bool() {
        Some(flag) => Ok(flag),
        None => Err(TreeFault::WrongKind(at_key(alloc, path, key)?)),
    }
}

/// A number as its decimal digits, and a text as it is.
pub fn as_digits(alloc: Global, found: &Value, path: &Text, key: &str) -> Result<Text, TreeFault>
    ensures { Gives (λ t. t) result (digits_of (key_path path.now key.now) (tree_view found.now)) }
{
    match found.as_u64() {
        Some(n) => Ok(Text::new(format!(in alloc; "{n}")?)),
        None => as_text(alloc, found, path, key),
    }
}
