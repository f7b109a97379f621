//! The version that a document names.

ghost use Rattle.std.specs.Prelude.{◌≡◌};
ghost use Rattle.serde_json.specs.View.{view as tree_view};
ghost use Rattle.peg_json.specs.code.Tree.{Gives};
ghost use Rattle.peg_json.specs.Versions.{are_digits as digits, is_version, version_at, optional_version_at};

use crate::fault::TreeFault;
use crate::typed;
use serde_json::Value;
use std::alloc::Global;
use values::Text;

fn are_digits(bytes: &[u8]) -> bool
    ensures { result ≡ digits bytes.now }
{
    for byte in bytes {
        if !byte.is_ascii_digit() {
            return false;
        }
    }
    !bytes.is_empty()
}

fn is_supported(bytes: &[u8]) -> bool
    ensures { result ≡ is_version bytes.now }
{
    if bytes == b"5.0".as_slice() {
        return true;
    }
    match bytes.strip_prefix(b"5.0.") {
        Some(rest) => are_digits(rest),
        None => false,
    }
}

/// Checks the version at a key: `5.0`, or `5.0.` and one or more digits.
pub fn version(alloc: Global, value: &Value, path: &Text, key: &str) -> Result<(), TreeFault>
    ensures { Gives (λ u. u) result (version_at path.now (tree_view value.now) key.now) }
{
    let named = typed::lent_text(alloc, value, path, key)?;
    if is_supported(named.as_bytes()) {
        Ok(())
    } else {
        Err(TreeFault::BadVersion(Text::copy_of(alloc, named)?))
    }
}

/// Checks the version at a key that may be absent.
pub fn optional_version(
    alloc: Global,
    value: &Value,
    path: &Text,
    key: &str,
) -> Result<(), TreeFault>
    ensures { Gives (λ u. u) result (optional_version_at path.now (tree_view value.now) key.now) }
{
    match typed::optional_text(alloc, value, path, key)? {
        Some(named) => {
            if is_supported(named.as_bytes()) {
                Ok(())
            } else {
                Err(TreeFault::BadVersion(named))
            }
        }
        None => Ok(()),
    }
}
