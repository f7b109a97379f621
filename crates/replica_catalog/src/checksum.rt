//! A checksum: its table, its reading, and the keys that are in no table.

ghost use Rattle.std.specs.Prelude.{◌≡◌};
ghost use Rattle.peg_json.specs.Path.{key_path};
ghost use Rattle.peg_json.specs.code.Table.{rows_of};
ghost use Rattle.peg_json.specs.code.Tree.{Gives};
ghost use Rattle.replica_catalog.specs.Catalog.{checksum_rows, digest_of, digest_if_there};

use hex::FromHex;
use peg_json::{FromTree, KeyRow, KeyTable, Kind, Listed, TreeFault, at_key, checked, gather, row};
use serde_json::Value;
use std::alloc::Global;
use values::{Memory, Text};

/// The SHA-256 that a checksum states, if it states one.
#[derive(Drop)]
pub struct Checksum {
    pub sha256: Option<[u8; 32]>,
}

const CHECKSUM: [KeyRow; 1] = [KeyRow {
    key: "sha256",
    kind: Kind::Text,
    required: false,
}];

fn checksum_table() -> KeyTable<1>
    ensures { rows_of result.rows.now ≡ checksum_rows }
{
    KeyTable { rows: &CHECKSUM }
}

/// The bytes of 64 hexadecimal digits.
fn digest(alloc: Global, path: &Text, key: &str, digits: &Text) -> Result<[u8; 32], TreeFault>
    ensures { Gives (λ bytes. bytes) result (digest_of (key_path path.now key.now) digits.now) }
{
    match <[u8; 32] as FromHex>::from_hex(digits.as_str()) {
        Ok(bytes) => Ok(bytes),
        Err(_) => Err(TreeFault::WrongKind(at_key(alloc, path, key)?)),
    }
}

fn optional_digest(
    alloc: Global,
    path: &Text,
    key: &str,
    digits: Option<Text>,
) -> Result<Option<[u8; 32]>, TreeFault>
    ensures { Gives (λ found. found) result (digest_if_there (key_path path.now key.now) digits) }
{
    match digits {
        Some(digits) => Ok(Some(digest(alloc, path, key, &digits)?)),
        None => Ok(None),
    }
}

impl FromTree for Checksum {
    ghost use Rattle.std.specs.Prelude.{Option, List, ℕ};
    ghost use Rattle.replica_catalog.specs.Catalog.{checksum_of};

    ghost Seen = { Option (List ℕ) };

    ghost seen = { λ c. c.sha256 };

    ghost reads = { checksum_of };

    #[tactic(auto, unfolding(crate::specs::Catalog::checksum_of))]
    fn from_tree(alloc: Global, value: &Value, path: &Text) -> Result<Checksum, TreeFault> {
        checked(alloc, value, path, &checksum_table())?;
        let digits = row!(alloc, value, path, "sha256", optional Text);
        let sha256 = optional_digest(alloc, path, "sha256", digits)?;
        Ok(Checksum { sha256 })
    }
}

impl Listed for Checksum {
    ghost use Rattle.replica_catalog.specs.code.Unknown.{unknown_checksum};

    ghost unknown = { unknown_checksum };

    #[tactic(auto, unfolding(crate::specs::code::Unknown::unknown_checksum))]
    fn gather(
        alloc: Global,
        value: &Value,
        path: &Text,
        into: &mut Vec<Text>,
    ) -> Result<(), Memory> {
        gather(alloc, value, path, &checksum_table(), into)
    }
}
