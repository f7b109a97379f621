//! An entry of a document: its table, its reading, and the keys that are in no table.

ghost use Rattle.std.specs.Prelude.{◌≡◌};
ghost use Rattle.serde_json.specs.View.{view as tree_view};
ghost use Rattle.peg_json.specs.code.Table.{rows_of};
ghost use Rattle.peg_json.specs.code.Tree.{Gives};
ghost use Rattle.replica_catalog.specs.Catalog.{replica_rows, checksum_or_none};

use crate::catalog::{Pfn, Replica};
use crate::checksum::Checksum;
use peg_json::{
    FromTree, KeyRow, KeyTable, Kind, Listed, TreeFault, checked, gather, gather_list,
    gather_object, refuse_flag, row,
};
use serde_json::Value;
use std::alloc::Global;
use values::{Items, Memory, Text};

const REPLICA: [KeyRow; 4] = [
    KeyRow {
        key: "lfn",
        kind: Kind::Name,
        required: true,
    },
    KeyRow {
        key: "pfns",
        kind: Kind::List,
        required: true,
    },
    KeyRow {
        key: "checksum",
        kind: Kind::Object,
        required: false,
    },
    KeyRow {
        key: "regex",
        kind: Kind::Flag,
        required: false,
    },
];

fn replica_table() -> KeyTable<4>
    ensures { rows_of result.rows.now ≡ replica_rows }
{
    KeyTable { rows: &REPLICA }
}

/// The SHA-256 of the checksum at a key, if there is one.
fn checksum(
    alloc: Global,
    value: &Value,
    path: &Text,
    key: &str,
) -> Result<Option<[u8; 32]>, TreeFault>
    ensures { Gives (λ found. found) result (checksum_or_none path.now (tree_view value.now) key.now) }
{
    match row!(alloc, value, path, key, optional Object Checksum) {
        Some(checksum) => Ok(checksum.sha256),
        None => Ok(None),
    }
}

impl FromTree for Replica {
    ghost use Rattle.replica_catalog.specs.declared.catalog.Replica as declared;
    ghost use Rattle.replica_catalog.specs.Catalog.{replica_of};

    ghost Seen = { declared.Replica };

    ghost seen = { λ r. r };

    ghost reads = { replica_of };

    #[tactic(auto, unfolding(crate::specs::Catalog::replica_of))]
    fn from_tree(alloc: Global, value: &Value, path: &Text) -> Result<Replica, TreeFault> {
        checked(alloc, value, path, &replica_table())?;
        let lfn = row!(alloc, value, path, "lfn", Name);
        let pfns = row!(alloc, value, path, "pfns", List Pfn);
        let checksum = checksum(alloc, value, path, "checksum")?;
        refuse_flag(alloc, value, path, "regex")?;
        Ok(Replica {
            lfn,
            pfns: Items::new(pfns),
            checksum,
        })
    }
}

impl Listed for Replica {
    ghost use Rattle.replica_catalog.specs.code.Unknown.{unknown_replica};

    ghost unknown = { unknown_replica };

    #[tactic(auto, unfolding(crate::specs::code::Unknown::unknown_replica))]
    fn gather(
        alloc: Global,
        value: &Value,
        path: &Text,
        into: &mut Vec<Text>,
    ) -> Result<(), Memory> {
        gather(alloc, value, path, &replica_table(), into)?;
        gather_list::<Pfn>(alloc, value, path, "pfns", into)?;
        gather_object::<Checksum>(alloc, value, path, "checksum", into)
    }
}
