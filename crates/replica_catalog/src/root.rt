//! A whole document: its table, its reading, and the keys that are in no table.

ghost use Rattle.std.specs.Prelude.{◌≡◌};
ghost use Rattle.peg_json.specs.code.Table.{rows_of};
ghost use Rattle.replica_catalog.specs.Catalog.{replica_document_rows};

use crate::catalog::Replica;
use peg_json::{
    FromTree, KeyRow, KeyTable, Kind, Listed, TreeFault, checked, gather, gather_list,
    optional_version, row,
};
use serde_json::Value;
use std::alloc::Global;
use values::{Memory, Text};

/// The entries that a document lists.
#[derive(Drop)]
pub struct Document {
    pub replicas: Vec<Replica>,
}

const ROOT: [KeyRow; 2] = [
    KeyRow {
        key: "pegasus",
        kind: Kind::Text,
        required: false,
    },
    KeyRow {
        key: "replicas",
        kind: Kind::List,
        required: true,
    },
];

fn root_table() -> KeyTable<2>
    ensures { rows_of result.rows.now ≡ replica_document_rows }
{
    KeyTable { rows: &ROOT }
}

impl FromTree for Document {
    ghost use Rattle.std.specs.Prelude.{List};
    ghost use Rattle.replica_catalog.specs.declared.catalog.Replica as declared;
    ghost use Rattle.replica_catalog.specs.Catalog.{replica_document_of};

    ghost Seen = { List declared.Replica };

    ghost seen = { λ d. d.replicas.items };

    ghost reads = { replica_document_of };

    #[tactic(auto, unfolding(crate::specs::Catalog::replica_document_of))]
    fn from_tree(alloc: Global, value: &Value, path: &Text) -> Result<Document, TreeFault> {
        checked(alloc, value, path, &root_table())?;
        optional_version(alloc, value, path, "pegasus")?;
        let replicas = row!(alloc, value, path, "replicas", List Replica);
        Ok(Document { replicas })
    }
}

impl Listed for Document {
    ghost use Rattle.replica_catalog.specs.code.Unknown.{unknown_of};

    ghost unknown = { unknown_of };

    #[tactic(auto, unfolding(crate::specs::code::Unknown::unknown_of))]
    fn gather(
        alloc: Global,
        value: &Value,
        path: &Text,
        into: &mut Vec<Text>,
    ) -> Result<(), Memory> {
        gather(alloc, value, path, &root_table(), into)?;
        gather_list::<Replica>(alloc, value, path, "replicas", into)
    }
}
