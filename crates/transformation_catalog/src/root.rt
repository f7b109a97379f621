//! A whole document: its table, its reading, and the keys that are in no table.

ghost use Rattle.std.specs.Prelude.{◌≡◌};
ghost use Rattle.peg_json.specs.code.Table.{rows_of};
ghost use Rattle.transformation_catalog.specs.Catalog.{transformation_document_rows};

use crate::catalog::TransformationEntry;
use peg_json::{
    FromTree, KeyRow, KeyTable, Kind, Listed, TreeFault, checked, gather, gather_list,
    optional_version, refuse_elements, row,
};
use serde_json::Value;
use std::alloc::Global;
use values::{Memory, Text};

const ROOT: [KeyRow; 3] = [
    KeyRow {
        key: "pegasus",
        kind: Kind::Text,
        required: false,
    },
    KeyRow {
        key: "transformations",
        kind: Kind::List,
        required: true,
    },
    KeyRow {
        key: "containers",
        kind: Kind::List,
        required: false,
    },
];

fn root_table() -> KeyTable<3>
    ensures { rows_of result.rows.now ≡ transformation_document_rows }
{
    KeyTable { rows: &ROOT }
}

/// What stands in a catalogue's document.
#[derive(Drop)]
pub struct Document {
    pub entries: Vec<TransformationEntry>,
}

impl FromTree for Document {
    ghost use Rattle.std.specs.Prelude.{List};
    ghost use Rattle.transformation_catalog.specs.declared.catalog.TransformationEntry as declared;
    ghost use Rattle.transformation_catalog.specs.Catalog.{transformation_document_of};

    ghost Seen = { List declared.TransformationEntry };

    ghost seen = { λ d. d.entries.items };

    ghost reads = { transformation_document_of };

    #[tactic(auto, unfolding(crate::specs::Catalog::transformation_document_of))]
    fn from_tree(alloc: Global, value: &Value, path: &Text) -> Result<Document, TreeFault> {
        checked(alloc, value, path, &root_table())?;
        optional_version(alloc, value, path, "pegasus")?;
        let entries = row!(alloc, value, path, "transformations", List TransformationEntry);
        refuse_elements(alloc, value, path, "containers")?;
        Ok(Document { entries })
    }
}

impl Listed for Document {
    ghost use Rattle.transformation_catalog.specs.code.Unknown.{unknown_of};

    ghost unknown = { unknown_of };

    #[tactic(auto, unfolding(crate::specs::code::Unknown::unknown_of))]
    fn gather(
        alloc: Global,
        value: &Value,
        path: &Text,
        into: &mut Vec<Text>,
    ) -> Result<(), Memory> {
        gather(alloc, value, path, &root_table(), into)?;
        gather_list::<TransformationEntry>(alloc, value, path, "transformations", into)
    }
}
