//! A whole document: its table, its reading, and the keys that are in no table.

ghost use Rattle.std.specs.Prelude.{◌≡◌};
ghost use Rattle.peg_json.specs.code.Table.{rows_of};
ghost use Rattle.site_catalog.specs.Catalog.{site_document_rows};

use crate::catalog::SiteEntry;
use peg_json::{
    FromTree, KeyRow, KeyTable, Kind, Listed, TreeFault, checked, gather, gather_list,
    optional_version, row,
};
use serde_json::Value;
use std::alloc::Global;
use values::{Items, Memory, Text};

/// The sites that a document lists.
#[derive(Drop)]
pub struct Document {
    pub sites: Items<SiteEntry>,
}

const ROOT: [KeyRow; 2] = [
    KeyRow {
        key: "pegasus",
        kind: Kind::Text,
        required: false,
    },
    KeyRow {
        key: "sites",
        kind: Kind::List,
        required: true,
    },
];

fn root_table() -> KeyTable<2>
    ensures { rows_of result.rows.now ≡ site_document_rows }
{
    KeyTable { rows: &ROOT }
}

impl FromTree for Document {
    ghost use Rattle.std.specs.Prelude.{List};
    ghost use Rattle.site_catalog.specs.declared.catalog.SiteEntry as declared;
    ghost use Rattle.site_catalog.specs.Catalog.{site_document_of};

    ghost Seen = { List declared.SiteEntry };

    ghost seen = { λ d. d.sites };

    ghost reads = { site_document_of };

    #[tactic(auto, unfolding(crate::specs::Catalog::site_document_of))]
    fn from_tree(alloc: Global, value: &Value, path: &Text) -> Result<Document, TreeFault> {
        checked(alloc, value, path, &root_table())?;
        optional_version(alloc, value, path, "pegasus")?;
        let sites = row!(alloc, value, path, "sites", List SiteEntry);
        Ok(Document {
            sites: Items::new(sites),
        })
    }
}

impl Listed for Document {
    ghost use Rattle.site_catalog.specs.code.Unknown.{unknown_of};

    ghost unknown = { unknown_of };

    #[tactic(auto, unfolding(crate::specs::code::Unknown::unknown_of))]
    fn gather(
        alloc: Global,
        value: &Value,
        path: &Text,
        into: &mut Vec<Text>,
    ) -> Result<(), Memory> {
        gather(alloc, value, path, &root_table(), into)?;
        gather_list::<SiteEntry>(alloc, value, path, "sites", into)
    }
}
