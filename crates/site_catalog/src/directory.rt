//! A directory: its table, its reading, and the keys that are in no table.

ghost use Rattle.std.specs.Prelude.{◌≡◌};
ghost use Rattle.peg_json.specs.code.Table.{rows_of};
ghost use Rattle.site_catalog.specs.Catalog.{directory_rows};

use crate::catalog::{Directory, FileServer};
use peg_json::{
    FromTree, KeyRow, KeyTable, Kind, Listed, TreeFault, checked, gather, gather_list,
    list_or_none, row,
};
use serde_json::Value;
use std::alloc::Global;
use values::{Memory, Text};

const DIRECTORY: [KeyRow; 3] = [
    KeyRow {
        key: "type",
        kind: Kind::Text,
        required: true,
    },
    KeyRow {
        key: "path",
        kind: Kind::Text,
        required: false,
    },
    KeyRow {
        key: "fileServers",
        kind: Kind::List,
        required: false,
    },
];

fn directory_table() -> KeyTable<3>
    ensures { rows_of result.rows.now ≡ directory_rows }
{
    KeyTable { rows: &DIRECTORY }
}

impl FromTree for Directory {
    ghost use Rattle.site_catalog.specs.declared.catalog.Directory as declared;
    ghost use Rattle.site_catalog.specs.Catalog.{directory_of};

    ghost Seen = { declared.Directory };

    ghost seen = { λ d. d };

    ghost reads = { directory_of };

    #[tactic(auto, unfolding(crate::specs::Catalog::directory_of))]
    fn from_tree(alloc: Global, value: &Value, path: &Text) -> Result<Directory, TreeFault> {
        checked(alloc, value, path, &directory_table())?;
        let kind = row!(alloc, value, path, "type", Text);
        let place = row!(alloc, value, path, "path", optional Text);
        let servers = list_or_none::<FileServer>(alloc, value, path, "fileServers")?;
        Ok(Directory {
            kind,
            path: place,
            servers,
        })
    }
}

impl Listed for Directory {
    ghost use Rattle.site_catalog.specs.code.Unknown.{unknown_directory};

    ghost unknown = { unknown_directory };

    #[tactic(auto, unfolding(crate::specs::code::Unknown::unknown_directory))]
    fn gather(
        alloc: Global,
        value: &Value,
        path: &Text,
        into: &mut Vec<Text>,
    ) -> Result<(), Memory> {
        gather(alloc, value, path, &directory_table(), into)?;
        gather_list::<FileServer>(alloc, value, path, "fileServers", into)
    }
}
