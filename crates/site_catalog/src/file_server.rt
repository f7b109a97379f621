//! A file server: its table, its reading, and the keys that are in no table.

ghost use Rattle.std.specs.Prelude.{◌≡◌};
ghost use Rattle.peg_json.specs.code.Table.{rows_of};
ghost use Rattle.site_catalog.specs.Catalog.{server_rows};

use crate::catalog::FileServer;
use peg_json::{FromTree, KeyRow, KeyTable, Kind, Listed, TreeFault, checked, gather, row};
use serde_json::Value;
use std::alloc::Global;
use values::{Memory, Text};

const SERVER: [KeyRow; 2] = [
    KeyRow {
        key: "operation",
        kind: Kind::Text,
        required: true,
    },
    KeyRow {
        key: "url",
        kind: Kind::Text,
        required: true,
    },
];

fn server_table() -> KeyTable<2>
    ensures { rows_of result.rows.now ≡ server_rows }
{
    KeyTable { rows: &SERVER }
}

impl FromTree for FileServer {
    ghost use Rattle.site_catalog.specs.declared.catalog.FileServer as declared;
    ghost use Rattle.site_catalog.specs.Catalog.{server_of};

    ghost Seen = { declared.FileServer };

    ghost seen = { λ s. s };

    ghost reads = { server_of };

    #[tactic(auto, unfolding(crate::specs::Catalog::server_of))]
    fn from_tree(alloc: Global, value: &Value, path: &Text) -> Result<FileServer, TreeFault> {
        checked(alloc, value, path, &server_table())?;
        let operation = row!(alloc, value, path, "operation", Text);
        let url = row!(alloc, value, path, "url", Text);
        Ok(FileServer { operation, url })
    }
}

impl Listed for FileServer {
    ghost use Rattle.site_catalog.specs.code.Unknown.{unknown_server};

    ghost unknown = { unknown_server };

    #[tactic(auto, unfolding(crate::specs::code::Unknown::unknown_server))]
    fn gather(
        alloc: Global,
        value: &Value,
        path: &Text,
        into: &mut Vec<Text>,
    ) -> Result<(), Memory> {
        gather(alloc, value, path, &server_table(), into)
    }
}
