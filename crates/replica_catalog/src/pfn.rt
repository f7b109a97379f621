//! A pfn with its site: its table, its reading, and the keys that are in no table.

ghost use Rattle.std.specs.Prelude.{◌≡◌};
ghost use Rattle.peg_json.specs.code.Table.{rows_of};
ghost use Rattle.replica_catalog.specs.Catalog.{pfn_rows};

use crate::catalog::Pfn;
use peg_json::{FromTree, KeyRow, KeyTable, Kind, Listed, TreeFault, checked, gather, row};
use serde_json::Value;
use std::alloc::Global;
use values::{Memory, Text};

const PFN: [KeyRow; 2] = [
    KeyRow {
        key: "site",
        kind: Kind::Name,
        required: true,
    },
    KeyRow {
        key: "pfn",
        kind: Kind::Name,
        required: true,
    },
];

fn pfn_table() -> KeyTable<2>
    ensures { rows_of result.rows.now ≡ pfn_rows }
{
    KeyTable { rows: &PFN }
}

impl FromTree for Pfn {
    ghost use Rattle.replica_catalog.specs.declared.catalog.Pfn as declared;
    ghost use Rattle.replica_catalog.specs.Catalog.{pfn_of};

    ghost Seen = { declared.Pfn };

    ghost seen = { λ p. p };

    ghost reads = { pfn_of };

    #[tactic(auto, unfolding(crate::specs::Catalog::pfn_of))]
    fn from_tree(alloc: Global, value: &Value, path: &Text) -> Result<Pfn, TreeFault> {
        checked(alloc, value, path, &pfn_table())?;
        let site = row!(alloc, value, path, "site", Name);
        let pfn = row!(alloc, value, path, "pfn", Name);
        Ok(Pfn { site, pfn })
    }
}

impl Listed for Pfn {
    ghost use Rattle.replica_catalog.specs.code.Unknown.{unknown_pfn};

    ghost unknown = { unknown_pfn };

    #[tactic(auto, unfolding(crate::specs::code::Unknown::unknown_pfn))]
    fn gather(
        alloc: Global,
        value: &Value,
        path: &Text,
        into: &mut Vec<Text>,
    ) -> Result<(), Memory> {
        gather(alloc, value, path, &pfn_table(), into)
    }
}
