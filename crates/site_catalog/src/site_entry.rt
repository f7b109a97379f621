//! A site: its table, its reading, and the keys that are in no table.

ghost use Rattle.std.specs.Prelude.{◌≡◌};
ghost use Rattle.peg_json.specs.code.Table.{rows_of};
ghost use Rattle.site_catalog.specs.Catalog.{site_entry_rows};

use crate::catalog::{Directory, SiteEntry};
use peg_json::{
    FromTree, KeyRow, KeyTable, Kind, Listed, SiteNamed, TreeFault, checked, gather, gather_list,
    list_or_none, row,
};
use serde_json::Value;
use std::alloc::Global;
use values::{Memory, Text};

const SITE: [KeyRow; 2] = [
    KeyRow {
        key: "name",
        kind: Kind::Name,
        required: true,
    },
    KeyRow {
        key: "directories",
        kind: Kind::List,
        required: false,
    },
];

fn site_table() -> KeyTable<2>
    ensures { rows_of result.rows.now ≡ site_entry_rows }
{
    KeyTable { rows: &SITE }
}

impl SiteNamed for SiteEntry {
    ghost name = { λ s. s.name };

    fn site_name(&self) -> &Text {
        &self.name
    }
}

impl FromTree for SiteEntry {
    ghost use Rattle.site_catalog.specs.declared.catalog.SiteEntry as declared;
    ghost use Rattle.site_catalog.specs.Catalog.{site_entry_of};

    ghost Seen = { declared.SiteEntry };

    ghost seen = { λ s. s };

    ghost reads = { site_entry_of };

    #[tactic(auto, unfolding(crate::specs::Catalog::site_entry_of))]
    fn from_tree(alloc: Global, value: &Value, path: &Text) -> Result<SiteEntry, TreeFault> {
        checked(alloc, value, path, &site_table())?;
        let name = row!(alloc, value, path, "name", Name);
        let directories = list_or_none::<Directory>(alloc, value, path, "directories")?;
        Ok(SiteEntry { name, directories })
    }
}

impl Listed for SiteEntry {
    ghost use Rattle.site_catalog.specs.code.Unknown.{unknown_site};

    ghost unknown = { unknown_site };

    #[tactic(auto, unfolding(crate::specs::code::Unknown::unknown_site))]
    fn gather(
        alloc: Global,
        value: &Value,
        path: &Text,
        into: &mut Vec<Text>,
    ) -> Result<(), Memory> {
        gather(alloc, value, path, &site_table(), into)?;
        gather_list::<Directory>(alloc, value, path, "directories", into)
    }
}
