//! A site of a transformation: its table, its reading, and the keys that are in no table.

ghost use Rattle.std.specs.Prelude.{◌≡◌};
ghost use Rattle.serde_json.specs.View.{view as tree_view};
ghost use Rattle.peg_json.specs.code.Tree.{Gives};
ghost use Rattle.peg_json.specs.code.Table.{rows_of};
ghost use Rattle.transformation_catalog.specs.Catalog.{transformation_site_rows, installed_at};

use crate::catalog::TransformationSite;
use peg_json::typed::lent_text;
use peg_json::{
    FromTree, KeyRow, KeyTable, Kind, Listed, TreeFault, at_key, checked, gather, refuse_value, row,
};
use serde_json::Value;
use std::alloc::Global;
use values::{Memory, Text};

const SITE: [KeyRow; 4] = [
    KeyRow {
        key: "name",
        kind: Kind::Name,
        required: true,
    },
    KeyRow {
        key: "pfn",
        kind: Kind::Text,
        required: true,
    },
    KeyRow {
        key: "type",
        kind: Kind::Text,
        required: true,
    },
    KeyRow {
        key: "container",
        kind: Kind::Any,
        required: false,
    },
];

fn site_table() -> KeyTable<4>
    ensures { rows_of result.rows.now ≡ transformation_site_rows }
{
    KeyTable { rows: &SITE }
}

fn installed(alloc: Global, value: &Value, path: &Text, key: &str) -> Result<bool, TreeFault>
    ensures { Gives (λ b. b) result (installed_at path.now (tree_view value.now) key.now) }
{
    match lent_text(alloc, value, path, key)? {
        "installed" => Ok(true),
        "stageable" => Ok(false),
        named => Err(TreeFault::Unsupported(
            at_key(alloc, path, key)?,
            Text::copy_of(alloc, named)?,
        )),
    }
}

impl FromTree for TransformationSite {
    ghost use Rattle.transformation_catalog.specs.declared.catalog.TransformationSite as declared;
    ghost use Rattle.transformation_catalog.specs.Catalog.{transformation_site_of};

    ghost Seen = { declared.TransformationSite };

    ghost seen = { λ s. s };

    ghost reads = { transformation_site_of };

    #[tactic(auto, unfolding(crate::specs::Catalog::transformation_site_of))]
    fn from_tree(
        alloc: Global,
        value: &Value,
        path: &Text,
    ) -> Result<TransformationSite, TreeFault> {
        checked(alloc, value, path, &site_table())?;
        let name = row!(alloc, value, path, "name", Name);
        let installed = installed(alloc, value, path, "type")?;
        refuse_value(alloc, value, path, "container")?;
        Ok(TransformationSite { name, installed })
    }
}

impl Listed for TransformationSite {
    ghost use Rattle.transformation_catalog.specs.code.Unknown.{unknown_site};

    ghost unknown = { unknown_site };

    #[tactic(auto, unfolding(crate::specs::code::Unknown::unknown_site))]
    fn gather(
        alloc: Global,
        value: &Value,
        path: &Text,
        into: &mut Vec<Text>,
    ) -> Result<(), Memory> {
        gather(alloc, value, path, &site_table(), into)
    }
}
