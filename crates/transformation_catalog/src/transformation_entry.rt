//! A transformation: its table, its reading, and the keys that are in no table.

ghost use Rattle.std.specs.Prelude.{◌≡◌};
ghost use Rattle.peg_json.specs.code.Table.{rows_of};
ghost use Rattle.transformation_catalog.specs.Catalog.{transformation_rows};

use crate::catalog::{TransformationEntry, TransformationSite};
use peg_json::{
    FromTree, KeyRow, KeyTable, Kind, Listed, Profiles, TreeFault, checked, gather, gather_list,
    gather_object, list_or_none, profiles_or_none, refuse_elements, row,
};
use serde_json::Value;
use std::alloc::Global;
use values::{Memory, Text};
use workflow_core::Transformation;

const TRANSFORMATION: [KeyRow; 6] = [
    KeyRow {
        key: "name",
        kind: Kind::Name,
        required: true,
    },
    KeyRow {
        key: "namespace",
        kind: Kind::Text,
        required: false,
    },
    KeyRow {
        key: "version",
        kind: Kind::Text,
        required: false,
    },
    KeyRow {
        key: "sites",
        kind: Kind::List,
        required: false,
    },
    KeyRow {
        key: "requires",
        kind: Kind::List,
        required: false,
    },
    KeyRow {
        key: "profiles",
        kind: Kind::Object,
        required: false,
    },
];

fn transformation_table() -> KeyTable<6>
    ensures { rows_of result.rows.now ≡ transformation_rows }
{
    KeyTable {
        rows: &TRANSFORMATION,
    }
}

impl FromTree for TransformationEntry {
    ghost use Rattle.transformation_catalog.specs.declared.catalog.TransformationEntry as declared;
    ghost use Rattle.transformation_catalog.specs.Catalog.{transformation_of};

    ghost Seen = { declared.TransformationEntry };

    ghost seen = { λ t. t };

    ghost reads = { transformation_of };

    #[tactic(auto, unfolding(crate::specs::Catalog::transformation_of))]
    fn from_tree(
        alloc: Global,
        value: &Value,
        path: &Text,
    ) -> Result<TransformationEntry, TreeFault> {
        checked(alloc, value, path, &transformation_table())?;
        let name = row!(alloc, value, path, "name", Name);
        let namespace = row!(alloc, value, path, "namespace", optional Text);
        let version = row!(alloc, value, path, "version", optional Text);
        let sites = list_or_none::<TransformationSite>(alloc, value, path, "sites")?;
        refuse_elements(alloc, value, path, "requires")?;
        let profiles = profiles_or_none(alloc, value, path, "profiles")?;
        Ok(TransformationEntry {
            transformation: Transformation {
                namespace,
                name,
                version,
            },
            sites,
            cluster_size: profiles.pegasus.cluster_size,
            cluster_num: profiles.pegasus.cluster_num,
        })
    }
}

impl Listed for TransformationEntry {
    ghost use Rattle.transformation_catalog.specs.code.Unknown.{unknown_transformation};

    ghost unknown = { unknown_transformation };

    #[tactic(auto, unfolding(crate::specs::code::Unknown::unknown_transformation))]
    fn gather(
        alloc: Global,
        value: &Value,
        path: &Text,
        into: &mut Vec<Text>,
    ) -> Result<(), Memory> {
        gather(alloc, value, path, &transformation_table(), into)?;
        gather_list::<TransformationSite>(alloc, value, path, "sites", into)?;
        gather_object::<Profiles>(alloc, value, path, "profiles", into)
    }
}
