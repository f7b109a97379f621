//! A dependency: its table, its reading, and the keys that are in no table.

ghost use Rattle.std.specs.Prelude.{◌≡◌, IfOk, map};
ghost use Rattle.peg_json.specs.code.Table.{rows_of};
ghost use Rattle.workflow_reader.specs.Workflow.{dependency_rows};

use crate::document::Dependency;
use peg_json::{FromTree, KeyRow, KeyTable, Kind, Listed, Name, TreeFault, checked, gather, row};
use serde_json::Value;
use std::alloc::Global;
use values::{Items, Memory, Text};

const DEPENDENCY: [KeyRow; 2] = [
    KeyRow {
        key: "id",
        kind: Kind::Name,
        required: true,
    },
    KeyRow {
        key: "children",
        kind: Kind::List,
        required: true,
    },
];

fn dependency_table() -> KeyTable<2>
    ensures { rows_of result.rows.now ≡ dependency_rows }
{
    KeyTable { rows: &DEPENDENCY }
}

/// The texts of names.
fn texts_of(alloc: Global, names: Vec<Name>) -> Result<Items<Text>, Memory>
    ensures { IfOk result (λ texts. texts ≡ map (λ (n : Name). n.0) names.items) }
{
    let texts: Vec<Text> = names.into_iter().map(|name| name.0).collect(alloc)?;
    Ok(Items::new(texts))
}

impl FromTree for Dependency {
    ghost use Rattle.workflow_reader.specs.declared.document.Dependency as declared;
    ghost use Rattle.workflow_reader.specs.Workflow.{dependency_of};

    ghost Seen = { declared.Dependency };

    ghost seen = { λ d. d };

    ghost reads = { dependency_of };

    #[tactic(auto, unfolding(crate::specs::Workflow::dependency_of))]
    fn from_tree(alloc: Global, value: &Value, path: &Text) -> Result<Dependency, TreeFault> {
        checked(alloc, value, path, &dependency_table())?;
        let id = row!(alloc, value, path, "id", Name);
        let children = row!(alloc, value, path, "children", List Name);
        Ok(Dependency {
            id,
            children: texts_of(alloc, children)?,
        })
    }
}

impl Listed for Dependency {
    ghost use Rattle.workflow_reader.specs.code.Unknown.{unknown_dependency};

    ghost unknown = { unknown_dependency };

    #[tactic(auto, unfolding(crate::specs::code::Unknown::unknown_dependency))]
    fn gather(
        alloc: Global,
        value: &Value,
        path: &Text,
        into: &mut Vec<Text>,
    ) -> Result<(), Memory> {
        gather(alloc, value, path, &dependency_table(), into)
    }
}
