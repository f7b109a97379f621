//! A whole document: its table, its reading, and the keys that are in no table.

ghost use Rattle.std.specs.Prelude.{◌≡◌};
ghost use Rattle.peg_json.specs.code.Table.{rows_of};
ghost use Rattle.workflow_reader.specs.Workflow.{workflow_document_rows};

use crate::document::{Dependency, Document, JobEntry};
use peg_json::{
    FromTree, KeyRow, KeyTable, Kind, Listed, TreeFault, checked, gather, gather_list,
    list_or_none, row, version,
};
use serde_json::Value;
use std::alloc::Global;
use values::{Items, Memory, Text};
use workflow_core::Inlined;

const ROOT: [KeyRow; 7] = [
    KeyRow {
        key: "pegasus",
        kind: Kind::Text,
        required: true,
    },
    KeyRow {
        key: "name",
        kind: Kind::Text,
        required: true,
    },
    KeyRow {
        key: "jobs",
        kind: Kind::List,
        required: true,
    },
    KeyRow {
        key: "jobDependencies",
        kind: Kind::List,
        required: false,
    },
    KeyRow {
        key: "siteCatalog",
        kind: Kind::Object,
        required: false,
    },
    KeyRow {
        key: "replicaCatalog",
        kind: Kind::Object,
        required: false,
    },
    KeyRow {
        key: "transformationCatalog",
        kind: Kind::Object,
        required: false,
    },
];

fn root_table() -> KeyTable<7>
    ensures { rows_of result.rows.now ≡ workflow_document_rows }
{
    KeyTable { rows: &ROOT }
}

impl FromTree for Document {
    ghost use Rattle.workflow_reader.specs.Workflow.{DocumentEntry};
    ghost use Rattle.workflow_reader.specs.code.Document.{entry};
    ghost use Rattle.workflow_reader.specs.Workflow.{workflow_document_of};

    ghost Seen = { DocumentEntry };

    ghost seen = { entry };

    ghost reads = { workflow_document_of };

    #[tactic(auto, unfolding(crate::specs::Workflow::workflow_document_of))]
    fn from_tree(alloc: Global, value: &Value, path: &Text) -> Result<Document, TreeFault> {
        checked(alloc, value, path, &root_table())?;
        version(alloc, value, path, "pegasus")?;
        let name = row!(alloc, value, path, "name", Text);
        let jobs = row!(alloc, value, path, "jobs", List JobEntry);
        let dependencies = list_or_none::<Dependency>(alloc, value, path, "jobDependencies")?;
        let sites = row!(alloc, value, path, "siteCatalog", optional Object Value);
        let replicas = row!(alloc, value, path, "replicaCatalog", optional Object Value);
        let transformations =
            row!(alloc, value, path, "transformationCatalog", optional Object Value);
        Ok(Document {
            name,
            jobs: Items::new(jobs),
            dependencies,
            inlined: Inlined {
                sites,
                replicas,
                transformations,
            },
        })
    }
}

impl Listed for Document {
    ghost use Rattle.workflow_reader.specs.code.Unknown.{unknown_of};

    ghost unknown = { unknown_of };

    #[tactic(auto, unfolding(crate::specs::code::Unknown::unknown_of))]
    fn gather(
        alloc: Global,
        value: &Value,
        path: &Text,
        into: &mut Vec<Text>,
    ) -> Result<(), Memory> {
        gather(alloc, value, path, &root_table(), into)?;
        gather_list::<JobEntry>(alloc, value, path, "jobs", into)?;
        gather_list::<Dependency>(alloc, value, path, "jobDependencies", into)
    }
}
