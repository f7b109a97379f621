//! A job: its table, its reading, and the keys that are in no table.

ghost use Rattle.std.specs.Prelude.{◌≡◌};
ghost use Rattle.peg_json.specs.code.Table.{rows_of};
ghost use Rattle.workflow_reader.specs.Workflow.{job_rows};

use crate::argument::arguments;
use crate::constant_text::checked_constant;
use crate::document::{JobEntry, Use};
use peg_json::{
    FromTree, KeyRow, KeyTable, Kind, Listed, Profiles, TreeFault, checked, gather, gather_list,
    gather_object, list_or_none, profiles_or_none, row,
};
use serde_json::Value;
use std::alloc::Global;
use values::{Memory, Text};
use workflow_core::Transformation;

const JOB: [KeyRow; 8] = [
    KeyRow {
        key: "type",
        kind: Kind::Text,
        required: true,
    },
    KeyRow {
        key: "id",
        kind: Kind::Name,
        required: true,
    },
    KeyRow {
        key: "name",
        kind: Kind::Name,
        required: true,
    },
    KeyRow {
        key: "namespace",
        kind: Kind::Text,
        required: false,
    },
    KeyRow {
        key: "version",
        kind: Kind::Text,
        required: false,
    },
    KeyRow {
        key: "arguments",
        kind: Kind::List,
        required: false,
    },
    KeyRow {
        key: "uses",
        kind: Kind::List,
        required: false,
    },
    KeyRow {
        key: "profiles",
        kind: Kind::Object,
        required: false,
    },
];

fn job_table() -> KeyTable<8>
    ensures { rows_of result.rows.now ≡ job_rows }
{
    KeyTable { rows: &JOB }
}

impl FromTree for JobEntry {
    ghost use Rattle.workflow_reader.specs.declared.document.JobEntry as declared;
    ghost use Rattle.workflow_reader.specs.Workflow.{job_of};

    ghost Seen = { declared.JobEntry };

    ghost seen = { λ j. j };

    ghost reads = { job_of };

    #[tactic(auto, unfolding(crate::specs::Workflow::job_of))]
    fn from_tree(alloc: Global, value: &Value, path: &Text) -> Result<JobEntry, TreeFault> {
        checked(alloc, value, path, &job_table())?;
        checked_constant(alloc, value, path, "type", "job")?;
        let id = row!(alloc, value, path, "id", Name);
        let name = row!(alloc, value, path, "name", Name);
        let namespace = row!(alloc, value, path, "namespace", optional Text);
        let version = row!(alloc, value, path, "version", optional Text);
        let arguments = arguments(alloc, value, path, "arguments")?;
        let uses = list_or_none::<Use>(alloc, value, path, "uses")?;
        let profiles = profiles_or_none(alloc, value, path, "profiles")?;
        Ok(JobEntry {
            id,
            transformation: Transformation {
                namespace,
                name,
                version,
            },
            arguments,
            uses,
            label: profiles.pegasus.label,
            cluster_size: profiles.pegasus.cluster_size,
            cluster_num: profiles.pegasus.cluster_num,
            pinned: profiles.selector.site,
        })
    }
}

impl Listed for JobEntry {
    ghost use Rattle.workflow_reader.specs.code.Unknown.{unknown_job};

    ghost unknown = { unknown_job };

    #[tactic(auto, unfolding(crate::specs::code::Unknown::unknown_job))]
    fn gather(
        alloc: Global,
        value: &Value,
        path: &Text,
        into: &mut Vec<Text>,
    ) -> Result<(), Memory> {
        gather(alloc, value, path, &job_table(), into)?;
        gather_list::<Use>(alloc, value, path, "uses", into)?;
        gather_object::<Profiles>(alloc, value, path, "profiles", into)
    }
}
