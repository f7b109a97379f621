//! A whole request: its table and its reading.

ghost use Rattle.std.specs.Prelude.{◌≡◌};
ghost use Rattle.peg_json.specs.code.Table.{rows_of};
ghost use Rattle.plan_request.specs.Request.{request_rows};

use crate::known::only_known;
use crate::modes::{cleanup, cluster};
use crate::request::{Execution, PlanRequest};
use crate::run_policy::policy;
use crate::selection::{rate, runtimes_or_none, selector};
use crate::size_entries::sizes_or_none;
use crate::tool_entries::tools_or_none;
use peg_json::{FromTree, KeyRow, KeyTable, Kind, TreeFault, checked, row};
use serde_json::Value;
use std::alloc::Global;
use values::{Items, Text};

const REQUEST: [KeyRow; 17] = [
    KeyRow {
        key: "workflow",
        kind: Kind::Name,
        required: true,
    },
    KeyRow {
        key: "sites",
        kind: Kind::Name,
        required: false,
    },
    KeyRow {
        key: "replicas",
        kind: Kind::Name,
        required: false,
    },
    KeyRow {
        key: "transformations",
        kind: Kind::Name,
        required: false,
    },
    KeyRow {
        key: "execute",
        kind: Kind::List,
        required: true,
    },
    KeyRow {
        key: "sizes",
        kind: Kind::Object,
        required: false,
    },
    KeyRow {
        key: "default_size",
        kind: Kind::Number,
        required: false,
    },
    KeyRow {
        key: "cluster",
        kind: Kind::Text,
        required: false,
    },
    KeyRow {
        key: "cleanup",
        kind: Kind::Text,
        required: false,
    },
    KeyRow {
        key: "force",
        kind: Kind::Flag,
        required: false,
    },
    KeyRow {
        key: "tools",
        kind: Kind::Object,
        required: false,
    },
    KeyRow {
        key: "retries",
        kind: Kind::Number,
        required: false,
    },
    KeyRow {
        key: "fresh",
        kind: Kind::Flag,
        required: false,
    },
    KeyRow {
        key: "output_bound",
        kind: Kind::Number,
        required: false,
    },
    KeyRow {
        key: "selector",
        kind: Kind::Text,
        required: false,
    },
    KeyRow {
        key: "rate",
        kind: Kind::Number,
        required: false,
    },
    KeyRow {
        key: "runtimes",
        kind: Kind::List,
        required: false,
    },
];

fn request_table() -> KeyTable<17>
    ensures { rows_of result.rows.now ≡ request_rows }
{
    KeyTable { rows: &REQUEST }
}

impl FromTree for PlanRequest {
    ghost use Rattle.plan_request.specs.declared.request.PlanRequest as declared;
    ghost use Rattle.plan_request.specs.Request.{request_of};

    ghost Seen = { declared.PlanRequest };

    ghost seen = { λ r. r };

    ghost reads = { request_of };

    #[tactic(auto, unfolding(crate::specs::Request::request_of))]
    fn from_tree(alloc: Global, value: &Value, path: &Text) -> Result<PlanRequest, TreeFault> {
        checked(alloc, value, path, &request_table())?;
        only_known(alloc, value, path, &request_table())?;
        let workflow = row!(alloc, value, path, "workflow", Name);
        let sites = row!(alloc, value, path, "sites", optional Name);
        let replicas = row!(alloc, value, path, "replicas", optional Name);
        let transformations = row!(alloc, value, path, "transformations", optional Name);
        let execute = row!(alloc, value, path, "execute", List Execution);
        let sizes = sizes_or_none(alloc, value, path, "sizes")?;
        let default_size = row!(alloc, value, path, "default_size", optional Number up to 1 << 40);
        let cluster = cluster(alloc, value, path, "cluster")?;
        let cleanup = cleanup(alloc, value, path, "cleanup")?;
        let force = row!(alloc, value, path, "force", optional Flag);
        let tools = tools_or_none(alloc, value, path, "tools")?;
        let policy = policy(alloc, value, path)?;
        let selector = selector(alloc, value, path, "selector")?;
        let rate = rate(alloc, value, path, "rate")?;
        let runtimes = runtimes_or_none(alloc, value, path, "runtimes")?;
        Ok(PlanRequest {
            workflow,
            sites,
            replicas,
            transformations,
            execute: Items::new(execute),
            sizes,
            default_size,
            cluster,
            cleanup,
            force: force.unwrap_or(false),
            tools,
            policy,
            selector,
            rate,
            runtimes,
        })
    }
}
