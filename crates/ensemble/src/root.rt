//! A whole ensemble: its table and its reading.

ghost use Rattle.std.specs.Prelude.{◌≡◌};
ghost use Rattle.peg_json.specs.code.Table.{rows_of};
ghost use Rattle.ensemble.specs.Root.{ensemble_rows};

use crate::document::{Ensemble, MemberEntry};
use peg_json::{FromTree, KeyRow, KeyTable, Kind, TreeFault, checked, row};
use plan_request::{Execution, cleanup, cluster, only_known, policy};
use serde_json::Value;
use std::alloc::Global;
use values::{Items, Text};

const ENSEMBLE: [KeyRow; 8] = [
    KeyRow {
        key: "members",
        kind: Kind::List,
        required: true,
    },
    KeyRow {
        key: "execute",
        kind: Kind::List,
        required: true,
    },
    KeyRow {
        key: "cluster",
        kind: Kind::Text,
        required: false,
    },
    KeyRow {
        key: "cleanup",
        kind: Kind::Text,
        required: false,
    },
    KeyRow {
        key: "force",
        kind: Kind::Flag,
        required: false,
    },
    KeyRow {
        key: "retries",
        kind: Kind::Number,
        required: false,
    },
    KeyRow {
        key: "fresh",
        kind: Kind::Flag,
        required: false,
    },
    KeyRow {
        key: "output_bound",
        kind: Kind::Number,
        required: false,
    },
];

fn ensemble_table() -> KeyTable<8>
    ensures { rows_of result.rows.now ≡ ensemble_rows }
{
    KeyTable { rows: &ENSEMBLE }
}

impl FromTree for Ensemble {
    ghost use Rattle.ensemble.specs.declared.document.Ensemble as declared;
    ghost use Rattle.ensemble.specs.Root.{ensemble_of};

    ghost Seen = { declared.Ensemble };

    ghost seen = { λ e. e };

    ghost reads = { ensemble_of };

    #[tactic(auto, unfolding(crate::specs::Root::ensemble_of))]
    fn from_tree(alloc: Global, value: &Value, path: &Text) -> Result<Ensemble, TreeFault> {
        checked(alloc, value, path, &ensemble_table())?;
        only_known(alloc, value, path, &ensemble_table())?;
        let members = row!(alloc, value, path, "members", List MemberEntry);
        let execute = row!(alloc, value, path, "execute", List Execution);
        let cluster = cluster(alloc, value, path, "cluster")?;
        let cleanup = cleanup(alloc, value, path, "cleanup")?;
        let force = row!(alloc, value, path, "force", optional Flag);
        let policy = policy(alloc, value, path)?;
        Ok(Ensemble {
            members: Items::new(members),
            execute: Items::new(execute),
            cluster,
            cleanup,
            force: force.unwrap_or(false),
            policy,
        })
    }
}
