//! How long jobs run: the table of an entry and its reading.

ghost use Rattle.std.specs.Prelude.{◌≡◌};
ghost use Rattle.peg_json.specs.code.Table.{rows_of};
ghost use Rattle.plan_request.specs.Request.{runtime_rows};

use crate::known::only_known;
use crate::request::Runtime;
use crate::selection::positive;
use peg_json::{FromTree, KeyRow, KeyTable, Kind, TreeFault, at_key, checked, row};
use serde_json::Value;
use std::alloc::Global;
use values::Text;

const RUNTIME: [KeyRow; 3] = [
    KeyRow {
        key: "transformation",
        kind: Kind::Name,
        required: true,
    },
    KeyRow {
        key: "site",
        kind: Kind::Name,
        required: true,
    },
    KeyRow {
        key: "seconds",
        kind: Kind::Number,
        required: true,
    },
];

fn runtime_table() -> KeyTable<3>
    ensures { rows_of result.rows.now ≡ runtime_rows }
{
    KeyTable { rows: &RUNTIME }
}

impl FromTree for Runtime {
    ghost use Rattle.plan_request.specs.declared.request.Runtime as declared;
    ghost use Rattle.plan_request.specs.Request.{runtime_of};

    ghost Seen = { declared.Runtime };

    ghost seen = { λ r. r };

    ghost reads = { runtime_of };

    #[tactic(auto, unfolding(crate::specs::Request::runtime_of))]
    fn from_tree(alloc: Global, value: &Value, path: &Text) -> Result<Runtime, TreeFault> {
        checked(alloc, value, path, &runtime_table())?;
        only_known(alloc, value, path, &runtime_table())?;
        let transformation = row!(alloc, value, path, "transformation", Name);
        let site = row!(alloc, value, path, "site", Name);
        let number = row!(alloc, value, path, "seconds", Number up to 1 << 32);
        let seconds = positive(alloc, &at_key(alloc, path, "seconds")?, number)?;
        Ok(Runtime {
            transformation,
            site,
            seconds,
        })
    }
}
