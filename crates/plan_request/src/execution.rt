//! A site that runs jobs: its table and its reading.

ghost use Rattle.std.specs.Prelude.{◌≡◌};
ghost use Rattle.peg_json.specs.code.Table.{rows_of};
ghost use Rattle.plan_request.specs.Request.{execution_rows};

use crate::known::only_known;
use crate::request::Execution;
use peg_json::{FromTree, KeyRow, KeyTable, Kind, SiteNamed, TreeFault, checked, row};
use serde_json::Value;
use std::alloc::Global;
use values::Text;

const EXECUTION: [KeyRow; 2] = [
    KeyRow {
        key: "site",
        kind: Kind::Name,
        required: true,
    },
    KeyRow {
        key: "bound",
        kind: Kind::Number,
        required: true,
    },
];

fn execution_table() -> KeyTable<2>
    ensures { rows_of result.rows.now ≡ execution_rows }
{
    KeyTable { rows: &EXECUTION }
}

impl FromTree for Execution {
    ghost use Rattle.plan_request.specs.declared.request.Execution as declared;
    ghost use Rattle.plan_request.specs.Request.{execution_of};

    ghost Seen = { declared.Execution };

    ghost seen = { λ e. e };

    ghost reads = { execution_of };

    #[tactic(auto, unfolding(crate::specs::Request::execution_of))]
    fn from_tree(alloc: Global, value: &Value, path: &Text) -> Result<Execution, TreeFault> {
        checked(alloc, value, path, &execution_table())?;
        only_known(alloc, value, path, &execution_table())?;
        let site = row!(alloc, value, path, "site", Name);
        let bound = row!(alloc, value, path, "bound", Number up to 1 << 60);
        Ok(Execution { site, bound })
    }
}

impl SiteNamed for Execution {
    ghost name = { λ e. e.site };

    fn site_name(&self) -> &Text {
        &self.site
    }
}
