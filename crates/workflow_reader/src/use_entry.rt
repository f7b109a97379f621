//! A use of a file: its table, its reading, and the keys that are in no table.

ghost use Rattle.std.specs.Prelude.{◌≡◌};
ghost use Rattle.serde_json.specs.View.{view as tree_view};
ghost use Rattle.peg_json.specs.code.Tree.{Gives};
ghost use Rattle.peg_json.specs.code.Table.{rows_of};
ghost use Rattle.workflow_reader.specs.Workflow.{use_rows, direction_at};

use crate::document::{Direction, Use};
use peg_json::typed::lent_text;
use peg_json::{FromTree, KeyRow, KeyTable, Kind, Listed, TreeFault, at_key, checked, gather, row};
use serde_json::Value;
use std::alloc::Global;
use values::{Memory, Text};

const USE: [KeyRow; 5] = [
    KeyRow {
        key: "lfn",
        kind: Kind::Name,
        required: true,
    },
    KeyRow {
        key: "type",
        kind: Kind::Text,
        required: true,
    },
    KeyRow {
        key: "stageOut",
        kind: Kind::Flag,
        required: false,
    },
    KeyRow {
        key: "registerReplica",
        kind: Kind::Flag,
        required: false,
    },
    KeyRow {
        key: "size",
        kind: Kind::Number,
        required: false,
    },
];

fn use_table() -> KeyTable<5>
    ensures { rows_of result.rows.now ≡ use_rows }
{
    KeyTable { rows: &USE }
}

fn direction(alloc: Global, value: &Value, path: &Text, key: &str) -> Result<Direction, TreeFault>
    ensures { Gives (λ d. d) result (direction_at path.now (tree_view value.now) key.now) }
{
    match lent_text(alloc, value, path, key)? {
        "input" => Ok(Direction::Input),
        "output" => Ok(Direction::Output),
        named => Err(TreeFault::Unsupported(
            at_key(alloc, path, key)?,
            Text::copy_of(alloc, named)?,
        )),
    }
}

impl FromTree for Use {
    ghost use Rattle.workflow_reader.specs.declared.document.Use as declared;
    ghost use Rattle.workflow_reader.specs.Workflow.{use_of};

    ghost Seen = { declared.Use };

    ghost seen = { λ u. u };

    ghost reads = { use_of };

    #[tactic(auto, unfolding(crate::specs::Workflow::use_of))]
    fn from_tree(alloc: Global, value: &Value, path: &Text) -> Result<Use, TreeFault> {
        checked(alloc, value, path, &use_table())?;
        let lfn = row!(alloc, value, path, "lfn", Name);
        let direction = direction(alloc, value, path, "type")?;
        let stage_out = row!(alloc, value, path, "stageOut", optional Flag);
        let register = row!(alloc, value, path, "registerReplica", optional Flag);
        let size = row!(alloc, value, path, "size", optional Number up to 1 << 40);
        Ok(Use {
            lfn,
            direction,
            stage_out: stage_out.unwrap_or(true),
            register: register.unwrap_or(true),
            size,
        })
    }
}

impl Listed for Use {
    ghost use Rattle.workflow_reader.specs.code.Unknown.{unknown_use};

    ghost unknown = { unknown_use };

    #[tactic(auto, unfolding(crate::specs::code::Unknown::unknown_use))]
    fn gather(
        alloc: Global,
        value: &Value,
        path: &Text,
        into: &mut Vec<Text>,
    ) -> Result<(), Memory> {
        gather(alloc, value, path, &use_table(), into)
    }
}
