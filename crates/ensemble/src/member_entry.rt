//! A member of an ensemble: its table and its reading.

ghost use Rattle.std.specs.Prelude.{◌≡◌};
ghost use Rattle.std.specs.List.{list_any};
ghost use Rattle.serde_json.specs.View.{view as tree_view};
ghost use Rattle.peg_json.specs.code.Table.{rows_of};
ghost use Rattle.peg_json.specs.code.Tree.{Gives};
ghost use Rattle.ensemble.specs.MemberEntry.{has_slash, member_rows, plain_name_at};

use crate::document::MemberEntry;
use peg_json::{FromTree, KeyRow, KeyTable, Kind, TreeFault, at_key, checked, row};
use plan_request::only_known;
use serde_json::Value;
use std::alloc::Global;
use values::Text;

const MEMBER: [KeyRow; 2] = [
    KeyRow {
        key: "name",
        kind: Kind::Name,
        required: true,
    },
    KeyRow {
        key: "request",
        kind: Kind::Name,
        required: true,
    },
];

fn member_table() -> KeyTable<2>
    ensures { rows_of result.rows.now ≡ member_rows }
{
    KeyTable { rows: &MEMBER }
}

fn has_slash(name: &Text) -> bool
    ensures { result ≡ has_slash name.now }
{
    name.as_bytes().contains(&b'/')
}

/// The name at a key, in which no `/` may stand: what is a member's begins with its name and a `/`.
fn plain_name(alloc: Global, value: &Value, path: &Text, key: &str) -> Result<Text, TreeFault>
    ensures { Gives (λ n. n) result (plain_name_at path.now (tree_view value.now) key.now) }
{
    let name = row!(alloc, value, path, key, Name);
    if has_slash(&name) {
        return Err(TreeFault::WrongKind(at_key(alloc, path, key)?));
    }
    Ok(name)
}

impl FromTree for MemberEntry {
    ghost use Rattle.ensemble.specs.declared.document.MemberEntry as declared;
    ghost use Rattle.ensemble.specs.MemberEntry.{member_of};

    ghost Seen = { declared.MemberEntry };

    ghost seen = { λ m. m };

    ghost reads = { member_of };

    #[tactic(auto, unfolding(crate::specs::MemberEntry::member_of))]
    fn from_tree(alloc: Global, value: &Value, path: &Text) -> Result<MemberEntry, TreeFault> {
        checked(alloc, value, path, &member_table())?;
        only_known(alloc, value, path, &member_table())?;
        let name = plain_name(alloc, value, path, "name")?;
        let request = row!(alloc, value, path, "request", Name);
        Ok(MemberEntry { name, request })
    }
}
