//! A job's profiles of `selector`.

ghost use Rattle.std.specs.Prelude.{◌≡◌};
ghost use Rattle.peg_json.specs.code.Table.{rows_of};
ghost use Rattle.peg_json.specs.Profiles.{selector_rows, no_selector};

use crate::fault::TreeFault;
use crate::listed::Listed;
use crate::member::{checked, gather};
use crate::row::{KeyRow, Kind};
use crate::table::KeyTable;
use crate::tree::FromTree;
use crate::typed;
use serde_json::Value;
use std::alloc::Global;
use values::{Memory, Text};

/// The site that a job is pinned to.
#[derive(Drop)]
pub struct SelectorProfiles {
    pub site: Option<Text>,
}

const SELECTOR: [KeyRow; 1] = [KeyRow {
    key: "execution.site",
    kind: Kind::Text,
    required: false,
}];

fn selector_table() -> KeyTable<1>
    ensures { rows_of result.rows.now ≡ selector_rows }
{
    KeyTable { rows: &SELECTOR }
}

impl SelectorProfiles {
    /// Absent profiles say nothing.
    pub fn none() -> SelectorProfiles
        ensures { result ≡ no_selector }
    {
        SelectorProfiles { site: None }
    }
}

impl FromTree for SelectorProfiles {
    ghost use Rattle.peg_json.specs.declared.selector_profiles.SelectorProfiles as declared;
    ghost use Rattle.peg_json.specs.Profiles.{selector_of};

    ghost Seen = { declared.SelectorProfiles };

    ghost seen = { λ p. p };

    ghost reads = { selector_of };

    #[tactic(auto, unfolding(crate::specs::Profiles::selector_of))]
    fn from_tree(alloc: Global, value: &Value, path: &Text) -> Result<SelectorProfiles, TreeFault> {
        checked(alloc, value, path, &selector_table())?;
        let site = typed::optional_text(alloc, value, path, "execution.site")?;
        Ok(SelectorProfiles { site })
    }
}

impl Listed for SelectorProfiles {
    ghost use Rattle.peg_json.specs.code.Unknown.{unknown_selector};

    ghost unknown = { unknown_selector };

    #[tactic(auto, unfolding(crate::specs::code::Unknown::unknown_selector))]
    fn gather(
        alloc: Global,
        value: &Value,
        path: &Text,
        into: &mut Vec<Text>,
    ) -> Result<(), Memory> {
        gather(alloc, value, path, &selector_table(), into)
    }
}
