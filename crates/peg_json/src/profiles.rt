//! A job's profiles.

ghost use Rattle.std.specs.Prelude.{◌≡◌};
ghost use Rattle.serde_json.specs.View.{view as tree_view};
ghost use Rattle.peg_json.specs.code.Tree.{Gives};
ghost use Rattle.peg_json.specs.code.Table.{rows_of};
ghost use Rattle.peg_json.specs.Profiles.{profiles_rows, no_profiles, profiles_or_none};

use crate::fault::TreeFault;
use crate::listed::{Listed, gather_object};
use crate::member::{checked, gather};
use crate::pegasus_profiles::PegasusProfiles;
use crate::row::{KeyRow, Kind};
use crate::selector_profiles::SelectorProfiles;
use crate::table::KeyTable;
use crate::tree::FromTree;
use crate::typed;
use serde_json::Value;
use std::alloc::Global;
use values::{Memory, Text};

#[derive(Drop)]
pub struct Profiles {
    pub pegasus: PegasusProfiles,
    pub selector: SelectorProfiles,
}

const PROFILES: [KeyRow; 2] = [
    KeyRow {
        key: "pegasus",
        kind: Kind::Object,
        required: false,
    },
    KeyRow {
        key: "selector",
        kind: Kind::Object,
        required: false,
    },
];

fn profiles_table() -> KeyTable<2>
    ensures { rows_of result.rows.now ≡ profiles_rows }
{
    KeyTable { rows: &PROFILES }
}

impl Profiles {
    /// Absent profiles say nothing.
    pub fn none() -> Profiles
        ensures { result ≡ no_profiles }
    {
        Profiles {
            pegasus: PegasusProfiles::none(),
            selector: SelectorProfiles::none(),
        }
    }
}

impl FromTree for Profiles {
    ghost use Rattle.peg_json.specs.declared.profiles.Profiles as declared;
    ghost use Rattle.peg_json.specs.Profiles.{profiles_of};

    ghost Seen = { declared.Profiles };

    ghost seen = { λ p. p };

    ghost reads = { profiles_of };

    #[tactic(auto, unfolding(crate::specs::Profiles::profiles_of))]
    fn from_tree(alloc: Global, value: &Value, path: &Text) -> Result<Profiles, TreeFault> {
        checked(alloc, value, path, &profiles_table())?;
        let pegasus = typed::optional_object::<PegasusProfiles>(alloc, value, path, "pegasus")?;
        let selector = typed::optional_object::<SelectorProfiles>(alloc, value, path, "selector")?;
        Ok(Profiles {
            pegasus: pegasus.unwrap_or(PegasusProfiles::none()),
            selector: selector.unwrap_or(SelectorProfiles::none()),
        })
    }
}

/// The profiles at a key, or those that say nothing.
pub fn profiles_or_none(
    alloc: Global,
    value: &Value,
    path: &Text,
    key: &str,
) -> Result<Profiles, TreeFault>
    ensures { Gives (λ p. p) result
        (profiles_or_none path.now (tree_view value.now) key.now) }
{
    let found = typed::optional_object::<Profiles>(alloc, value, path, key)?;
    Ok(found.unwrap_or(Profiles::none()))
}

impl Listed for Profiles {
    ghost use Rattle.peg_json.specs.code.Unknown.{unknown_profiles};

    ghost unknown = { unknown_profiles };

    #[tactic(auto, unfolding(crate::specs::code::Unknown::unknown_profiles))]
    fn gather(
        alloc: Global,
        value: &Value,
        path: &Text,
        into: &mut Vec<Text>,
    ) -> Result<(), Memory> {
        gather(alloc, value, path, &profiles_table(), into)?;
        gather_object::<PegasusProfiles>(alloc, value, path, "pegasus", into)?;
        gather_object::<SelectorProfiles>(alloc, value, path, "selector", into)
    }
}
