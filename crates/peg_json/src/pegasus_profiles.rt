//! A job's profiles of `pegasus`.

ghost use Rattle.std.specs.Prelude.{◌≡◌};
ghost use Rattle.peg_json.specs.code.Table.{rows_of};
ghost use Rattle.peg_json.specs.Profiles.{pegasus_rows, no_pegasus};

use crate::fault::TreeFault;
use crate::listed::Listed;
use crate::member::{checked, gather};
use crate::row::{KeyRow, Kind};
use crate::table::KeyTable;
use crate::tree::FromTree;
use crate::typed;
use serde_json::Value;
use std::alloc::Global;
use values::{Memory, Text};

/// How a job is to be clustered.
#[derive(Drop)]
pub struct PegasusProfiles {
    pub label: Option<Text>,
    pub cluster_size: Option<Text>,
    pub cluster_num: Option<Text>,
}

const PEGASUS: [KeyRow; 3] = [
    KeyRow {
        key: "label",
        kind: Kind::Text,
        required: false,
    },
    KeyRow {
        key: "clusters.size",
        kind: Kind::Digits,
        required: false,
    },
    KeyRow {
        key: "clusters.num",
        kind: Kind::Digits,
        required: false,
    },
];

fn pegasus_table() -> KeyTable<3>
    ensures { rows_of result.rows.now ≡ pegasus_rows }
{
    KeyTable { rows: &PEGASUS }
}

impl PegasusProfiles {
    /// Absent profiles say nothing.
    pub fn none() -> PegasusProfiles
        ensures { result ≡ no_pegasus }
    {
        PegasusProfiles {
            label: None,
            cluster_size: None,
            cluster_num: None,
        }
    }
}

impl FromTree for PegasusProfiles {
    ghost use Rattle.peg_json.specs.declared.pegasus_profiles.PegasusProfiles as declared;
    ghost use Rattle.peg_json.specs.Profiles.{pegasus_of};

    ghost Seen = { declared.PegasusProfiles };

    ghost seen = { λ p. p };

    ghost reads = { pegasus_of };

    #[tactic(auto, unfolding(crate::specs::Profiles::pegasus_of))]
    fn from_tree(alloc: Global, value: &Value, path: &Text) -> Result<PegasusProfiles, TreeFault> {
        checked(alloc, value, path, &pegasus_table())?;
        let label = typed::optional_text(alloc, value, path, "label")?;
        let cluster_size = typed::optional_digits(alloc, value, path, "clusters.size")?;
        let cluster_num = typed::optional_digits(alloc, value, path, "clusters.num")?;
        Ok(PegasusProfiles {
            label,
            cluster_size,
            cluster_num,
        })
    }
}

impl Listed for PegasusProfiles {
    ghost use Rattle.peg_json.specs.code.Unknown.{unknown_pegasus};

    ghost unknown = { unknown_pegasus };

    #[tactic(auto, unfolding(crate::specs::code::Unknown::unknown_pegasus))]
    fn gather(
        alloc: Global,
        value: &Value,
        path: &Text,
        into: &mut Vec<Text>,
    ) -> Result<(), Memory> {
        gather(alloc, value, path, &pegasus_table(), into)
    }
}
