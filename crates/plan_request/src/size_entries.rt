//! The sizes of files that a request states.

ghost use Rattle.std.specs.Prelude.{◌≡◌, IfOk, map};
ghost use Rattle.serde_json.specs.View.{view as tree_view};
ghost use Rattle.peg_json.specs.code.Tree.{Gives};
ghost use Rattle.plan_request.specs.Request.{size_entry, sizes_or_none};

use crate::request::SizeOf;
use peg_json::{FromTree, TreeFault, entries_at, number_at, row};
use serde_json::Value;
use std::alloc::Global;
use values::{Items, Memory, Text};

/// The size of a file.
#[derive(Drop)]
struct Size(u64);

impl FromTree for Size {
    ghost use Rattle.std.specs.Prelude.{ℕ};
    ghost use Rattle.plan_request.specs.Request.{size_of};

    ghost Seen = { ℕ };

    ghost seen = { λ s. s.0 };

    ghost reads = { size_of };

    fn from_tree(alloc: Global, value: &Value, path: &Text) -> Result<Size, TreeFault> {
        Ok(Size(number_at(alloc, value, path, 1 << 40)?))
    }
}

/// Sizes by the names of their files.
#[derive(Drop)]
struct Sizes(Items<SizeOf>);

impl FromTree for Sizes {
    ghost use Rattle.std.specs.Prelude.{List};
    ghost use Rattle.plan_request.specs.declared.request.SizeOf as declared;
    ghost use Rattle.plan_request.specs.Request.{size_entries_of};

    ghost Seen = { List declared.SizeOf };

    ghost seen = { λ s. s.0 };

    ghost reads = { size_entries_of };

    #[tactic(auto, unfolding(crate::specs::Request::size_entries_of), using(crate::proofs::EntryLemmas::mapped_twice))]
    fn from_tree(alloc: Global, value: &Value, path: &Text) -> Result<Sizes, TreeFault> {
        let entries = entries_at::<Size>(alloc, value, path)?;
        Ok(Sizes(stated_sizes(alloc, entries)?))
    }
}

/// Each file with its size.
fn stated_sizes(alloc: Global, entries: Vec<(Text, Size)>) -> Result<Items<SizeOf>, Memory>
    ensures { IfOk result (λ sizes. sizes ≡ map (λ e. size_entry (e.0, e.1.0)) entries.items) }
{
    let sizes: Vec<SizeOf> = entries
        .into_iter()
        .map(|entry| SizeOf {
            lfn: entry.0,
            size: entry.1.0,
        })
        .collect(alloc)?;
    Ok(Items::new(sizes))
}

/// The sizes at a key, or none where they are absent.
pub fn sizes_or_none(
    alloc: Global,
    value: &Value,
    path: &Text,
    key: &str,
) -> Result<Items<SizeOf>, TreeFault>
    ensures { Gives (λ sizes. sizes) result
        (sizes_or_none path.now (tree_view value.now) key.now) }
{
    match row!(alloc, value, path, key, optional Object Sizes) {
        Some(sizes) => Ok(sizes.0),
        None => Ok(Items::new(Vec::new(alloc))),
    }
}
