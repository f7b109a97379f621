//! The reader of whole catalogues.

ghost use Rattle.std.specs.Prelude.{◌≡◌, IfOk};
ghost use Rattle.std.specs.List.Sorted.{IsPermutation, IsSorted};
ghost use Rattle.std.specs.Ordering.{nat_cmp};
ghost use Rattle.std.specs.Cmp.Lexicographic.{slice_cmp};
ghost use Rattle.serde_json.specs.View.{view as tree_view};
ghost use Rattle.peg_json.specs.code.ReadFault.{GivesRead};
ghost use Rattle.replica_catalog.specs.Catalog.{replica_view, replica_catalog_from_tree, replica_catalog_from_text};
ghost use Rattle.replica_catalog.specs.code.Unknown.{unknown_in_text};
ghost use Rattle.replica_catalog.specs.code.Unknown.{unknown_of};

use crate::catalog::ReplicaCatalog;
use crate::joining::joined;
use crate::root::Document;
use peg_json::{FromTree, ReadFault, ignored_below, parse, root};
use serde_json::Value;
use std::alloc::Global;
use values::{Items, Text};

/// Reads the tree of a replica catalogue, which stands under a path: that of the document's root, or of the key at
/// which a workflow has it.
#[tactic(auto, unfolding(crate::specs::Catalog::replica_catalog_from_tree))]
pub fn from_tree(alloc: Global, value: &Value, path: &Text) -> Result<ReplicaCatalog, ReadFault>
    ensures answer { GivesRead replica_view result (replica_catalog_from_tree path.now (tree_view value.now)) }
    ensures ignored { IfOk result
        (λ c. IsPermutation (unknown_of path.now (tree_view value.now)) c.ignored) }
    ensures order { IfOk result (λ c. IsSorted (slice_cmp nat_cmp) c.ignored) }
{
    let document = Document::from_tree(alloc, value, path)?;
    let ignored = ignored_below::<Document>(alloc, value, path)?;
    let listed = document.replicas.len() as u64;
    Ok(ReplicaCatalog {
        entries: joined(alloc, document.replicas)?,
        listed,
        ignored: Items::new(ignored),
    })
}

/// Reads a replica catalogue.
#[tactic(auto, unfolding(crate::specs::Catalog::replica_catalog_from_text, crate::specs::code::Unknown::unknown_in_text))]
pub fn read(alloc: Global, bytes: &[u8]) -> Result<ReplicaCatalog, ReadFault>
    ensures answer { GivesRead replica_view result (replica_catalog_from_text bytes.now) }
    ensures ignored { IfOk result
        (λ c. IsPermutation (unknown_in_text bytes.now) c.ignored) }
    ensures order { IfOk result (λ c. IsSorted (slice_cmp nat_cmp) c.ignored) }
{
    let value = parse(alloc, bytes)?;
    let start = root(alloc)?;
    let catalog = from_tree(alloc, &value, &start)?;
    Ok(catalog)
}
