//! The reader of whole transformation catalogues.

ghost use Rattle.std.specs.Prelude.{◌≡◌, None, IfOk};
ghost use Rattle.std.specs.List.Sorted.{IsPermutation, IsSorted};
ghost use Rattle.std.specs.Ordering.{nat_cmp};
ghost use Rattle.std.specs.Cmp.Lexicographic.{slice_cmp};
ghost use Rattle.serde_json.specs.View.{view as tree_view};
ghost use Rattle.peg_json.specs.code.ReadFault.{GivesRead};
ghost use Rattle.transformation_catalog.specs.Catalog.{distinct_transformations, repeat_in};
ghost use Rattle.transformation_catalog.specs.Catalog.{transformation_view, transformation_catalog_from_tree, transformation_catalog_from_text};
ghost use Rattle.transformation_catalog.specs.code.Unknown.{unknown_in_text};
ghost use Rattle.transformation_catalog.specs.code.Unknown.{unknown_of};

use crate::catalog::{TransformationCatalog, TransformationEntry};
use crate::duplicates::check_listed_once;
use crate::root::Document;
use peg_json::{FromTree, ReadFault, ignored_below, parse, root};
use serde_json::Value;
use std::alloc::Global;
use values::{Items, Text};

/// The catalogue of these entries, none of which may come twice.
#[tactic(auto, unfolding(crate::specs::Catalog::distinct_transformations))]
fn catalog_of(
    alloc: Global,
    entries: Vec<TransformationEntry>,
    ignored: Vec<Text>,
) -> Result<TransformationCatalog, ReadFault>
    ensures answer { GivesRead transformation_view result (distinct_transformations entries.items) }
    ensures ignored { IfOk result (λ c. c.ignored ≡ ignored.items) }
    ensures distinct { IfOk result (λ c. repeat_in c.entries ≡ None) }
{
    check_listed_once(alloc, &entries)?;
    Ok(TransformationCatalog {
        entries: Items::new(entries),
        ignored: Items::new(ignored),
    })
}

/// Reads the tree of a transformation catalogue, which stands under a path.
#[tactic(auto, unfolding(crate::specs::Catalog::transformation_catalog_from_tree))]
pub fn from_tree(
    alloc: Global,
    value: &Value,
    path: &Text,
) -> Result<TransformationCatalog, ReadFault>
    ensures answer { GivesRead transformation_view result (transformation_catalog_from_tree path.now (tree_view value.now)) }
    ensures ignored { IfOk result
        (λ c. IsPermutation (unknown_of path.now (tree_view value.now)) c.ignored) }
    ensures order { IfOk result (λ c. IsSorted (slice_cmp nat_cmp) c.ignored) }
    ensures distinct { IfOk result (λ c. repeat_in c.entries ≡ None) }
{
    let document = Document::from_tree(alloc, value, path)?;
    let ignored = ignored_below::<Document>(alloc, value, path)?;
    let catalog = catalog_of(alloc, document.entries, ignored)?;
    Ok(catalog)
}

/// Reads a transformation catalogue's document.
#[tactic(auto, unfolding(crate::specs::Catalog::transformation_catalog_from_text, crate::specs::code::Unknown::unknown_in_text))]
pub fn read(alloc: Global, bytes: &[u8]) -> Result<TransformationCatalog, ReadFault>
    ensures answer { GivesRead transformation_view result (transformation_catalog_from_text bytes.now) }
    ensures ignored { IfOk result
        (λ c. IsPermutation (unknown_in_text bytes.now) c.ignored) }
    ensures order { IfOk result (λ c. IsSorted (slice_cmp nat_cmp) c.ignored) }
    ensures distinct { IfOk result (λ c. repeat_in c.entries ≡ None) }
{
    let value = parse(alloc, bytes)?;
    let start = root(alloc)?;
    let catalog = from_tree(alloc, &value, &start)?;
    Ok(catalog)
}
