//! The reader of whole catalogues.

ghost use Rattle.std.specs.Prelude.{◌≡◌, Ok, IfOk};
ghost use Rattle.std.specs.List.Sorted.{IsPermutation, IsSorted};
ghost use Rattle.std.specs.Ordering.{nat_cmp};
ghost use Rattle.std.specs.Cmp.Lexicographic.{slice_cmp};
ghost use Rattle.serde_json.specs.View.{view as tree_view};
ghost use Rattle.peg_json.specs.code.ReadFault.{GivesRead};
ghost use Rattle.peg_json.specs.Elements.{sites_checked};
ghost use Rattle.site_catalog.specs.Catalog.{site_view, names_of, few_distinct, site_catalog_from_tree, site_catalog_from_text};
ghost use Rattle.site_catalog.specs.code.Unknown.{unknown_in_text};
ghost use Rattle.site_catalog.specs.code.Unknown.{unknown_of};

use crate::catalog::{SiteCatalog, SiteEntry};
use crate::root::Document;
use peg_json::{FromTree, ReadFault, check_sites, ignored_below, parse, root};
use serde_json::Value;
use std::alloc::Global;
use values::{Items, Text};

/// The catalogue of some sites, if they are few and none is there twice.
fn catalog_of(
    alloc: Global,
    sites: Items<SiteEntry>,
    ignored: Vec<Text>,
) -> Result<SiteCatalog, ReadFault>
    ensures answer { GivesRead site_view result (few_distinct sites) }
    ensures ignored { IfOk result (λ c. c.ignored ≡ ignored.items) }
    ensures distinct { IfOk result (λ c. sites_checked (names_of c.sites) ≡ Ok tt) }
{
    check_sites(alloc, sites.as_slice())?;
    Ok(SiteCatalog {
        sites,
        ignored: Items::new(ignored),
    })
}

/// Reads the tree of a site catalogue, which stands under a path: that of the document's root, or of the key at which
/// a workflow has it.
#[tactic(auto, unfolding(crate::specs::Catalog::site_catalog_from_tree))]
pub fn from_tree(alloc: Global, value: &Value, path: &Text) -> Result<SiteCatalog, ReadFault>
    ensures answer { GivesRead site_view result (site_catalog_from_tree path.now (tree_view value.now)) }
    ensures ignored { IfOk result
        (λ c. IsPermutation (unknown_of path.now (tree_view value.now)) c.ignored) }
    ensures order { IfOk result (λ c. IsSorted (slice_cmp nat_cmp) c.ignored) }
    ensures distinct { IfOk result (λ c. sites_checked (names_of c.sites) ≡ Ok tt) }
{
    let document = Document::from_tree(alloc, value, path)?;
    let ignored = ignored_below::<Document>(alloc, value, path)?;
    let catalog = catalog_of(alloc, document.sites, ignored)?;
    Ok(catalog)
}

/// Reads a site catalogue of at most 64 sites.
#[tactic(auto, unfolding(crate::specs::Catalog::site_catalog_from_text, crate::specs::code::Unknown::unknown_in_text))]
pub fn read(alloc: Global, bytes: &[u8]) -> Result<SiteCatalog, ReadFault>
    ensures answer { GivesRead site_view result (site_catalog_from_text bytes.now) }
    ensures ignored { IfOk result
        (λ c. IsPermutation (unknown_in_text bytes.now) c.ignored) }
    ensures order { IfOk result (λ c. IsSorted (slice_cmp nat_cmp) c.ignored) }
    ensures distinct { IfOk result (λ c. sites_checked (names_of c.sites) ≡ Ok tt) }
{
    let value = parse(alloc, bytes)?;
    let start = root(alloc)?;
    let catalog = from_tree(alloc, &value, &start)?;
    Ok(catalog)
}
