//! Catalogues: which of them holds, and what it says.

ghost use Rattle.std.specs.Prelude.{◌≡◌, List, ℕ, Result, option_map, IfOk, IfSome};
ghost use Rattle.serde_json.specs.Data.{Data};
ghost use Rattle.serde_json.specs.View.{view as tree_view};
ghost use Rattle.peg_json.specs.code.ReadFault.{GivesRead};
ghost use Rattle.peg_json.specs.declared.read_fault.ReadFault as declared;
ghost use Rattle.planner.specs.code.Catalogue.{IsListing, held, held_unknown};
ghost use Rattle.planner.specs.code.PlanFault.{GivesPlan};

use crate::document::Document;
use crate::plan_fault::{PlanFault, of_read_fault};
use peg_json::{ReadFault, at_key, root};
use replica_catalog::ReplicaCatalog;
use serde_json::Value;
use site_catalog::SiteCatalog;
use std::alloc::Global;
use transformation_catalog::TransformationCatalog;
use values::{Blob, Text};

/// What may stand in a document of its own, or within the workflow's.
pub(crate) trait Catalogue: Drop + Sized {
    /// What it says.
    ghost Entry: { Type 0 };

    ghost says: { Self → Entry };

    /// The paths of its keys that aren't acted on.
    ghost ignored: { Self → List (List ℕ) };

    ghost read_of: { List ℕ → Result Entry declared.ReadFault };

    ghost from_tree_of: { List ℕ → Data → Result Entry declared.ReadFault };

    ghost unknown_in_text: { List ℕ → List (List ℕ) };

    ghost unknown_of: { List ℕ → Data → List (List ℕ) };

    fn read(alloc: Global, bytes: &[u8]) -> Result<Self, ReadFault>
        ensures answer { GivesRead says result (read_of bytes.now) }
        ensures listed { IfOk result (λ c. IsListing (unknown_in_text bytes.now) (ignored c)) };

    fn from_tree(alloc: Global, value: &Value, path: &Text) -> Result<Self, ReadFault>
        ensures answer { GivesRead says result (from_tree_of path.now (tree_view value.now)) }
        ensures listed { IfOk result
            (λ c. IsListing (unknown_of path.now (tree_view value.now)) (ignored c)) };
}

/// The catalogue of a document, if one is named, else the one at a key of the workflow.
pub(crate) fn held<C: Catalogue>(
    alloc: Global,
    which: Document,
    key: &str,
    named: &Option<Blob>,
    inlined: &Option<Value>,
) -> Result<Option<C>, PlanFault>
    ensures answer { GivesPlan (option_map C.says) result
        (held which C.read_of C.from_tree_of key.now named.now (option_map tree_view inlined.now)) }
    ensures listed { IfOk result (λ found. IfSome found (λ c. IsListing
        (held_unknown C.unknown_in_text C.unknown_of key.now named.now (option_map tree_view inlined.now))
        (C.ignored c))) }
{
    let read = match (named, inlined) {
        (Some(bytes), _) => C::read(alloc, bytes.as_slice()),
        (None, Some(tree)) => C::from_tree(alloc, tree, &at_key(alloc, &root(alloc)?, key)?),
        (None, None) => return Ok(None),
    };
    match read {
        Ok(catalogue) => Ok(Some(catalogue)),
        Err(fault) => Err(of_read_fault(which, fault)),
    }
}

impl Catalogue for SiteCatalog {
    ghost use Rattle.site_catalog.specs.declared.catalog.SiteEntry.{SiteEntry};
    ghost use Rattle.site_catalog.specs.Catalog as sites;
    ghost use Rattle.site_catalog.specs.code.Unknown as site_keys;

    ghost Entry = { List SiteEntry };

    ghost says = { sites.site_view };

    ghost ignored = { λ c. c.ignored };

    ghost read_of = { sites.site_catalog_from_text };

    ghost from_tree_of = { sites.site_catalog_from_tree };

    ghost unknown_in_text = { site_keys.unknown_in_text };

    ghost unknown_of = { site_keys.unknown_of };

    fn read(alloc: Global, bytes: &[u8]) -> Result<SiteCatalog, ReadFault> {
        site_catalog::read(alloc, bytes)
    }

    fn from_tree(alloc: Global, value: &Value, path: &Text) -> Result<SiteCatalog, ReadFault> {
        site_catalog::from_tree(alloc, value, path)
    }
}

impl Catalogue for ReplicaCatalog {
    ghost use Rattle.replica_catalog.specs.Catalog as replicas;
    ghost use Rattle.replica_catalog.specs.code.Unknown as replica_keys;

    ghost Entry = { replicas.CatalogEntry };

    ghost says = { replicas.replica_view };

    ghost ignored = { λ c. c.ignored };

    ghost read_of = { replicas.replica_catalog_from_text };

    ghost from_tree_of = { replicas.replica_catalog_from_tree };

    ghost unknown_in_text = { replica_keys.unknown_in_text };

    ghost unknown_of = { replica_keys.unknown_of };

    fn read(alloc: Global, bytes: &[u8]) -> Result<ReplicaCatalog, ReadFault> {
        replica_catalog::read(alloc, bytes)
    }

    fn from_tree(alloc: Global, value: &Value, path: &Text) -> Result<ReplicaCatalog, ReadFault> {
        replica_catalog::from_tree(alloc, value, path)
    }
}

impl Catalogue for TransformationCatalog {
    ghost use Rattle.transformation_catalog.specs.declared.catalog.TransformationEntry.{TransformationEntry};
    ghost use Rattle.transformation_catalog.specs.Catalog as transformations;
    ghost use Rattle.transformation_catalog.specs.code.Unknown as transformation_keys;

    ghost Entry = { List TransformationEntry };

    ghost says = { transformations.transformation_view };

    ghost ignored = { λ c. c.ignored };

    ghost read_of = { transformations.transformation_catalog_from_text };

    ghost from_tree_of = { transformations.transformation_catalog_from_tree };

    ghost unknown_in_text = { transformation_keys.unknown_in_text };

    ghost unknown_of = { transformation_keys.unknown_of };

    fn read(alloc: Global, bytes: &[u8]) -> Result<TransformationCatalog, ReadFault> {
        transformation_catalog::read(alloc, bytes)
    }

    fn from_tree(
        alloc: Global,
        value: &Value,
        path: &Text,
    ) -> Result<TransformationCatalog, ReadFault> {
        transformation_catalog::from_tree(alloc, value, path)
    }
}
