//! What a selection of sites comes to.

ghost use Rattle.std.specs.Prelude.{◌≡◌, ◌<◌, ℕ, List, Option, Some, length, slice_get, true};
ghost use Rattle.values.specs.declared.numbers.SiteId.{SiteId};
ghost use Rattle.dependency_graph.specs.Levels.{is_kept};
ghost use Rattle.site_selector.specs.Selecting.{IsSelected, Selection};

/// Sites of jobs are execution sites, and each kept job has one.
pub fn selected_sites_are_placed()
    ensures below { (c : Selection) (sites : List (Option SiteId)) → IsSelected c sites
        → (a : ℕ) (s : SiteId) → slice_get sites a ≡ Some (Some s) → s.0 < length c.execute }
    ensures placed { (c : Selection) (sites : List (Option SiteId)) → IsSelected c sites → (a : ℕ)
        → is_kept c.kept a ≡ true → a < length c.jobs → (s : SiteId) × (slice_get sites a ≡ Some (Some s)) }
{}
