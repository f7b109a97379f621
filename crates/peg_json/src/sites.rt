//! Sites, of which a document lists few and none twice.

ghost use Rattle.std.specs.Prelude.{◌≡◌, List, ℕ, map};
ghost use Rattle.std.specs.List.{list_any};
ghost use Rattle.std.specs.Str.{bytes_eq};
ghost use Rattle.peg_json.specs.code.ReadFault.{GivesRead};
ghost use Rattle.peg_json.specs.Elements.{sites_checked};

use crate::count::at_most;
use crate::read_fault::{Counted, ReadFault};
use std::alloc::Global;
use values::Text;

const MAX_SITES: u64 = 64;

/// What has a site's name.
pub trait SiteNamed {
    ghost name: { Self → List ℕ };

    fn site_name(&self) -> &Text
        ensures { result.now ≡ name self.now };
}

fn is_among(name: &Text, names: &[Text]) -> bool
    ensures { result ≡ list_any (bytes_eq name.now) names.now }
{
    for other in names {
        if name.as_str() == other.as_str() {
            return true;
        }
    }
    false
}

/// Refuses more than 64 sites, and a site that is there before.
pub fn check_sites<T: SiteNamed>(alloc: Global, sites: &[T]) -> Result<(), ReadFault>
    ensures { GivesRead (λ u. u) result (sites_checked (map T.name sites.now)) }
{
    at_most(Counted::Sites, MAX_SITES, sites.len() as u64)?;
    let mut known = Vec::with_capacity(alloc, sites.len())?;
    for site in sites {
        let name = site.site_name();
        if is_among(name, &known) {
            return Err(ReadFault::DuplicateSite(name.copied(alloc)?));
        }
        known.push(name.copied(alloc)?)?;
    }
    Ok(())
}
