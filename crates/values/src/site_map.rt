//! The files of each site.

ghost use Rattle.std.specs.Prelude.{◌≡◌, ℕ, List, Option, Some, None, option_map, OnOk, OnErr, Decides, is_some, true, false};
ghost use Rattle.std.specs.FinMap as map;
ghost use Rattle.values.specs.code.SiteMap.{at_site, pair_at, put_pair, take_pair, IsEmptyAt};

use crate::file_map::FileMap;
use crate::memory::Memory;
use std::alloc::{AllocError, Global};
use std::collections::BTreeMap;
use std::marker::Model;

/// Each site's files by name, seen as the finite map that they are.
#[derive(Drop)]
pub struct SiteMap {
    sites: BTreeMap<String, FileMap>,
}

impl Model for SiteMap {
    ghost use Rattle.values.specs.code.SiteMap.{Sites, sites_of};
    ghost use Rattle.std.specs.Coded.{coded_ℕ, coded_list};
    ghost use Rattle.std.specs.FinMap as map;

    ghost Value = { Sites };

    ghost coded = { map.code (coded_list coded_ℕ) (map.code (coded_list coded_ℕ) (coded_list coded_ℕ)) };

    ghost view = { λ m. sites_of m.sites.entries };
}

impl SiteMap {
    /// No file at any site.
    pub fn new(alloc: Global) -> SiteMap
        ensures { result ≡ map.empty }
    {
        SiteMap {
            sites: BTreeMap::new(alloc),
        }
    }

    /// The bytes of a name at a site.
    #[tactic(auto, using(crate::proofs::SiteMapLemmas::get_sites_of))]
    pub fn get(&self, site: &str, name: &str) -> Option<&[u8]>
        ensures { option_map (λ b. b.now) result ≡ pair_at self.now site.now name.now }
    {
        match self.sites.get(site) {
            Some(files) => files.get(name),
            None => None,
        }
    }

    /// Sets the bytes of a name at a site, in place of earlier ones. A refusal leaves all as it was.
    pub fn insert(
        &mut self,
        alloc: Global,
        site: &str,
        name: &str,
        bytes: &[u8],
    ) -> Result<(), Memory>
        ensures ok { OnOk result (self.new ≡ put_pair self.old site.now name.now bytes.now) }
        ensures err { OnErr result (self.new ≡ self.old) }
    {
        match self.sites.get_mut(site) {
            Some(files) => files.insert(alloc, name, bytes),
            None => self.insert_first(alloc, site, name, bytes),
        }
    }

    /// Sets the first file of a site.
    fn insert_first(
        &mut self,
        alloc: Global,
        site: &str,
        name: &str,
        bytes: &[u8],
    ) -> Result<(), Memory>
        requires { at_site self.old site.now ≡ map.empty }
        ensures ok { OnOk result (self.new ≡ put_pair self.old site.now name.now bytes.now) }
        ensures err { OnErr result (self.new ≡ self.old) }
    {
        let mut files = FileMap::new(alloc);
        files.insert(alloc, name, bytes)?;
        let site = String::from_str(alloc, site)?;
        self.sites.insert(site, files)?;
        Ok(())
    }

    /// Takes a file out of a site, and tells whether it was there.
    pub fn remove(&mut self, site: &str, name: &str) -> bool
        ensures removed { result ≡ true → self.new ≡ take_pair self.old site.now name.now }
        ensures stood { result ≡ true → pair_at self.old site.now name.now ≡ None → ⊥ }
        ensures absent { result ≡ false
            → (self.new ≡ self.old) × (pair_at self.old site.now name.now ≡ None) }
    {
        match self.sites.get_mut(site) {
            Some(files) => {
                if files.contains(name) {
                    files.remove(name);
                    return true;
                }
                return false;
            }
            None => return false,
        }
    }

    /// Whether a site has no file.
    pub fn is_empty_at(&self, site: &str) -> bool
        ensures { Decides result (IsEmptyAt self.now site.now) }
    {
        match self.sites.get(site) {
            Some(files) => files.is_empty(),
            None => true,
        }
    }
}

impl Clone for SiteMap {
    ghost is_clone = { λ s t. t ≡ s };

    fn clone(&self) -> Result<SiteMap, AllocError> {
        let sites = self.sites.clone()?;
        Ok(SiteMap { sites })
    }
}
