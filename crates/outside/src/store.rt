//! What a store holds.

ghost use Rattle.std.specs.Prelude.{◌≡◌, OnErr, OnOk, None, Ok, true, false};

use crate::operation::{Operation, Operations};
use std::alloc::{AllocError, Global};
use values::{FileMap, Memory, SiteMap, Text};

/// The replicas by their physical names, each site's files and the delivered files by name, and the changes made.
#[derive(Drop)]
pub struct Store {
    pub replicas: FileMap,
    pub scratch: SiteMap,
    pub delivered: FileMap,
    pub trace: Operations,
}

impl Store {
    ghost use Rattle.values.specs.code.SiteMap.{pair_at};
    ghost use Rattle.outside.specs.code.Store.{Delivers, Publishes, Removes, blank, changed};

    /// Nothing at all.
    pub fn new(alloc: Global) -> Store
        ensures { result ≡ blank }
    {
        Store {
            replicas: FileMap::new(alloc),
            scratch: SiteMap::new(alloc),
            delivered: FileMap::new(alloc),
            trace: Operations::new(alloc),
        }
    }

    /// Sets a site's file. A refusal leaves all as it was.
    pub fn publish(
        &mut self,
        alloc: Global,
        site: &str,
        name: &str,
        bytes: &[u8],
    ) -> Result<(), Memory>
        ensures ok { OnOk result (self.new ≡ changed self.old (Publishes site.now name.now bytes.now)) }
        ensures err { OnErr result (self.new ≡ self.old) }
    {
        let length = bytes.len() as u64;
        let place = Text::copy_of(alloc, site)?;
        let file = Text::copy_of(alloc, name)?;
        self.trace.push(Operation::Publish(place, file, length))?;
        let published = self.scratch.insert(alloc, site, name, bytes);
        if published.is_err() {
            self.trace.pop();
        }
        published
    }

    /// Sets a delivered file. A refusal leaves all as it was.
    pub fn deliver(&mut self, alloc: Global, name: &str, bytes: &[u8]) -> Result<(), Memory>
        ensures ok { OnOk result (self.new ≡ changed self.old (Delivers name.now bytes.now)) }
        ensures err { OnErr result (self.new ≡ self.old) }
    {
        let length = bytes.len() as u64;
        let file = Text::copy_of(alloc, name)?;
        self.trace.push(Operation::Deliver(file, length))?;
        let delivered = self.delivered.insert(alloc, name, bytes);
        if delivered.is_err() {
            self.trace.pop();
        }
        delivered
    }

    /// Takes a file out of a site, and tells whether it was there. Else, and at a refusal, all is as it was.
    pub fn remove(&mut self, alloc: Global, site: &str, name: &str) -> Result<bool, Memory>
        ensures removed { result ≡ Ok true → self.new ≡ changed self.old (Removes site.now name.now) }
        ensures stood { result ≡ Ok true → pair_at self.old.scratch site.now name.now ≡ None → ⊥ }
        ensures absent { result ≡ Ok false → pair_at self.old.scratch site.now name.now ≡ None }
        ensures kept { (result ≡ Ok true → ⊥) → self.new ≡ self.old }
    {
        let place = Text::copy_of(alloc, site)?;
        let file = Text::copy_of(alloc, name)?;
        self.trace.push(Operation::Remove(place, file))?;
        let removed = self.scratch.remove(site, name);
        if !removed {
            self.trace.pop();
        }
        Ok(removed)
    }
}

impl Clone for Store {
    ghost is_clone = { λ s t. t ≡ s };

    fn clone(&self) -> Result<Store, AllocError> {
        Ok(Store {
            replicas: self.replicas.clone()?,
            scratch: self.scratch.clone()?,
            delivered: self.delivered.clone()?,
            trace: self.trace.clone()?,
        })
    }
}
