//! An entry that others of its lfn are still added to.

ghost use Rattle.std.specs.Prelude.{◌≡◌, OnOk};
ghost use Rattle.replica_catalog.specs.code.Merged.{absorbed};

use crate::catalog::{Pfn, Replica};
use std::marker::Model;
use values::{Items, Memory, Text};

/// An entry, seen as the one that it is so far.
#[derive(Drop)]
pub struct Merged {
    lfn: Text,
    pfns: Vec<Pfn>,
    checksum: Option<[u8; 32]>,
}

impl Model for Merged {
    ghost use Rattle.replica_catalog.specs.declared.catalog.Replica as declared;

    ghost Value = { declared.Replica };

    ghost view = { λ m. record { lfn = m.lfn; pfns = m.pfns.items; checksum = m.checksum } };
}

impl Merged {
    pub fn new(entry: Replica) -> Merged
        ensures { result ≡ entry }
    {
        let Replica {
            lfn,
            pfns,
            checksum,
        } = entry;
        Merged {
            lfn,
            pfns: pfns.into_vec(),
            checksum,
        }
    }

    /// Adds the pfns of another entry, and its checksum if there is none.
    pub fn absorb(&mut self, entry: Replica) -> Result<(), Memory>
        ensures { OnOk result (self.new ≡ absorbed self.old entry) }
    {
        let Replica {
            lfn: _,
            pfns,
            checksum,
        } = entry;
        self.pfns.append(&mut pfns.into_vec())?;
        if self.checksum.is_none() {
            self.checksum = checksum;
        }
        Ok(())
    }

    pub fn into_replica(self) -> Replica
        ensures { result ≡ self }
    {
        let Merged {
            lfn,
            pfns,
            checksum,
        } = self;
        Replica {
            lfn,
            pfns: Items::new(pfns),
            checksum,
        }
    }
}
