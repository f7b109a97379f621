//! Where a run's files are kept.

ghost use Rattle.std.specs.Prelude.{◌≡◌, None, Option};
ghost use Rattle.outside.specs.declared.host.HostFault.TheVariants as host_faults;
ghost use Rattle.outside.specs.code.Counts.{IsLater};
ghost use Rattle.outside.specs.declared.counts.Counts.{Counts};
ghost use Rattle.outside.specs.declared.store.Store.{Store};

use crate::counts::Counts;
use crate::parts::{ReadPart, WritePart};
use crate::place::Place;
use crate::store::Store;
use std::alloc::Global;
use thiserror::Error;
use values::{Blob, Memory};

/// Why a host did nothing.
#[derive(Clone, Copy, Debug, PartialEq, Eq, Error)]
pub enum HostFault {
    #[error("there is no such file")]
    Absent,
    #[error("the store failed")]
    Failed,
    /// The limit, and the length above it.
    #[error("the file has {1} bytes, and {0} are the limit")]
    Over(u64, u64),
    #[error("no memory is left")]
    Memory,
}

impl From<Memory> for HostFault {
    ghost from_gives = { λ _ e. e ≡ host_faults.Memory };

    fn from(_e: Memory) -> HostFault {
        HostFault::Memory
    }
}

/// A store of files. It tells all that it holds, or nothing.
pub trait Host: Drop {
    ghost use Rattle.std.specs.Prelude.{IfSome, OnErr, OnOk, option_map};
    ghost use Rattle.std.specs.FinMap as map;
    ghost use Rattle.outside.specs.code.Host.{Changes, Empties, Reads};
    ghost use Rattle.values.specs.code.SiteMap.{pair_at};
    ghost use Rattle.outside.specs.code.Store.{Delivers, Publishes, Removes};
    ghost use Rattle.outside.specs.code.Lending.{Makes, Opens, Publishing, with_faults};

    /// A file that is being read.
    type Reading: ReadPart;

    /// A file that is being written.
    type Draft: WritePart;

    /// What it holds, where it is told.
    ghost told: { Self → Option Store };

    /// What it told at its last mark; before the first one nothing at all.
    ghost marked: { Self → Store };

    /// How many calls were done, how many failed, and how many found a file absent or too long, or a site not empty.
    ghost counts: { Self → Counts };

    fn faults(&self) -> u64
        ensures { result ≡ (counts self.now).faults };

    fn misses(&self) -> u64
        ensures { result ≡ (counts self.now).misses };

    /// The bytes of a replica by its physical name, if they are within the limit.
    fn read_replica(&mut self, alloc: Global, pfn: &str, limit: u64) -> Result<Blob, HostFault>
        ensures answer { Reads (option_map (λ s. map.get s.replicas pfn.now) (told self.old)) limit
            (counts self.old) (counts self.new) result }
        ensures told { told self.new ≡ told self.old }
        ensures marked { marked self.new ≡ marked self.old }
        ensures later { IsLater (counts self.old) (counts self.new) };

    /// The bytes of a site's file, if they are within the limit.
    fn read_scratch(
        &mut self,
        alloc: Global,
        site: &str,
        name: &str,
        limit: u64,
    ) -> Result<Blob, HostFault>
        ensures answer { Reads (option_map (λ s. pair_at s.scratch site.now name.now) (told self.old)) limit
            (counts self.old) (counts self.new) result }
        ensures told { told self.new ≡ told self.old }
        ensures marked { marked self.new ≡ marked self.old }
        ensures later { IsLater (counts self.old) (counts self.new) };

    /// Publishes a file at a site, in place of an earlier one. A refusal leaves all as it was.
    fn write_scratch(
        &mut self,
        alloc: Global,
        site: &str,
        name: &str,
        bytes: &[u8],
    ) -> Result<(), HostFault>
        ensures answer { Changes (told self.old) (told self.new) (counts self.old)
            (counts self.new) ⊥ (Publishes site.now name.now bytes.now) result }
        ensures marked { marked self.new ≡ marked self.old }
        ensures later { IsLater (counts self.old) (counts self.new) };

    /// Delivers a file under its name, in place of an earlier one. A refusal leaves all as it was.
    fn deliver(&mut self, alloc: Global, name: &str, bytes: &[u8]) -> Result<(), HostFault>
        ensures answer { Changes (told self.old) (told self.new) (counts self.old)
            (counts self.new) ⊥ (Delivers name.now bytes.now) result }
        ensures marked { marked self.new ≡ marked self.old }
        ensures later { IsLater (counts self.old) (counts self.new) };

    /// Removes a file from a site. A refusal leaves all as it was.
    fn remove(&mut self, alloc: Global, site: &str, name: &str) -> Result<(), HostFault>
        ensures answer { Changes (told self.old) (told self.new) (counts self.old) (counts self.new)
            (IfSome (told self.old) (λ s. pair_at s.scratch site.now name.now ≡ None))
            (Removes site.now name.now) result }
        ensures stood { OnOk result (IfSome (told self.old)
            (λ s. pair_at s.scratch site.now name.now ≡ None → ⊥)) }
        ensures marked { marked self.new ≡ marked self.old }
        ensures later { IsLater (counts self.old) (counts self.new) };

    /// Whether a site has no file.
    fn scratch_empty(&mut self, alloc: Global, site: &str) -> Result<bool, HostFault>
        ensures answer { Empties (told self.old) site.now (counts self.old) (counts self.new) result }
        ensures told { told self.new ≡ told self.old }
        ensures marked { marked self.new ≡ marked self.old }
        ensures later { IsLater (counts self.old) (counts self.new) };

    /// Opens a replica by its physical name, if it is within the limit, at its first byte.
    fn open_replica(
        &mut self,
        alloc: Global,
        pfn: &str,
        limit: u64,
    ) -> Result<Self::Reading, HostFault>
        ensures answer { Opens Self.Reading.state
            (option_map (λ s. map.get s.replicas pfn.now) (told self.old)) limit (counts self.old)
            (counts self.new) result }
        ensures told { told self.new ≡ told self.old }
        ensures marked { marked self.new ≡ marked self.old }
        ensures later { IsLater (counts self.old) (counts self.new) };

    /// Opens a site's file, if it is within the limit, at its first byte.
    fn open_scratch(
        &mut self,
        alloc: Global,
        site: &str,
        name: &str,
        limit: u64,
    ) -> Result<Self::Reading, HostFault>
        ensures answer { Opens Self.Reading.state
            (option_map (λ s. pair_at s.scratch site.now name.now) (told self.old)) limit (counts self.old)
            (counts self.new) result }
        ensures told { told self.new ≡ told self.old }
        ensures marked { marked self.new ≡ marked self.old }
        ensures later { IsLater (counts self.old) (counts self.new) };

    /// Makes a draft of a file that is to stand at a place. It is no file of the store before it is published.
    fn draft(&mut self, alloc: Global, place: &Place, limit: u64) -> Result<Self::Draft, HostFault>
        ensures answer { Makes Self.Draft.state (told self.old) place.now limit (counts self.old)
            (counts self.new) result }
        ensures told { told self.new ≡ told self.old }
        ensures marked { marked self.new ≡ marked self.old }
        ensures later { IsLater (counts self.old) (counts self.new) };

    /// Sets a draft's bytes at its place, in one step, in place of an earlier file. A refusal leaves all as it was, and
    /// the draft is gone.
    fn publish(&mut self, alloc: Global, draft: Self::Draft) -> Result<(), HostFault>
        ensures answer { Publishing (Self.Draft.state draft) (told self.old) (told self.new)
            (counts self.old) (counts self.new) result }
        ensures marked { marked self.new ≡ marked self.old }
        ensures later { IsLater (counts self.old) (counts self.new) };

    /// Takes a draft back that isn't to be published.
    fn discard(&mut self, draft: Self::Draft)
        ensures told { told self.new ≡ told self.old }
        ensures marked { marked self.new ≡ marked self.old }
        ensures counts { counts self.new ≡ with_faults (counts self.old) (Self.Draft.state draft).faults }
        ensures later { IsLater (counts self.old) (counts self.new) };

    /// Takes a reading back.
    fn finish(&mut self, reading: Self::Reading)
        ensures told { told self.new ≡ told self.old }
        ensures marked { marked self.new ≡ marked self.old }
        ensures counts { counts self.new ≡ with_faults (counts self.old) (Self.Reading.state reading).faults }
        ensures later { IsLater (counts self.old) (counts self.new) };

    /// Keeps what it tells now for later comparison.
    fn mark(&mut self, alloc: Global) -> Result<(), Memory>
        ensures ok { OnOk result (IfSome (told self.old) (λ s. marked self.new ≡ s)) }
        ensures err { OnErr result (marked self.new ≡ marked self.old) }
        ensures told { told self.new ≡ told self.old }
        ensures counts { counts self.new ≡ counts self.old };
}
