//! Documents under names.

ghost use Rattle.std.specs.Prelude.{◌≡◌, [], Option};
ghost use Rattle.outside.specs.declared.docs.DocFault.TheVariants as doc_faults;
ghost use Rattle.outside.specs.code.Counts.{IsLater};
ghost use Rattle.values.specs.FileMap.{Files};
ghost use Rattle.outside.specs.declared.counts.Counts.{Counts};

use crate::counts::Counts;
use std::alloc::Global;
use thiserror::Error;
use values::Memory;

/// Why a document could not be fetched.
#[derive(Clone, Copy, Debug, PartialEq, Eq, Error)]
pub enum DocFault {
    #[error("there is no such document")]
    Absent,
    #[error("the document could not be read")]
    Failed,
    #[error("the document is longer than {0} bytes")]
    TooLong(u64),
    #[error("no memory is left")]
    Memory,
}

impl From<Memory> for DocFault {
    ghost from_gives = { λ _ e. e ≡ doc_faults.Memory };

    fn from(_e: Memory) -> DocFault {
        DocFault::Memory
    }
}

/// A source of documents.
pub trait Docs {
    ghost use Rattle.outside.specs.code.Docs.{Fetched};

    /// The documents, where they are told.
    ghost told: { Self → Option Files };

    /// How many documents came, how many calls failed, and how many documents were absent or too long.
    ghost counts: { Self → Counts };

    fn faults(&self) -> u64
        ensures { result ≡ (counts self.now).faults };

    fn misses(&self) -> u64
        ensures { result ≡ (counts self.now).misses };

    /// Reads the document of a name into an empty vector, which stays empty after a refusal.
    fn fetch(
        &mut self,
        alloc: Global,
        name: &str,
        limit: u64,
        into: &mut Vec<u8>,
    ) -> Result<(), DocFault>
        requires { into.old.items ≡ [] }
        ensures answer { Fetched (told self.old) name.now limit (counts self.old)
            (counts self.new) result into.new.items }
        ensures told { told self.new ≡ told self.old }
        ensures later { IsLater (counts self.old) (counts self.new) };
}
