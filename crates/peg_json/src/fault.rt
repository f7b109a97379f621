//! What is wrong with a document.

ghost use Rattle.std.specs.Prelude.{◌≡◌};
ghost use Rattle.peg_json.specs.declared.fault.TreeFault.TheVariants as faults;

use std::alloc::{AllocError, AllocFailed};
use values::{Memory, Text};

/// The first fault of a tree.
#[derive(Drop)]
pub enum TreeFault {
    Syntax,
    MissingKey(Text),
    WrongKind(Text),
    OutOfRange(Text, u64),
    Unsupported(Text, Text),
    BadVersion(Text),
    Memory,
}

impl From<Memory> for TreeFault {
    ghost from_gives = { λ _ e. e ≡ faults.Memory };

    fn from(_e: Memory) -> TreeFault {
        TreeFault::Memory
    }
}

impl From<AllocError> for TreeFault {
    ghost from_gives = { λ _ e. e ≡ faults.Memory };

    fn from(_e: AllocError) -> TreeFault {
        TreeFault::Memory
    }
}

impl<T: Drop> From<AllocFailed<T>> for TreeFault {
    ghost from_gives = { λ _ e. e ≡ faults.Memory };

    fn from(_e: AllocFailed<T>) -> TreeFault {
        TreeFault::Memory
    }
}
