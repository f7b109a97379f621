//! What is wrong with a document beyond its tree.

ghost use Rattle.std.specs.Prelude.{◌≡◌};
ghost use Rattle.peg_json.specs.declared.fault.TreeFault.TheVariants as faults;
ghost use Rattle.peg_json.specs.declared.read_fault.ReadFault.TheVariants.{Tree};

use crate::fault::TreeFault;
use std::alloc::{AllocError, AllocFailed};
use values::{Memory, Text};

/// What there are too many of.
#[derive(Clone, Copy, PartialEq, Eq)]
pub enum Counted {
    Jobs,
    Files,
    Sites,
    Tasks,
}

/// Why bytes are no document.
#[derive(Drop)]
pub enum ReadFault {
    Tree(TreeFault),
    /// How many there are, and the limit.
    TooMany(Counted, u64, u64),
    DuplicateJob(Text),
    /// The job's id and the file's name.
    DuplicateUse(Text, Text),
    UnknownJob(Text),
    DuplicateSite(Text),
    DuplicateTransformation(Text),
}

impl From<TreeFault> for ReadFault {
    ghost from_gives = { λ x e. e ≡ Tree x };

    fn from(fault: TreeFault) -> ReadFault {
        ReadFault::Tree(fault)
    }
}

impl From<Memory> for ReadFault {
    ghost from_gives = { λ _ e. e ≡ Tree faults.Memory };

    fn from(_e: Memory) -> ReadFault {
        ReadFault::Tree(TreeFault::Memory)
    }
}

impl From<AllocError> for ReadFault {
    ghost from_gives = { λ _ e. e ≡ Tree faults.Memory };

    fn from(_e: AllocError) -> ReadFault {
        ReadFault::Tree(TreeFault::Memory)
    }
}

impl<T: Drop> From<AllocFailed<T>> for ReadFault {
    ghost from_gives = { λ _ e. e ≡ Tree faults.Memory };

    fn from(_e: AllocFailed<T>) -> ReadFault {
        ReadFault::Tree(TreeFault::Memory)
    }
}
