//! What is wrong with an ensemble's document.

ghost use Rattle.std.specs.Prelude.{◌≡◌};
ghost use Rattle.peg_json.specs.declared.fault.TreeFault.TheVariants as faults;
ghost use Rattle.peg_json.specs.declared.read_fault.ReadFault.TheVariants as reads;
ghost use Rattle.ensemble.specs.declared.fault.EnsembleFault.TheVariants.{Read};

use peg_json::{ReadFault, TreeFault};
use values::{Memory, Text};

/// Why bytes are no ensemble.
#[derive(Drop)]
pub enum EnsembleFault {
    /// A fault of the tree, or of the execution sites.
    Read(ReadFault),
    /// How many members there are, and the limit.
    TooMany(u64, u64),
    DuplicateMember(Text),
}

impl From<ReadFault> for EnsembleFault {
    ghost from_gives = { λ x e. e ≡ Read x };

    fn from(fault: ReadFault) -> EnsembleFault {
        EnsembleFault::Read(fault)
    }
}

impl From<Memory> for EnsembleFault {
    ghost from_gives = { λ _ e. e ≡ Read (reads.Tree faults.Memory) };

    fn from(_e: Memory) -> EnsembleFault {
        EnsembleFault::Read(ReadFault::Tree(TreeFault::Memory))
    }
}
