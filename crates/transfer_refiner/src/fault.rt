//! Why there is no plan.

ghost use Rattle.std.specs.Prelude.{◌≡◌};
ghost use Rattle.transfer_refiner.specs.declared.fault.RefineFault.TheVariants.{Memory};

use values::{Memory, Text};

#[derive(Drop)]
pub enum RefineFault {
    /// The file that a kept job reads, that no kept job makes, and that has no pfn.
    NoReplica(Text),
    /// The file that a task moves or writes, and that has no declared size.
    NoSize(Text),
    /// How many tasks there would be, and how many there may be.
    TooMany(u64, u64),
    Memory,
}

impl From<Memory> for RefineFault {
    ghost from_gives = { λ _ e. e ≡ Memory };

    fn from(_e: Memory) -> RefineFault {
        RefineFault::Memory
    }
}
