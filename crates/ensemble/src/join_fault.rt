//! Why some members have no joint.

ghost use Rattle.std.specs.Prelude.{◌≡◌};
ghost use Rattle.ensemble.specs.declared.join_fault.JoinFault.TheVariants as faults;

use peg_json::Counted;
use values::Memory;

#[derive(Drop)]
pub enum JoinFault {
    /// How many jobs or files there are, and the limit.
    TooMany(Counted, u64, u64),
    Memory,
}

impl From<Memory> for JoinFault {
    ghost from_gives = { λ _ e. e ≡ faults.Memory };

    fn from(_e: Memory) -> JoinFault {
        JoinFault::Memory
    }
}
