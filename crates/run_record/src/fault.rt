//! Why a text isn't read as a record.

ghost use Rattle.std.specs.Prelude.{◌≡◌};
ghost use Rattle.run_record.specs.declared.fault.RecordFault.TheVariants.{Memory};

use values::Memory;

/// Why a text isn't read: the number, from 1, of the first line that isn't one of a record at its
/// place, or want of memory.
#[derive(Drop)]
pub enum RecordFault {
    Malformed(u64),
    Memory,
}

impl From<Memory> for RecordFault {
    ghost from_gives = { λ _ e. e ≡ Memory };

    fn from(_: Memory) -> RecordFault {
        RecordFault::Memory
    }
}
