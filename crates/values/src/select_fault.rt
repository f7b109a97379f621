//! Why a job has no site.

ghost use Rattle.std.specs.Prelude.{◌≡◌};
ghost use Rattle.values.specs.declared.select_fault.SelectFault.TheVariants as faults;

use crate::memory::Memory;
use crate::numbers::JobId;
use crate::text::Text;

/// Why a job that has to run has no site.
#[derive(Drop)]
pub enum SelectFault {
    /// A job that is pinned, and the name, which is no execution site's.
    NoSite(JobId, Text),
    /// A job without candidates.
    NoTransformation(JobId),
    Memory,
}

impl From<Memory> for SelectFault {
    ghost from_gives = { λ _ e. e ≡ faults.Memory };

    fn from(_e: Memory) -> SelectFault {
        SelectFault::Memory
    }
}
