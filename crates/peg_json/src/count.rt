//! Limits on how many elements a document has.

ghost use Rattle.std.specs.Prelude.{◌≡◌};
ghost use Rattle.peg_json.specs.Elements.{few};

use crate::read_fault::{Counted, ReadFault};

/// Refuses a count above its limit.
pub fn at_most(counted: Counted, limit: u64, count: u64) -> Result<(), ReadFault>
    ensures { result ≡ few counted limit count }
{
    if limit < count {
        return Err(ReadFault::TooMany(counted, count, limit));
    }
    Ok(())
}
