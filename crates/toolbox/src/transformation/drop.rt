//! The lines after the first.

ghost use Rattle.std.specs.Prelude.{◌≡◌, IfOk, drop};
ghost use Rattle.toolbox.specs.Lines.{lines, written};
ghost use Rattle.toolbox.specs.Transformation.{Gives};
ghost use Rattle.toolbox.specs.Transformation.Drop.{dropped};

use crate::lines::{cut_after, lines, written};
use crate::number::first_number;
use outside::{Blob, Memory, Text, ToolFault};
use std::alloc::Global;

fn later_lines(alloc: Global, count: u64, input: &[u8]) -> Result<Blob, Memory>
    ensures { IfOk result (λ b. b ≡ written (drop count (lines input.now))) }
{
    let lines = lines(alloc, input)?;
    let (_, back) = cut_after(&lines, count);
    written(alloc, back)
}

/// The lines after the first, as many as the first argument says.
pub(crate) fn make(alloc: Global, args: &[Text], input: &[u8]) -> Result<Blob, ToolFault>
    ensures { Gives (dropped args.now input.now) result }
{
    match first_number(args) {
        Some(count) => Ok(later_lines(alloc, count, input)?),
        None => Err(ToolFault::Declined),
    }
}
