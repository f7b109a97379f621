//! The first lines.

ghost use Rattle.std.specs.Prelude.{◌≡◌, IfOk, take};
ghost use Rattle.toolbox.specs.Lines.{lines, written};
ghost use Rattle.toolbox.specs.Transformation.{Gives};
ghost use Rattle.toolbox.specs.Transformation.Take.{taken};

use crate::lines::{cut_after, lines, written};
use crate::number::first_number;
use outside::{Blob, Memory, Text, ToolFault};
use std::alloc::Global;

fn first_lines(alloc: Global, count: u64, input: &[u8]) -> Result<Blob, Memory>
    ensures { IfOk result (λ b. b ≡ written (take count (lines input.now))) }
{
    let lines = lines(alloc, input)?;
    let (front, _) = cut_after(&lines, count);
    written(alloc, front)
}

/// The first lines, as many as the first argument says.
pub(crate) fn make(alloc: Global, args: &[Text], input: &[u8]) -> Result<Blob, ToolFault>
    ensures { Gives (taken args.now input.now) result }
{
    match first_number(args) {
        Some(count) => Ok(first_lines(alloc, count, input)?),
        None => Err(ToolFault::Declined),
    }
}
