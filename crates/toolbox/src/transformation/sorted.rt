//! The lines in byte order.

ghost use Rattle.std.specs.Prelude.{◌≡◌, IfOk};
ghost use Rattle.toolbox.specs.Lines.{bytes_of, lines};
ghost use Rattle.toolbox.specs.Transformation.Sorted.{in_order, sorted};

use crate::lines::{lines, written};
use outside::{Blob, Memory};
use std::alloc::Global;

fn sorted_lines(alloc: Global, input: &[u8]) -> Result<Vec<&[u8]>, Memory>
    ensures { IfOk result (λ v. bytes_of v.items ≡ in_order (lines input.now)) }
{
    let mut lines = lines(alloc, input)?;
    lines.sort()?;
    Ok(lines)
}

/// The lines in byte order, equal ones kept.
pub(crate) fn make(alloc: Global, input: &[u8]) -> Result<Blob, Memory>
    ensures { IfOk result (λ b. b ≡ sorted input.now) }
{
    let lines = sorted_lines(alloc, input)?;
    written(alloc, &lines)
}
