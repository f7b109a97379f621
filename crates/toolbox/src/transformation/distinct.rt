//! The lines that did not occur before.

ghost use Rattle.std.specs.Prelude.{◌≡◌, [], IfOk};
ghost use Rattle.toolbox.specs.Lines.{bytes_of, written};
ghost use Rattle.toolbox.specs.Transformation.Distinct.{distinct, new_lines};

use crate::lines::{lines, push_line_if};
use outside::{Blob, Memory};
use std::alloc::Global;
use std::collections::BTreeSet;

fn distinct_lines(alloc: Global, lines: &[&[u8]]) -> Result<Blob, Memory>
    ensures { IfOk result (λ b. b ≡ written (new_lines [] (bytes_of lines.now))) }
{
    let mut seen = BTreeSet::new(alloc);
    let mut text = Vec::new(alloc);
    for line in lines {
        let is_new = seen.insert(*line)?;
        push_line_if(&mut text, line, is_new)?;
    }
    Ok(Blob::new(text))
}

/// The lines without those that occurred before.
pub(crate) fn make(alloc: Global, input: &[u8]) -> Result<Blob, Memory>
    ensures { IfOk result (λ b. b ≡ distinct input.now) }
{
    let lines = lines(alloc, input)?;
    distinct_lines(alloc, &lines)
}
