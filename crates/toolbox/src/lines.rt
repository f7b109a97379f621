//! The lines of a file.

ghost use Rattle.std.specs.Prelude.{◌≡◌, ◌==◌, ◌++◌, ◌∷◌, [], IfOk, OnOk, cond, take, drop};
ghost use Rattle.toolbox.specs.Lines.{bytes_of, lines, without_empty_last, written};
ghost use Rattle.std.specs.List.{slice_split};

use outside::{Blob, Memory};
use std::alloc::Global;

/// The parts between line feeds, the last one too.
fn parts(alloc: Global, bytes: &[u8]) -> Result<Vec<&[u8]>, Memory>
    ensures { IfOk result (λ v. bytes_of v.items ≡ slice_split (λ b. b == 10) bytes.now) }
{
    Ok(bytes.split(|b| *b == b'\n').collect(alloc)?)
}

/// The lines of some bytes, without their line feeds.
#[tactic(auto, unfolding(crate::specs::Lines::lines))]
pub(crate) fn lines(alloc: Global, bytes: &[u8]) -> Result<Vec<&[u8]>, Memory>
    ensures { IfOk result (λ v. bytes_of v.items ≡ lines bytes.now) }
{
    let mut lines = parts(alloc, bytes)?;
    match lines.pop() {
        Some(last) => {
            if last.is_empty() {
                return Ok(lines);
            }
            lines.push(last)?;
            Ok(lines)
        }
        None => Ok(lines),
    }
}

/// Adds a line and its line feed.
pub(crate) fn push_line(text: &mut Vec<u8>, line: &[u8]) -> Result<(), Memory>
    ensures { OnOk result (text.new.items ≡ text.old.items ++ line.now ++ 10 ∷ []) }
{
    text.extend_from_slice(line)?;
    text.push(b'\n')?;
    Ok(())
}

/// Adds a line and its line feed, or nothing.
pub(crate) fn push_line_if(text: &mut Vec<u8>, line: &[u8], wanted: bool) -> Result<(), Memory>
    ensures { OnOk result (text.new.items ≡ text.old.items ++ (cond wanted (line.now ++ 10 ∷ []) [])) }
{
    if wanted {
        push_line(text, line)?;
    }
    Ok(())
}

/// The lines, each with a line feed.
pub(crate) fn written(alloc: Global, lines: &[&[u8]]) -> Result<Blob, Memory>
    ensures { IfOk result (λ b. b ≡ written (bytes_of lines.now)) }
{
    let mut text = Vec::new(alloc);
    for line in lines {
        push_line(&mut text, line)?;
    }
    Ok(Blob::new(text))
}

/// The first lines, at most so many, and the rest.
pub(crate) fn cut_after<'a, 'b>(
    lines: &'b [&'a [u8]],
    count: u64,
) -> (&'b [&'a [u8]], &'b [&'a [u8]])
    ensures front { bytes_of result.0.now ≡ take count (bytes_of lines.now) }
    ensures back { bytes_of result.1.now ≡ drop count (bytes_of lines.now) }
{
    lines.split_at(lines.len().min(count as usize))
}
