//! The lines in which a pattern stands.

ghost use Rattle.std.specs.Prelude.{◌≡◌, ◌<◌, IfOk, length};
ghost use Rattle.std.specs.List.{filter};
ghost use Rattle.toolbox.specs.Lines.{bytes_of, lines, written};
ghost use Rattle.toolbox.specs.Transformation.{Gives};
ghost use Rattle.toolbox.specs.Transformation.Holds.{holding, stands_in};

use crate::lines::{lines, push_line_if};
use memchr::memmem::Finder;
use outside::{Blob, Memory, Text, ToolFault};
use std::alloc::Global;

fn stands_in(finder: &Finder<'_>, line: &[u8]) -> bool
    ensures { result ≡ stands_in finder.now line.now }
{
    finder.find(line).is_some()
}

fn matching_lines(alloc: Global, pattern: &[u8], lines: &[&[u8]]) -> Result<Blob, Memory>
    ensures { IfOk result (λ b. b ≡ written (filter (stands_in pattern.now) (bytes_of lines.now))) }
{
    let finder = Finder::new(pattern);
    let mut text = Vec::new(alloc);
    for line in lines {
        let wanted = stands_in(&finder, line);
        push_line_if(&mut text, line, wanted)?;
    }
    Ok(Blob::new(text))
}

fn holding(alloc: Global, pattern: &[u8], input: &[u8]) -> Result<Blob, Memory>
    ensures { IfOk result (λ b. b ≡ written (filter (stands_in pattern.now) (lines input.now))) }
{
    let lines = lines(alloc, input)?;
    matching_lines(alloc, pattern, &lines)
}

/// The lines in which the first argument stands, which isn't empty.
pub(crate) fn make(alloc: Global, args: &[Text], input: &[u8]) -> Result<Blob, ToolFault>
    ensures { Gives (holding args.now input.now) result }
{
    let [pattern, ..] = args else {
        return Err(ToolFault::Declined);
    };
    if pattern.as_bytes().is_empty() {
        return Err(ToolFault::Declined);
    }
    Ok(holding(alloc, pattern.as_bytes(), input)?)
}
