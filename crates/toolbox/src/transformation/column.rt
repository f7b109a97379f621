//! One column.

ghost use Rattle.std.specs.Prelude.{◌≡◌, ◌==◌, ◌<◌, IfOk, map, slice_get};
ghost use Rattle.std.specs.List.{slice_split};
ghost use Rattle.std.specs.Option.{option_copied};
ghost use Rattle.toolbox.specs.Lines.{bytes_of, lines, written};
ghost use Rattle.toolbox.specs.Transformation.{Gives};
ghost use Rattle.toolbox.specs.Transformation.Column.{column, piece};

use crate::lines::{lines, push_line};
use crate::number::first_number;
use outside::{Blob, Memory, Text, ToolFault};
use std::alloc::Global;

fn nth_piece(line: &[u8], index: usize) -> Option<&[u8]>
    ensures { option_copied result ≡ slice_get (slice_split (λ b. b == 9) line.now) index }
{
    line.split(|b| *b == b'\t').nth(index)
}

/// The piece between tabs at a place, from 1, or nothing.
fn piece(line: &[u8], place: u64) -> &[u8]
    requires { 0 < place }
    ensures { result.now ≡ piece place line.now }
{
    match nth_piece(line, place as usize - 1) {
        Some(piece) => piece,
        None => &[],
    }
}

fn pieces(alloc: Global, place: u64, lines: &[&[u8]]) -> Result<Blob, Memory>
    requires { 0 < place }
    ensures { IfOk result (λ b. b ≡ written (map (piece place) (bytes_of lines.now))) }
{
    let mut text = Vec::new(alloc);
    for line in lines {
        push_line(&mut text, piece(line, place))?;
    }
    Ok(Blob::new(text))
}

fn column(alloc: Global, place: u64, input: &[u8]) -> Result<Blob, Memory>
    requires { 0 < place }
    ensures { IfOk result (λ b. b ≡ written (map (piece place) (lines input.now))) }
{
    let lines = lines(alloc, input)?;
    pieces(alloc, place, &lines)
}

/// Of each line the piece between tabs that the first argument says, from 1.
pub(crate) fn make(alloc: Global, args: &[Text], input: &[u8]) -> Result<Blob, ToolFault>
    ensures { Gives (column args.now input.now) result }
{
    match first_number(args) {
        Some(place) if place > 0 => Ok(column(alloc, place, input)?),
        _ => Err(ToolFault::Declined),
    }
}
