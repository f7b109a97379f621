//! The sum of the lines.

ghost use Rattle.std.specs.Prelude.{◌≡◌, ◌++◌, IfOk, codes};
ghost use Rattle.std.specs.Fmt.{decimal};
ghost use Rattle.std.specs.List.{sum};
ghost use Rattle.std.specs.Option.{option_map};
ghost use Rattle.toolbox.specs.Lines.{bytes_of};
ghost use Rattle.toolbox.specs.Transformation.{Gives};
ghost use Rattle.toolbox.specs.Transformation.Total.{numbers, total};

use crate::lines::lines;
use crate::number::number_of;
use outside::{Blob, Memory, ToolFault};
use std::alloc::Global;

/// The sum, where each line is a number. Even 2^64 lines are below 2^124.
fn sum(lines: &[&[u8]]) -> Option<u128>
    ensures { result ≡ option_map (λ ns. sum ns) (numbers (bytes_of lines.now)) }
{
    let mut total: u128 = 0;
    for line in lines {
        match number_of(line) {
            Some(number) => total += u128::from(number),
            None => return None,
        }
    }
    Some(total)
}

fn number_line(alloc: Global, number: u128) -> Result<Blob, Memory>
    ensures { IfOk result (λ b. b ≡ decimal number ++ codes "\n") }
{
    let line = format!(in alloc; "{number}\n")?;
    Ok(Blob::new(line.into_bytes()))
}

/// The sum of the lines, each a number of one to eighteen digits.
pub(crate) fn make(alloc: Global, input: &[u8]) -> Result<Blob, ToolFault>
    ensures { Gives (total input.now) result }
{
    let lines = lines(alloc, input)?;
    match sum(&lines) {
        Some(total) => Ok(number_line(alloc, total)?),
        None => Err(ToolFault::Declined),
    }
}
