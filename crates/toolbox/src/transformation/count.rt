//! The numbers of lines and of bytes.

ghost use Rattle.std.specs.Prelude.{◌≡◌, IfOk};
ghost use Rattle.toolbox.specs.Transformation.Count.{counted};

use crate::lines::lines;
use outside::{Blob, Memory};
use std::alloc::Global;

/// The number of lines, a space and the number of bytes, as a line.
pub(crate) fn make(alloc: Global, input: &[u8]) -> Result<Blob, Memory>
    ensures { IfOk result (λ b. b ≡ counted input.now) }
{
    let lines = lines(alloc, input)?.len();
    let bytes = input.len();
    let line = format!(in alloc; "{lines} {bytes}\n")?;
    Ok(Blob::new(line.into_bytes()))
}
