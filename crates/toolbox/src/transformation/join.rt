//! All bytes of the inputs.

ghost use Rattle.std.specs.Prelude.{◌≡◌, IfOk};
ghost use Rattle.toolbox.specs.Transformation.Join.{joined};

use outside::{Blob, Memory};
use std::alloc::Global;

/// The inputs, one after the other.
pub(crate) fn make(alloc: Global, ins: &[Blob]) -> Result<Blob, Memory>
    ensures { IfOk result (λ b. b ≡ joined ins.now) }
{
    let mut bytes = Vec::new(alloc);
    for piece in ins {
        bytes.extend_from_slice(piece.as_slice())?;
    }
    Ok(Blob::new(bytes))
}
