//! The SHA-256 in hexadecimal digits.

ghost use Rattle.std.specs.Prelude.{◌≡◌, IfOk};
ghost use Rattle.toolbox.specs.Transformation.Digest.{digest};

use hex::encode;
use outside::{Blob, Memory};
use sha2::{Digest, Sha256};
use std::alloc::Global;

/// The SHA-256 in 64 lower-case hexadecimal digits, as a line.
pub(crate) fn make(alloc: Global, input: &[u8]) -> Result<Blob, Memory>
    ensures { IfOk result (λ b. b ≡ digest input.now) }
{
    let digest = Sha256::digest(input);
    let mut line = encode(alloc, digest.as_slice())?;
    line.push_str("\n")?;
    Ok(Blob::new(line.into_bytes()))
}
