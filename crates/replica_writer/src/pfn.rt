//! Where a delivered file is found.

ghost use Rattle.std.specs.Prelude.{◌≡◌, IfOk};
ghost use Rattle.replica_writer.specs.Pfn.{pfn_of};

use host_files::path_in;
use std::alloc::Global;
use values::{Memory, Text};

/// The path at which a host of files delivers a file.
pub fn pfn_of(alloc: Global, lfn: &Text) -> Result<Text, Memory>
    ensures { IfOk result (λ pfn. pfn ≡ pfn_of lfn.now) }
{
    let path = path_in(alloc, "output", lfn.as_str())?;
    Ok(Text::new(path))
}
