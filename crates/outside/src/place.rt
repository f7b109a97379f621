//! Where a file is to stand.

use values::Text;

/// A place of a store: a site and a file's name there, or the name of a delivered file.
#[derive(Drop)]
pub enum Place {
    Scratch(Text, Text),
    Delivery(Text),
}
