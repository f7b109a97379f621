//! What a rehearsal gives back.

use outside::MemoryHost;
use run_record::Record;

/// What a rehearsal that is done gives back: the record of its run, and the store that it ran over.
#[derive(Drop)]
pub struct Rehearsal {
    pub record: Record,
    pub host: MemoryHost,
}
