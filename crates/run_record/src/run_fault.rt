//! Why a run failed, with names.

use values::{TaskId, Text};

/// Why a run failed, with the names of its plan. Sizes are in bytes.
#[derive(Drop)]
pub enum RunFault {
    /// A file's name, and its pfn, where it isn't.
    ReplicaAbsent(Text, Text),
    /// A file's name, its declared size, and the length of its replica.
    ReplicaTooLong(Text, u64, u64),
    /// A file's name, the SHA-256 that is registered for it, and that of its replica.
    ChecksumDiffers(Text, [u8; 32], [u8; 32]),
    /// A job's id, the name of its output, the declared size, and the length.
    Oversize(Text, Text, u64, u64),
    /// Of this job's inputs its tool makes nothing.
    Declined(Text),
    /// The tool failed at this job.
    ToolFailed(Text),
    /// The host failed, at a task or outside any.
    HostFailed(Option<TaskId>),
    /// A site that was not empty.
    ScratchInUse(Text),
    /// A site, and the name of a file that a record says is stored there, where it isn't.
    PairAbsent(Text, Text),
    /// The same, with the size that the record says, and the length of the file that is there.
    LengthDiffers(Text, Text, u64, u64),
    Memory,
}
