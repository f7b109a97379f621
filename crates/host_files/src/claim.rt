//! The working folder, which one run has at a time.

use std::fs::{File, TryLockError};

/// An open folder that a process can have for itself until it is closed.
pub trait Claim {
    /// Whether it is had now: no other process has it, or the system can't tell, as over some networks.
    fn claim(&self) -> bool;
}

impl Claim for File {
    fn claim(&self) -> bool {
        match self.try_lock() {
            Err(TryLockError::WouldBlock) => false,
            Ok(()) | Err(TryLockError::Error(_)) => true,
        }
    }
}
