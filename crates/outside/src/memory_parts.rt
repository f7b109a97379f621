//! Parts of a store in memory.

ghost use Rattle.std.specs.Prelude.{◌≡◌, ◌≤◌, ◌<◌, ◌+◌, ◌++◌, ◌↔◌, IfOk, IsErrOf, OnErr, OnOk, Some, drop, length, take, true};
ghost use Rattle.outside.specs.code.Parts.{AppendsOn, DraftState, ReadState, ReadsOn};

use crate::failing::Failing;
use crate::host::HostFault;
use crate::parts::{ReadPart, WritePart};
use crate::place::Place;
use std::alloc::Global;
use values::{Blob, Memory};

/// A file that is read, with a copy of its bytes.
#[derive(Drop)]
pub struct MemoryReading {
    pub(crate) bytes: Blob,
    pub(crate) at: usize,
    pub(crate) failing: Failing,
    pub(crate) faults: u64,
    ghost within: { at ≤ length bytes },
}

/// A file that is written.
#[derive(Drop)]
pub struct MemoryDraft {
    pub(crate) place: Place,
    pub(crate) bytes: Vec<u8>,
    pub(crate) limit: u64,
    pub(crate) failing: Failing,
    pub(crate) faults: u64,
}

/// Copies what stands from a place on to the front of a slice, as much as it takes.
fn copy_next(bytes: &[u8], at: usize, into: &mut [u8]) -> usize
    requires { at ≤ length bytes.now }
    ensures room { result ≤ length into.old }
    ensures long { length into.new ≡ length into.old }
    ensures within { at + result ≤ length bytes.now }
    ensures copied { take result into.new ≡ take result (drop at bytes.now) }
    ensures ends { result ≡ 0 → 0 < length into.old → length bytes.now ≤ at }
{
    let (_, rest) = bytes.split_at(at);
    let count = rest.len().min(into.len());
    into[..count].copy_from_slice(&rest[..count]);
    count
}

impl ReadPart for MemoryReading {
    ghost use Rattle.outside.specs.code.Failing.{IsNextCall, fails_next};
    ghost use Rattle.outside.specs.code.MemoryParts.{reading_failing, reading_state};
    ghost use Rattle.std.specs.Prelude.{◌↔◌, IsErrOf, Some, length, true};

    ghost state = { λ r. record {
      told = Some r.bytes;
      given = r.at;
      size = length r.bytes;
      faults = r.faults;
    } };

    fn faults(&self) -> u64 {
        self.faults
    }

    fn length(&self) -> u64 {
        self.bytes.as_slice().len() as u64
    }

    fn read(&mut self, into: &mut [u8]) -> Result<usize, HostFault>
        ensures answer { ReadsOn (reading_state self.old) (reading_state self.new) into.old into.new result }
        // A call fails exactly where its number is listed.
        ensures failed { IsErrOf result HostFault.Failed ↔ (fails_next (reading_failing self.old) ≡ true) }
        ensures call { IsNextCall (reading_failing self.old) (reading_failing self.new) }
    {
        if self.failing.call() {
            self.faults = self.faults.saturating_add(1);
            return Err(HostFault::Failed);
        }
        let count = copy_next(self.bytes.as_slice(), self.at, into);
        self.at += count;
        Ok(count)
    }
}

fn push_piece(bytes: &mut Vec<u8>, piece: &[u8]) -> Result<(), Memory>
    ensures ok { OnOk result (bytes.new.items ≡ bytes.old.items ++ piece.now) }
    ensures err { OnErr result (bytes.new.items ≡ bytes.old.items) }
{
    bytes.extend_from_slice(piece)?;
    Ok(())
}

impl WritePart for MemoryDraft {
    ghost use Rattle.outside.specs.code.Failing.{IsNextCall, fails_next};
    ghost use Rattle.outside.specs.code.MemoryParts.{draft_failing, draft_state};
    ghost use Rattle.std.specs.Prelude.{◌↔◌, IsErrOf, Some, length, true};

    ghost state = { λ d. record {
      told = Some (record { place = d.place; bytes = d.bytes.items });
      size = length d.bytes.items;
      limit = d.limit;
      faults = d.faults;
    } };

    fn faults(&self) -> u64 {
        self.faults
    }

    fn length(&self) -> u64 {
        self.bytes.len() as u64
    }

    fn append(&mut self, _alloc: Global, piece: &[u8]) -> Result<(), HostFault>
        ensures answer { AppendsOn (draft_state self.old) (draft_state self.new) piece.now result }
        // A call fails exactly where its number is listed.
        ensures failed { IsErrOf result HostFault.Failed ↔ (fails_next (draft_failing self.old) ≡ true) }
        ensures call { IsNextCall (draft_failing self.old) (draft_failing self.new) }
    {
        if self.failing.call() {
            self.faults = self.faults.saturating_add(1);
            return Err(HostFault::Failed);
        }
        let length = self.bytes.len() as u64 + piece.len() as u64;
        if length > self.limit {
            return Err(HostFault::Over(self.limit, length));
        }
        push_piece(&mut self.bytes, piece)?;
        Ok(())
    }
}
