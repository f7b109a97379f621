//! A sink in memory.

ghost use Rattle.std.specs.Prelude.{◌≡◌, ◌≤◌, ◌<◌, [], IfOk, vec_capacity, length};

use crate::failing::Failing;
use crate::sink::{Sink, SinkFault};
use std::alloc::Global;
use values::Memory;

/// A sink with room for so many bytes, of which one write takes a few at most.
#[derive(Drop)]
pub struct MemorySink {
    bytes: Vec<u8>,
    room: usize,
    most: usize,
    failing: Failing,
    faults: u64,
    ghost most_is_not_none: { 0 < most },
    ghost room_is_reserved: { room ≤ vec_capacity bytes },
    ghost room_is_kept: { length bytes.items ≤ room },
}

impl MemorySink {
    ghost use Rattle.outside.specs.code.Failing.{calls_made, failing_calls};
    ghost use Rattle.outside.specs.code.MemorySink.{sink_bytes, sink_failing, sink_faults, sink_most, sink_room};

    /// Nothing written. `failing` lists the writes that are to fail, by number from 1.
    pub fn new(
        alloc: Global,
        room: usize,
        most: usize,
        failing: Vec<u64>,
    ) -> Result<MemorySink, Memory>
        requires { 0 < most }
        ensures bytes { IfOk result (λ s. sink_bytes s ≡ []) }
        ensures failing { IfOk result (λ s. failing_calls (sink_failing s) ≡ failing.items) }
        ensures calls { IfOk result (λ s. calls_made (sink_failing s) ≡ 0) }
        ensures faults { IfOk result (λ s. sink_faults s ≡ 0) }
        ensures room { IfOk result (λ s. sink_room s ≡ room) }
        ensures most { IfOk result (λ s. sink_most s ≡ most) }
    {
        let bytes = Vec::with_capacity(alloc, room)?;
        Ok(MemorySink {
            bytes,
            room,
            most,
            failing: Failing::new(failing),
            faults: 0,
        })
    }

    pub fn bytes(&self) -> &[u8]
        ensures { result.now ≡ sink_bytes self.now }
    {
        &self.bytes
    }
}

impl Sink for MemorySink {
    ghost use Rattle.std.specs.Prelude.{◌↔◌, IsErr, Some, true};
    ghost use Rattle.outside.specs.code.Failing.{IsNextCall};
    ghost use Rattle.outside.specs.code.MemorySink.{counted, refuses_next, sink_bytes, sink_failing, sink_faults, sink_most, sink_room, takes_next};
    ghost use Rattle.outside.specs.code.Sink.{Wrote};

    ghost written = { λ s. Some s.bytes.items };

    ghost faults = { λ s. s.faults };

    fn faults(&self) -> u64 {
        self.faults
    }

    fn write(&mut self, piece: &[u8]) -> Result<usize, SinkFault>
        ensures answer { Wrote (Some (sink_bytes self.old))
            (Some (sink_bytes self.new)) self.old.faults self.new.faults piece.now result }
        ensures faults { self.old.faults ≤ self.new.faults }
        // A write fails exactly where its number is listed, or no room is left for its first byte.
        ensures failed { IsErr result ↔ (refuses_next self.old piece.now ≡ true) }
        ensures taken { IfOk result (λ n. n ≡ takes_next self.old piece.now) }
        ensures call { IsNextCall (sink_failing self.old) (sink_failing self.new) }
        ensures room { sink_room self.new ≡ sink_room self.old }
        ensures most { sink_most self.new ≡ sink_most self.old }
        ensures by_one { sink_faults self.new ≡ counted result (sink_faults self.old) }
    {
        let fails = self.failing.call();
        let full = self.bytes.len() >= self.room && !piece.is_empty();
        if fails || full {
            self.faults = self.faults.saturating_add(1);
            return Err(SinkFault::Failed);
        }
        let left = self.room.saturating_sub(self.bytes.len());
        let n = piece.len().min(self.most).min(left);
        match self.bytes.extend_from_slice(&piece[..n]) {
            Ok(()) => Ok(n),
            Err(_) => {
                self.faults = self.faults.saturating_add(1);
                Err(SinkFault::Failed)
            }
        }
    }
}
