//! Bytes between parts, outside the lock.

ghost use Rattle.std.specs.Prelude.{◌≡◌, ◌+◌, ◌<◌, ◌≤◌, ◌++◌, IfErr, IfOk, OnOk, length};
ghost use Rattle.task_work.specs.Pieces.{HasMoved, HasRead, HasWritten, IsPartFault, IsReadFault, IsSteadyDraft, IsSteadyReading, fails_in};

use outside::{Blob, HostFault, Memory, ReadPart, WritePart};
use sha2::{Digest, Sha256};
use std::alloc::Global;

/// How many bytes are moved at a time.
const PIECE: usize = 65536;

/// How many at a time of a file that is no longer, so that a short one clears no long piece.
const SHORT: usize = 4096;

/// What was moved: how many bytes, and their SHA-256.
#[derive(Clone, Copy)]
pub struct Moved {
    pub length: u64,
    pub digest: [u8; 32],
}

/// Moves a reading's bytes to a draft through a piece, and computes their digest on the way.
fn move_by<I: ReadPart, O: WritePart>(
    alloc: Global,
    reading: &mut I,
    draft: &mut O,
    piece: &mut [u8],
) -> Result<Moved, HostFault>
    requires start { (I.state reading.old).given ≡ 0 }
    requires empty { (O.state draft.old).size ≡ 0 }
    requires limit { (I.state reading.old).size ≤ (O.state draft.old).limit }
    requires room { 0 < length piece.old }
    ensures moved { IfOk result (λ m. HasMoved (I.state reading.old) (O.state draft.old)
        (O.state draft.new) m.length m.digest) }
    ensures fault { IfErr result (λ e. IsPartFault (I.state reading.old) (I.state reading.new)
        (O.state draft.old) (O.state draft.new) e) }
    ensures once { (I.state reading.new).faults + (O.state draft.new).faults
        ≤ (I.state reading.old).faults + (O.state draft.old).faults + fails_in result }
    ensures reading { IsSteadyReading (I.state reading.old) (I.state reading.new) }
    ensures draft { IsSteadyDraft (O.state draft.old) (O.state draft.new) }
{
    let mut hasher = Sha256::new();
    loop {
        let count = match reading.read(piece) {
            Ok(0) => {
                return Ok(Moved {
                    length: draft.length(),
                    digest: hasher.finalize(),
                });
            }
            Ok(count) => count,
            Err(fault) => return Err(fault),
        };
        let bytes = &piece[..count];
        hasher.update(bytes);
        match draft.append(alloc, bytes) {
            Ok(()) => {}
            Err(fault) => return Err(fault),
        }
    }
}

/// Moves a reading's bytes to a draft, in pieces, and computes their digest on the way.
pub fn move_pieces<I: ReadPart, O: WritePart>(
    alloc: Global,
    reading: &mut I,
    draft: &mut O,
) -> Result<Moved, HostFault>
    requires start { (I.state reading.old).given ≡ 0 }
    requires empty { (O.state draft.old).size ≡ 0 }
    requires limit { (I.state reading.old).size ≤ (O.state draft.old).limit }
    ensures moved { IfOk result (λ m. HasMoved (I.state reading.old) (O.state draft.old)
        (O.state draft.new) m.length m.digest) }
    ensures fault { IfErr result (λ e. IsPartFault (I.state reading.old) (I.state reading.new)
        (O.state draft.old) (O.state draft.new) e) }
    ensures once { (I.state reading.new).faults + (O.state draft.new).faults
        ≤ (I.state reading.old).faults + (O.state draft.old).faults + fails_in result }
    ensures reading { IsSteadyReading (I.state reading.old) (I.state reading.new) }
    ensures draft { IsSteadyDraft (O.state draft.old) (O.state draft.new) }
{
    if reading.length() <= SHORT as u64 {
        move_by(alloc, reading, draft, &mut [0u8; SHORT])
    } else {
        move_by(alloc, reading, draft, &mut [0u8; PIECE])
    }
}

fn push_piece(bytes: &mut Vec<u8>, piece: &[u8]) -> Result<(), Memory>
    ensures { OnOk result (bytes.new.items ≡ bytes.old.items ++ piece.now) }
{
    bytes.extend_from_slice(piece)?;
    Ok(())
}

/// All bytes of a reading, from its beginning, through a piece.
fn read_by<I: ReadPart>(alloc: Global, reading: &mut I, piece: &mut [u8]) -> Result<Blob, HostFault>
    requires start { (I.state reading.old).given ≡ 0 }
    requires room { 0 < length piece.old }
    ensures read { IfOk result (λ b. HasRead (I.state reading.old) b) }
    ensures fault { IfErr result (λ e. IsReadFault (I.state reading.old) (I.state reading.new) e) }
    ensures once { (I.state reading.new).faults ≤ (I.state reading.old).faults + fails_in result }
    ensures reading { IsSteadyReading (I.state reading.old) (I.state reading.new) }
{
    let mut bytes = Vec::new(alloc);
    loop {
        let count = match reading.read(piece) {
            Ok(0) => return Ok(Blob::new(bytes)),
            Ok(count) => count,
            Err(fault) => return Err(fault),
        };
        match push_piece(&mut bytes, &piece[..count]) {
            Ok(()) => {}
            Err(_) => return Err(HostFault::Memory),
        }
    }
}

/// All bytes of a reading, from its beginning.
pub fn read_whole<I: ReadPart>(alloc: Global, reading: &mut I) -> Result<Blob, HostFault>
    requires start { (I.state reading.old).given ≡ 0 }
    ensures read { IfOk result (λ b. HasRead (I.state reading.old) b) }
    ensures fault { IfErr result (λ e. IsReadFault (I.state reading.old) (I.state reading.new) e) }
    ensures once { (I.state reading.new).faults ≤ (I.state reading.old).faults + fails_in result }
    ensures reading { IsSteadyReading (I.state reading.old) (I.state reading.new) }
{
    if reading.length() <= SHORT as u64 {
        read_by(alloc, reading, &mut [0u8; SHORT])
    } else {
        read_by(alloc, reading, &mut [0u8; PIECE])
    }
}

/// Writes bytes to an empty draft.
pub fn write_whole<O: WritePart>(
    alloc: Global,
    draft: &mut O,
    bytes: &[u8],
) -> Result<(), HostFault>
    requires empty { (O.state draft.old).size ≡ 0 }
    requires limit { length bytes.now ≤ (O.state draft.old).limit }
    ensures answer { HasWritten (O.state draft.old) (O.state draft.new) bytes.now result }
{
    draft.append(alloc, bytes)
}
