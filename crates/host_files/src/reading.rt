//! Reading a file that isn't longer than a limit.

ghost use Rattle.std.specs.Prelude.{◌≡◌, ◌+◌, ◌≤◌, IfSome, [], length};
ghost use Rattle.host_files.specs.Reading.{HasRead, HasReadFront};

use std::io::Read;

/// How a reading of a file ended.
pub enum Reading {
    Whole,
    /// The file has more bytes than the limit: so many.
    Longer(u64),
    Failed,
    Memory,
}

/// Reads a file to its end, or until it is longer than the limit. `Longer` says then how many bytes were read.
pub fn read_front<F: Read>(file: &mut F, limit: u64, into: &mut Vec<u8>) -> Reading
    requires { into.old.items ≡ [] }
    ensures { HasReadFront (F.remaining file.old) (F.remaining file.new) limit result into.new.items }
{
    let mut piece = [0u8; 16384];
    for _ in 0..u64::MAX {
        let count = match file.read(&mut piece) {
            Ok(0) => return Reading::Whole,
            Ok(count) => count,
            Err(_) => return Reading::Failed,
        };
        let room = limit.saturating_sub(into.len() as u64);
        if count as u64 > room {
            return Reading::Longer(into.len() as u64 + count as u64);
        }
        match into.extend_from_slice(&piece[..count]) {
            Ok(()) => {}
            Err(_) => return Reading::Memory,
        }
    }
    Reading::Failed
}

/// Reads on to a file's end without keeping the bytes, and tells how many it has with those that were read before.
fn count_on<F: Read>(file: &mut F, read: u64) -> Option<u64>
    ensures more { IfSome result (λ n. read ≤ n) }
    ensures all { IfSome result (λ n. IfSome (F.remaining file.old) (λ rest. n ≡ read + length rest)) }
{
    let mut piece = [0u8; 16384];
    let mut length = read;
    for _ in 0..u64::MAX {
        match file.read(&mut piece) {
            Ok(0) => return Some(length),
            Ok(count) if count as u64 <= u64::MAX - length => length += count as u64,
            _ => return None,
        }
    }
    None
}

/// Reads a file to its end, and keeps the bytes up to the limit. `Longer` says then how many it has.
pub fn read_within<F: Read>(file: &mut F, limit: u64, into: &mut Vec<u8>) -> Reading
    requires { into.old.items ≡ [] }
    ensures { HasRead (F.remaining file.old) limit result into.new.items }
{
    match read_front(file, limit, into) {
        Reading::Longer(read) => match count_on(file, read) {
            Some(length) => Reading::Longer(length),
            None => Reading::Failed,
        },
        ended => ended,
    }
}
