//! The numbers of an entry are within their types, so that its event is one that an entry may be.

ghost use Rattle.std.specs.Prelude.{◌≡◌, ◌<◌, ◌^◌, length, map};
ghost use Rattle.hex.specs.Hex.{IsBytes};
ghost use Rattle.run_record.specs.code.Events.{event};
ghost use Rattle.run_record.specs.code.RecordText.{AllFit};
ghost use Rattle.run_record.specs.RecordText.{Size, cause_words, entry_words};

use crate::entry::{Cause, Entry};
use values::TaskId;

fn number_fits(number: u32)
    ensures { number < 2 ^ 32 }
{}

fn size_fits(size: u64)
    ensures { size < 2 ^ 64 }
{}

fn grant_fits(worker: u32, task: TaskId)
    ensures worker { worker < 2 ^ 32 }
    ensures task { task.0 < 2 ^ 32 }
{}

fn bytes_fit(bytes: &[u8])
    ensures { IsBytes bytes.now }
{}

fn digest_fits(digest: &[u8; 32])
    ensures length { length digest.now ≡ 32 }
    ensures bytes { IsBytes digest.now }
{
    bytes_fit(digest);
}

fn sizes_fit(sizes: &[u64])
    ensures { AllFit (map Size sizes.now) }
{}

fn cause_fits(cause: &Cause)
    ensures { AllFit (cause_words cause.now) }
{
    match cause {
        Cause::TooLong(length) => size_fits(*length),
        Cause::Checksum(digest) => digest_fits(digest),
        Cause::Oversize(job, file, size) => {
            number_fits(job.0);
            number_fits(file.0);
            size_fits(*size);
        }
        Cause::Declined(job) => number_fits(job.0),
        Cause::ToolFailed(job) => number_fits(job.0),
        _ => {}
    }
}

/// The numbers of an entry are within their types.
pub fn entry_fits(entry: &Entry<'_>)
    ensures { AllFit (entry_words (event entry.now)) }
{
    match entry {
        Entry::Grant { worker, task } => grant_fits(*worker, *task),
        Entry::Arrive { worker, task, size } => {
            grant_fits(*worker, *task);
            size_fits(*size);
        }
        Entry::End {
            worker,
            task,
            sizes,
        } => {
            grant_fits(*worker, *task);
            sizes_fit(sizes);
        }
        Entry::Clean { worker, task } => grant_fits(*worker, *task),
        Entry::Fail {
            worker,
            task,
            cause,
            published,
        } => {
            grant_fits(*worker, *task);
            cause_fits(cause);
            sizes_fit(published);
        }
        Entry::Again {
            worker,
            task,
            cause,
            published,
        } => {
            grant_fits(*worker, *task);
            cause_fits(cause);
            sizes_fit(published);
        }
        Entry::Regrant { worker, task } => grant_fits(*worker, *task),
    }
}
