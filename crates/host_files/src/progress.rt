//! How many jobs have begun, shown on a terminal.

use std::io::{Eprint, Print};
use std::sync::atomic::{AtomicBool, AtomicU64, Ordering};
use std::time::Clock;

/// How many jobs have begun, of all tools that share it; on a terminal it is a line that is written over.
#[derive(Drop)]
pub struct Progress<R> {
    rt: R,
    shows: bool,
    begun: AtomicU64,
    /// The tenth of a second in which the line was written last.
    tenth: AtomicU64,
    stands: AtomicBool,
}

impl<R: Clock + Eprint> Progress<R> {
    /// `shows` is whether standard error is a terminal; where it is none, nothing is written to it.
    pub fn new(rt: R, shows: bool) -> Progress<R> {
        Progress {
            rt,
            shows,
            begun: AtomicU64::new(0),
            tenth: AtomicU64::new(0),
            stands: AtomicBool::new(false),
        }
    }

    /// Counts a job that begins.
    pub(crate) fn begin(&self) {
        self.begun.fetch_add(1, Ordering::SeqCst);
    }

    /// Whether the line may be written now: once in each tenth of a second, by one of those that share it.
    fn is_due(&self) -> bool {
        let Ok(now) = self.rt.monotonic() else {
            return false;
        };
        let tenth = now
            .as_secs()
            .saturating_mul(10)
            .saturating_add(u64::from(now.subsec_millis() / 100));
        let last = self.tenth.load(Ordering::SeqCst);
        tenth > last
            && self
                .tenth
                .compare_exchange(last, tenth, Ordering::SeqCst, Ordering::SeqCst)
                .is_ok()
    }

    /// Writes the line, if it may be. That a terminal took none of it changes nothing.
    pub(crate) fn show(&self) {
        if self.shows && self.is_due() {
            let begun = self.begun.load(Ordering::SeqCst);
            self.stands.store(true, Ordering::SeqCst);
            let _taken = eprint!(self.rt; "\rjobs begun: {begun:<8}");
        }
    }

    /// Takes the line off the terminal, if one stands there.
    pub fn wipe(&self) {
        if self.stands.swap(false, Ordering::SeqCst) {
            let _taken = eprint!(self.rt; "\r{:20}\r", "");
        }
    }
}
