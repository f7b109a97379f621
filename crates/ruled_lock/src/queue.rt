//! Those who wait for the turn.

use std::hint::spin_loop;
use std::sync::Wait;
use std::sync::atomic::{AtomicU64, Ordering};

/// How often one who waits looks before it sleeps: about as long as a turn takes.
const LOOKS: u32 = 3000;

/// Counts who looks whether the turn is free and who sleeps. Whoever gives the turn back wakes one who sleeps where nobody
/// looks. It decides when someone looks, and not what is found, so it has no clauses.
#[derive(Drop)]
pub(crate) struct Queue {
    looking: AtomicU64,
    asleep: AtomicU64,
    /// 1 from a call until the one that it woke looks.
    called: AtomicU64,
    /// Grows by one with each call; those who sleep do so on it.
    calls: AtomicU64,
}

/// How one who wants the turn waits for it.
#[derive(Clone, Copy)]
pub(crate) enum Waiting {
    /// It has just come.
    NotYet,
    /// It has looked so often since it came or woke.
    Looks(u32),
    /// It sleeps next, unless there is a call more than these.
    Sleeps(u64),
}

impl Queue {
    pub(crate) fn new() -> Queue {
        Queue {
            looking: AtomicU64::new(0),
            asleep: AtomicU64::new(0),
            called: AtomicU64::new(0),
            calls: AtomicU64::new(0),
        }
    }

    /// After a look that found the turn taken. One who sleeps next looks once more before, since the turn may have been given
    /// back by someone who saw it look still.
    pub(crate) fn wait<R: Wait>(&self, rt: &R, waiting: Waiting) -> Waiting {
        match waiting {
            Waiting::NotYet => {
                self.looking.fetch_add(1, Ordering::SeqCst);
                Waiting::Looks(1)
            }
            Waiting::Looks(count) if count < LOOKS => {
                spin_loop();
                Waiting::Looks(count + 1)
            }
            Waiting::Looks(_) => self.lie_down(),
            Waiting::Sleeps(calls) => {
                self.calls.park(rt, low_half(calls));
                self.looking.fetch_add(1, Ordering::SeqCst);
                self.rise();
                Waiting::Looks(0)
            }
        }
    }

    fn lie_down(&self) -> Waiting {
        self.asleep.fetch_add(1, Ordering::SeqCst);
        let calls = self.calls.load(Ordering::SeqCst);
        self.called.store(0, Ordering::SeqCst);
        self.looking.fetch_sub(1, Ordering::SeqCst);
        Waiting::Sleeps(calls)
    }

    fn rise(&self) {
        self.called.store(0, Ordering::SeqCst);
        self.asleep.fetch_sub(1, Ordering::SeqCst);
    }

    /// After a look that found the turn free, and took it.
    pub(crate) fn leave(&self, waiting: Waiting) {
        match waiting {
            Waiting::NotYet => {}
            Waiting::Looks(_) => {
                self.looking.fetch_sub(1, Ordering::SeqCst);
            }
            Waiting::Sleeps(_) => self.rise(),
        }
    }

    /// After the turn was given back.
    pub(crate) fn call(&self) {
        if self.looking.load(Ordering::SeqCst) == 0
            && self.asleep.load(Ordering::SeqCst) > 0
            && self.called.swap(1, Ordering::SeqCst) == 0
        {
            self.calls.fetch_add(1, Ordering::SeqCst);
            self.calls.wake_one();
        }
    }
}

/// The half of a word that a thread can sleep on.
pub(crate) fn low_half(word: u64) -> u32 {
    (word & 0xffff_ffff) as u32
}
