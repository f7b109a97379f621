//! Those who wait for a change.

use crate::queue::low_half;
use std::sync::Wait;
use std::sync::atomic::{AtomicU64, Ordering};

/// Counts the turns that added an item, and who sleeps until there is another one. Where nobody sleeps, a call costs nothing.
#[derive(Drop)]
pub(crate) struct News {
    turns: AtomicU64,
    asleep: AtomicU64,
}

/// How far a pass has followed the news.
#[derive(Clone, Copy)]
pub(crate) struct Heard {
    turns: u64,
    entries: u64,
}

impl Heard {
    /// Of a pass that has heard of no turn.
    pub(crate) fn nothing() -> Heard {
        Heard {
            turns: 0,
            entries: 0,
        }
    }

    /// A turn begins, at this length of the journal.
    pub(crate) fn begin_turn(&mut self, entries: u64) {
        self.entries = entries;
    }
}

impl News {
    pub(crate) fn new() -> News {
        News {
            turns: AtomicU64::new(0),
            asleep: AtomicU64::new(0),
        }
    }

    /// A turn ends, at this length of the journal. Only the pass with the turn may call it.
    pub(crate) fn end_turn(&self, heard: &mut Heard, entries: u64) {
        if entries != heard.entries {
            self.turns.fetch_add(1, Ordering::SeqCst);
        }
        heard.turns = self.turns.load(Ordering::SeqCst);
    }

    /// Sleeps until one is woken and there was a turn with an item that the pass hasn't heard of.
    pub(crate) fn wait<R: Wait>(&self, rt: &R, heard: &Heard) {
        self.asleep.fetch_add(1, Ordering::SeqCst);
        for _ in rt.forever() {
            if self.turns.load(Ordering::SeqCst) != heard.turns {
                self.asleep.fetch_sub(1, Ordering::SeqCst);
                return;
            }
            self.turns.park(rt, low_half(heard.turns));
        }
        unreachable!()
    }

    pub(crate) fn wake_one(&self) {
        if self.asleep.load(Ordering::SeqCst) > 0 {
            self.turns.wake_one();
        }
    }

    pub(crate) fn wake_all(&self) {
        if self.asleep.load(Ordering::SeqCst) > 0 {
            self.turns.wake_all();
        }
    }
}
