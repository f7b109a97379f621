//! A worked example of a client: notes that two workers add under a lock. The tests run it, and edits of it show
//! what the conditions of `give` and the clauses of `close` refuse.
ghost use Rattle.std.specs.Prelude.{◌≡◌, ℕ, ◌<◌, ◌≤◌, [], ◌∷◌, ◌++◌, true, false, Some, IfOk, IfSome, vec_len, vec_capacity};
ghost use Rattle.ruled_lock.specs.Chronicle.{items_of};
ghost use Rattle.ruled_lock.specs.Pass.{worker_of, charter_of, mine_of, count_of, joined_of, IsIdle, IsSamePass};
ghost use Rattle.ruled_lock.specs.Lock.{IsOf};

use crate::chronicle::Chronicle;
use crate::lock::RuledLock;
use crate::pass::Pass;
use std::alloc::{AllocError, Global};
use std::sync::Wait;
use std::thread::{Threads, join_mut};

/// Notes of several workers, each with its worker.
#[derive(Drop)]
pub(crate) struct Notes {
    pub title: u64,
    pub notes: Vec<(u32, u64)>,
}

impl Chronicle for Notes {
    type Charter = u64;

    type Item = (u32, u64);

    ghost charter = { λ n. n.title };

    ghost journal = { λ n. n.notes.items };

    ghost author = { λ note. note.0 };

    fn entries(&self) -> u64 {
        self.notes.len() as u64
    }
}

impl Notes {
    pub fn with_room(alloc: Global, title: u64, room: usize) -> Result<Notes, AllocError>
        ensures title { IfOk result (λ n. n.title ≡ title) }
        ensures empty { IfOk result (λ n. n.notes.items ≡ []) }
        ensures room { IfOk result (λ n. room ≤ vec_capacity n.notes) }
    {
        let notes = Vec::with_capacity(alloc, room)?;
        Ok(Notes { title, notes })
    }

    /// Adds a note where there is room.
    pub fn add(&mut self, worker: u32, text: u64) -> bool
        ensures room { vec_len self.old.notes < vec_capacity self.old.notes → result ≡ true }
        ensures title { self.new.title ≡ self.old.title }
        ensures added { result ≡ true → self.new.notes.items ≡ self.old.notes.items ++ (worker, text) ∷ [] }
        ensures full { result ≡ false → self.new.notes.items ≡ self.old.notes.items }
    {
        self.notes.push((worker, text)).is_ok()
    }
}

// One turn, in which a note is added where there is room.
fn note<R: Wait>(rt: &R, lock: &RuledLock<Notes>, pass: &mut Pass<Notes>, text: u64) -> bool
    requires of { IsOf lock.now pass.old }
    requires idle { IsIdle pass.old }
    ensures of { IsOf lock.now pass.new }
    ensures idle { IsIdle pass.new }
    ensures same { IsSamePass pass.old pass.new }
    ensures added { result ≡ true → mine_of pass.new ≡ mine_of pass.old ++ (worker_of pass.old, text) ∷ [] }
{
    let mut notes = lock.take(rt, pass);
    let added = notes.add(pass.worker(), text);
    lock.give(pass, notes);
    added
}

fn gather(lock: RuledLock<Notes>, mut one: Pass<Notes>, two: Pass<Notes>) -> Notes
    requires of { IsOf lock one × IsOf lock two }
    requires idle { IsIdle one × IsIdle two }
    requires one { (worker_of one ≡ 0) × (count_of one ≡ 2) × (joined_of one ≡ []) }
    requires two { (worker_of two ≡ 1) × (count_of two ≡ 0) × (joined_of two ≡ []) }
    ensures title { charter_of one ≡ Some result.title }
    ensures first { items_of (λ note. note.0) 0 result.notes.items ≡ mine_of one }
    ensures second { items_of (λ note. note.0) 1 result.notes.items ≡ mine_of two }
    ensures others { (k : ℕ) → 1 < k → items_of (λ note. note.0) k result.notes.items ≡ [] }
{
    lock.join(&mut one, two);
    lock.close(one)
}

// Two threads add a note each. Where both had room, the notes are these two.
pub(crate) fn two_notes<R: Threads + Wait + Sync>(
    rt: &R,
    alloc: Global,
    notes: Notes,
    a: u64,
    b: u64,
) -> Option<Notes>
    requires { notes.notes.items ≡ [] }
    ensures title { IfSome result (λ n. n.title ≡ notes.title) }
    ensures first { IfSome result (λ n. items_of (λ note. note.0) 0 n.notes.items ≡ (0, a) ∷ []) }
    ensures second { IfSome result (λ n. items_of (λ note. note.0) 1 n.notes.items ≡ (1, b) ∷ []) }
    ensures others { IfSome result (λ n. (k : ℕ) → 1 < k → items_of (λ note. note.0) k n.notes.items ≡ []) }
{
    let Ok((lock, mut one)) = RuledLock::new(alloc, notes, 2) else {
        return None;
    };
    let Ok(mut two) = lock.split(alloc, &mut one) else {
        unreachable!()
    };
    let shared = &lock;
    let (first, second) = join_mut(
        rt,
        &mut || note(rt, shared, &mut one, a),
        &mut || note(rt, shared, &mut two, b),
    );
    let notes = gather(lock, one, two);
    if first && second { Some(notes) } else { None }
}
