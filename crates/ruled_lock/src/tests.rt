ghost use Rattle.std.specs.Prelude.{◌≡◌, ◌+◌, ◌<◌, ◌≤◌, [], Some, All, vec_capacity};
ghost use Rattle.std.specs.Thread.{IsSync};
ghost use Rattle.ruled_lock.specs.Pass.{count_of, IsIdle};
ghost use Rattle.ruled_lock.specs.Lock.{workers_of, IsOf};

use super::*;
use crate::notes::{Notes, two_notes};
use std::alloc::Global;
use std::process::Abort;
use std::sync::Wait;
use std::test::*;
use std::thread::{Threads, for_each_mut, join_mut};

#[test]
fn lock_two_passes(rt: HostRuntime) -> Result<(), Fail> {
    let notes = Notes::with_room(rt.alloc(), 7, 2)?;
    let notes = two_notes(&rt, rt.alloc(), notes, 30, 40).ok_or("both have room")?;
    assert_eq!(rt; notes.entries(), 2);
    assert_eq!(rt; notes.title, 7);
    Ok(())
}

// Adds a note whenever it is this worker's turn round the table, until there are so many.
fn go_round<R: Wait>(rt: &R, lock: &RuledLock<Notes>, pass: &mut Pass<Notes>, total: u64)
    requires { IsOf lock.now pass.old × IsIdle pass.old }
    ensures { IsOf lock.now pass.new × IsIdle pass.new }
{
    for _ in rt.forever() {
        let mut notes = lock.take(rt, pass);
        let entries = notes.entries();
        if entries < total && entries % 16 == u64::from(pass.worker()) {
            notes.add(pass.worker(), entries);
            lock.give(pass, notes);
            lock.wake_all();
        } else {
            lock.give(pass, notes);
            if entries >= total {
                return;
            }
            lock.changed(rt, pass);
        }
    }
}

fn split_all(
    lock: &RuledLock<Notes>,
    alloc: Global,
    first: &mut Pass<Notes>,
    passes: &mut Vec<Pass<Notes>>,
)
    requires of { IsOf lock.now first.old × IsIdle first.old }
    requires count { (count_of first.old ≡ 1) × (workers_of lock.now ≡ 16) }
    requires room { (passes.old.items ≡ []) × (16 ≤ vec_capacity passes.old) }
    ensures first { IsOf lock.now first.new × IsIdle first.new }
    ensures passes { All (λ p. IsOf lock.now p × IsIdle p) passes.new.items }
{
    for _ in 1..16u32 {
        let Ok(pass) = lock.split(alloc, first) else {
            unreachable!()
        };
        let pushed = passes.push(pass);
        let Ok(()) = pushed else { unreachable!() };
    }
}

fn join_all(lock: &RuledLock<Notes>, first: &mut Pass<Notes>, mut passes: Vec<Pass<Notes>>)
    requires first { IsOf lock.now first.old × IsIdle first.old }
    requires passes { All (λ p. IsOf lock.now p × IsIdle p) passes.items }
    ensures first { IsOf lock.now first.new × IsIdle first.new }
{
    while let Some(pass) = passes.pop() {
        lock.join(first, pass);
    }
    passes.destroy_empty();
}

fn all_go_round<R: Threads + Wait + Sync>(
    rt: &R,
    lock: &RuledLock<Notes>,
    passes: &mut Vec<Pass<Notes>>,
    total: u64,
)
    requires { All (λ p. IsOf lock.now p × IsIdle p) passes.old.items }
    ensures { All (λ p. IsOf lock.now p × IsIdle p) passes.new.items }
{
    for_each_mut(
        rt,
        passes.as_mut_slice(),
        16,
        &|_, pass| { go_round(rt, lock, pass, total) },
    );
}

// Sixteen workers add notes round the table. The answer is none where there was no memory.
fn round_table<R: Threads + Wait + Abort + Sync>(
    rt: &R,
    alloc: Global,
    notes: Notes,
    total: u64,
) -> Option<Notes>
    requires { notes.notes.items ≡ [] }
{
    let mut passes = Vec::with_capacity(alloc, 16).ok()?;
    let Ok((lock, mut first)) = RuledLock::new(alloc, notes, 16) else {
        passes.destroy_empty();
        return None;
    };
    split_all(&lock, alloc, &mut first, &mut passes);
    let shared = &lock;
    join_mut(
        rt,
        &mut || go_round(rt, shared, &mut first, total),
        &mut ||
            requires { IsSync R.row × All (λ p. IsOf shared.now p × IsIdle p) passes.items }
            ensures { All (λ p. IsOf shared.entry.now p × IsIdle p) passes.exit.items }
        { all_go_round(rt, shared, &mut passes, total) },
    );
    join_all(&lock, &mut first, passes);
    assert!(rt; first.whole());
    Some(lock.close(first))
}

#[test]
fn sixteen_workers(rt: HostRuntime) -> Result<(), Fail> {
    let notes = Notes::with_room(rt.alloc(), 7, 1600)?;
    let notes = round_table(&rt, rt.alloc(), notes, 1600).ok_or("memory")?;
    assert_eq!(rt; notes.entries(), 1600);
    for (k, (worker, text)) in notes.notes.iter().enumerate() {
        assert_eq!(rt; (*worker as usize, *text as usize), (k % 16, k));
    }
    Ok(())
}
