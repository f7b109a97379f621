//! Workers' passes, each with what the worker works with.

ghost use Rattle.std.specs.Prelude.{◌≡◌, ℕ, ◌+◌, ◌++◌, ◌<◌, ◌≤◌, [], length, map, vec_capacity};
ghost use mathlib.Core.List.{IsPrefix};
ghost use Rattle.ruled_lock.specs.Lock.{IsOf, workers_of};
ghost use Rattle.ruled_lock.specs.Pass.{IsIdle, IsNewPass, charter_of, count_of, joined_of, mine_of, seen_of, worker_of};
ghost use Rattle.worker_gate.specs.code.Hands.{AreDealt, AreOthers, AreReady, AreReadyToJoin, AreSeenBy, IsDealt, IsGathered, member_of, own_list};

use ruled_lock::{Chronicle, Pass, RuledLock};
use std::alloc::Global;

/// A worker's pass, with what the worker works with.
pub(crate) struct Hand<C: Chronicle, M> {
    pub(crate) pass: Pass<C>,
    pub(crate) member: M,
}

/// Makes a hand of each member, in order, with a pass that is split from the first one.
fn deal_others<C: Chronicle, M>(
    alloc: Global,
    lock: &RuledLock<C>,
    first: &mut Pass<C>,
    crew: &mut Vec<M>,
    hands: &mut Vec<Hand<C, M>>,
)
    requires first { IsDealt lock.now (charter_of first.old) (seen_of first.old) 0 1 first.old }
    requires empty { hands.old.items ≡ [] }
    requires workers { length crew.old.items + 1 ≤ workers_of lock.now }
    requires room { length crew.old.items ≤ vec_capacity hands.old }
    ensures first { IsDealt lock.now (charter_of first.old) (seen_of first.old) 0
        (length crew.old.items + 1) first.new }
    ensures others { AreOthers lock.now (charter_of first.old) (seen_of first.old) hands.new.items }
    ensures members { map member_of hands.new.items ≡ crew.old.items }
    ensures crew { crew.new.items ≡ [] }
    ensures crew_room { vec_capacity crew.new ≡ vec_capacity crew.old }
    ensures hands_room { vec_capacity hands.new ≡ vec_capacity hands.old }
{
    while !crew.is_empty() {
        let member = crew.remove(0);
        let Ok(pass) = lock.split(alloc, first) else {
            unreachable!()
        };
        hands.push_reserved(Hand { pass, member });
    }
}

/// Makes a hand of each member, in order, the first with the first pass.
pub(crate) fn deal<C: Chronicle, M>(
    alloc: Global,
    lock: &RuledLock<C>,
    first: Pass<C>,
    crew: &mut Vec<M>,
    hands: &mut Vec<Hand<C, M>>,
)
    requires first { IsDealt lock.now (charter_of first) (seen_of first) 0 1 first }
    requires empty { hands.old.items ≡ [] }
    requires members { 0 < length crew.old.items }
    requires workers { length crew.old.items ≤ workers_of lock.now }
    requires room { length crew.old.items ≤ vec_capacity hands.old }
    ensures dealt { AreDealt lock.now (charter_of first) (seen_of first)
        (length crew.old.items) hands.new.items }
    ensures members { map member_of hands.new.items ≡ crew.old.items }
    ensures crew { crew.new.items ≡ [] }
    ensures crew_room { vec_capacity crew.new ≡ vec_capacity crew.old }
{
    let mut pass = first;
    let member = crew.remove(0);
    deal_others(alloc, lock, &mut pass, crew, hands);
    let inserted = hands.insert(0, Hand { pass, member });
    let Ok(()) = inserted else { unreachable!() };
}

/// Joins the hands' passes into the first one, and gives the members back in order.
fn gather_others<C: Chronicle, M>(
    lock: &RuledLock<C>,
    first: &mut Pass<C>,
    hands: Vec<Hand<C, M>>,
    crew: &mut Vec<M>,
)
    requires of { IsOf lock.now first.old }
    requires idle { IsIdle first.old }
    requires others { AreReadyToJoin lock.now hands.items }
    requires room { length crew.old.items + length hands.items ≤ vec_capacity crew.old }
    ensures of { IsOf lock.now first.new }
    ensures idle { IsIdle first.new }
    ensures worker { worker_of first.new ≡ worker_of first.old }
    ensures charter { charter_of first.new ≡ charter_of first.old }
    ensures mine { mine_of first.new ≡ mine_of first.old }
    ensures seen { IsPrefix (seen_of first.old) (seen_of first.new) }
    ensures count { count_of first.new ≡ count_of first.old }
    ensures joined { joined_of first.new ≡ joined_of first.old ++ map own_list hands.items }
    ensures others_seen { AreSeenBy hands.items first.new }
    ensures members { crew.new.items ≡ crew.old.items ++ map member_of hands.items }
{
    let mut hands = hands;
    while !hands.is_empty() {
        let Hand { pass, member } = hands.remove(0);
        lock.join(first, pass);
        crew.push_reserved(member);
    }
    hands.destroy_empty();
}

/// Joins all passes into the first one, and gives the members back in order.
pub(crate) fn gather<C: Chronicle, M>(
    lock: &RuledLock<C>,
    hands: Vec<Hand<C, M>>,
    crew: &mut Vec<M>,
) -> Pass<C>
    requires hands { AreReady lock.now hands.items }
    requires members { 0 < length hands.items }
    requires empty { crew.old.items ≡ [] }
    requires room { length hands.items ≤ vec_capacity crew.old }
    ensures of { IsOf lock.now result }
    ensures idle { IsIdle result }
    ensures gathered { IsGathered hands.items result }
    ensures members { crew.new.items ≡ map member_of hands.items }
{
    let mut hands = hands;
    let Hand {
        pass: mut first,
        member,
    } = hands.remove(0);
    crew.push_reserved(member);
    gather_others(lock, &mut first, hands, crew);
    first
}
