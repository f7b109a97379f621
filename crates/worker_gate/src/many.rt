//! All workers over one yard.

ghost use Rattle.std.specs.Prelude.{◌≡◌, ◌≤◌, ◌<◌, [], is_some, length, map, take, true};
ghost use Rattle.ruled_lock.specs.Pass.{charter_of, mine_of, seen_of, worker_of};
ghost use Rattle.plan_core.specs.Words.{task_numbers};
ghost use Rattle.worker_gate.specs.code.Asking.{AreGatesAsked, AsksOwn};
ghost use Rattle.worker_gate.specs.code.Inputs.{AreOfInputs};
ghost use Rattle.worker_gate.specs.code.Many.{AreToolsCounted, CanAllWork, CanWork, HasWorked, HaveAllAsked, HaveAllWorked, WorksMany};
ghost use Rattle.worker_gate.specs.code.Runs.{AreToolsRun, HaveAllRun, OwnRunsWithin};
ghost use Rattle.worker_gate.specs.code.Telling.{AreGatesTold, HaveAllTold, IsToldOf};

use crate::hands::{Hand, deal, gather};
use crate::working::work_by;
use craft::{Crew, Gate};
use lease_rules::{over_records_end, own_entries_tell_open_tasks};
use outside::{Host, Memory, Tool};
use plan_core::Plan;
use ruled_lock::{LockRefused, RuledLock};
use site_yard::Yard;
use std::alloc::Global;
use std::sync::Wait;
use std::thread::{Threads, for_each_mut};

/// What came of a run by several workers.
#[derive(Drop)]
pub struct ManyEnd<H: Host, T: Tool, G: Gate> {
    pub yard: Yard<H, T>,
    pub crew: Vec<Crew<T, G>>,
    pub unstarted: bool,
}

/// Works with a hand's pass and member.
fn work_hand<R: Wait, H: Host, T: Tool, G: Gate>(
    rt: &R,
    alloc: Global,
    lock: &RuledLock<Yard<H, T>>,
    plan: &Result<Plan, Memory>,
    hand: &mut Hand<Yard<H, T>, Crew<T, G>>,
)
    requires { CanWork lock.now plan.now hand.old.pass }
    ensures worked { HasWorked T.apply lock.now hand.old.pass hand.new.pass (T.faults hand.old.member.tool)
        (T.faults hand.new.member.tool) }
    ensures runs { OwnRunsWithin (charter_of hand.old.pass) (worker_of hand.old.pass) (mine_of hand.old.pass)
        (mine_of hand.new.pass) (T.runs hand.old.member.tool) (T.runs hand.new.member.tool) }
    ensures asked { AsksOwn (mine_of hand.old.pass) (mine_of hand.new.pass) (G.asked hand.old.member.gate)
        (G.asked hand.new.member.gate) }
    ensures told { IsToldOf (worker_of hand.old.pass) (seen_of hand.old.pass) (seen_of hand.new.pass)
        (G.told hand.old.member.gate) (G.told hand.new.member.gate) }
{
    work_by(rt, alloc, lock, plan, &mut hand.pass, &mut hand.member);
}

/// Works with all hands, each in a thread of its own.
fn work_all<R: Threads + Wait + Sync, H: Host + Send, T: Tool + Send, G: Gate + Send>(
    rt: &R,
    alloc: Global,
    lock: &RuledLock<Yard<H, T>>,
    plan: &Result<Plan, Memory>,
    hands: &mut [Hand<Yard<H, T>, Crew<T, G>>],
)
where
    H::Reading: Send,
    H::Draft: Send,
    requires { CanAllWork lock.now plan.now hands.old }
    ensures length { length hands.new ≡ length hands.old }
    ensures worked { HaveAllWorked T.apply lock.now (λ c. T.faults c.tool) hands.old hands.new }
    ensures runs { HaveAllRun (λ c. T.runs c.tool) hands.old hands.new }
    ensures asked { HaveAllAsked (λ c. G.asked c.gate) hands.old hands.new }
    ensures told { HaveAllTold (λ c. G.told c.gate) hands.old hands.new }
{
    for_each_mut(
        rt,
        hands,
        16,
        &|_, hand| work_hand(rt, alloc, lock, plan, hand),
    );
}

/// Works with all members over one yard, member k as worker k, each in a thread of its own, until all is done or something
/// failed. Where there was no memory to begin, nothing was done. It doesn't promise to end.
pub fn run_many<R: Threads + Wait + Sync, H: Host + Send, T: Tool + Send, G: Gate + Send>(
    rt: &R,
    alloc: Global,
    yard: Yard<H, T>,
    crew: Vec<Crew<T, G>>,
) -> ManyEnd<H, T, G>
where
    H::Reading: Send,
    H::Draft: Send,
    requires members { (0 < length crew.items) × (length crew.items ≤ 16) }
    requires empty { yard.book.history.events ≡ [] }
    ensures ordered { result.yard.ordered.value ≡ yard.ordered.value }
    ensures opened { take result.yard.opened result.yard.book.history.events
        ≡ take yard.opened yard.book.history.events }
    ensures marked { H.marked result.yard.host ≡ H.marked yard.host }
    ensures faults { result.yard.faults ≡ yard.faults }
    ensures misses { result.yard.misses ≡ yard.misses }
    ensures tells { is_some (H.told result.yard.host) ≡ is_some (H.told yard.host) }
    ensures members { length result.crew.items ≡ length crew.items }
    ensures works { WorksMany yard.ordered.value.plan (task_numbers yard.ordered.value.tasks.items)
        (length crew.items) result.unstarted result.yard.book.history.events }
    ensures tools { AreToolsCounted result.yard.book.history.events
        (map (λ (c : Crew T G). T.faults c.tool) crew.items)
        (map (λ (c : Crew T G). T.faults c.tool) result.crew.items) }
    ensures runs { AreToolsRun yard.ordered.value.plan result.yard.book.history.events
        (map (λ (c : Crew T G). T.runs c.tool) crew.items)
        (map (λ (c : Crew T G). T.runs c.tool) result.crew.items) }
    ensures gates { AreGatesAsked result.yard.book.history.events
        (map (λ (c : Crew T G). G.asked c.gate) crew.items)
        (map (λ (c : Crew T G). G.asked c.gate) result.crew.items) }
    ensures told { AreGatesTold result.yard.book.history.events
        (map (λ (c : Crew T G). G.told c.gate) crew.items)
        (map (λ (c : Crew T G). G.told c.gate) result.crew.items) }
    ensures inputs { AreOfInputs T.apply yard.ordered.value.plan result.yard.book.history.events }
    ensures unstarted { result.unstarted ≡ true
        → (result.yard.book.history.events ≡ []) × (result.crew.items ≡ crew.items) }
{
    // Laws for the proof: they do nothing.
    over_records_end();
    own_entries_tell_open_tasks();
    let mut crew = crew;
    let Ok(mut hands) = Vec::with_capacity(alloc, crew.len()) else {
        return ManyEnd {
            yard,
            crew,
            unstarted: true,
        };
    };
    // All workers read one copy: the yard's own plan is behind the lock.
    let plan = yard.plan().copy(alloc);
    match RuledLock::new(alloc, yard, crew.len() as u32) {
        Ok((lock, first)) => {
            deal(alloc, &lock, first, &mut crew, &mut hands);
            work_all(rt, alloc, &lock, &plan, hands.as_mut_slice());
            drop(plan);
            let pass = gather(&lock, hands, &mut crew);
            ManyEnd {
                yard: lock.close(pass),
                crew,
                unstarted: false,
            }
        }
        Err(LockRefused { value }) => {
            drop(plan);
            hands.destroy_empty();
            ManyEnd {
                yard: value,
                crew,
                unstarted: true,
            }
        }
    }
}
