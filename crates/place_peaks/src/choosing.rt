//! The Choice, by trees.

ghost use Rattle.std.specs.Prelude.{◌≡◌, ◌≤◌, ◌<◌, ◌-◌, ℕ, [], true, false, take, length, get_or, slice_get, None, Some, Decides, MatchOption};
ghost use Rattle.lease_rules.specs.Choice.{HasNoChoice, IsChoice};
ghost use Rattle.lease_rules.specs.State.{State};
ghost use Rattle.peak_tree.specs.Numbers.{greatest};
ghost use Rattle.plan_core.specs.Words.{is_clean, task_numbers};
ghost use Rattle.storage_simulation.specs.code.Goods.{IsWithinLimits};
ghost use Rattle.storage_simulation.specs.Goods.{place_bound};
ghost use Rattle.place_peaks.specs.Peaks.{AreBehind, ArePeaks, AreSeated, is_left, line_of, stack_of};
ghost use Rattle.place_peaks.specs.Choosing.{CanBegin, HasRoomAt};
ghost use Rattle.place_peaks.specs.Ready.{IsIndexed};

use crate::peaks::Peaks;
use crate::seating::at;
use crate::stack::last_of;
use crate::tree::{greatest_before, has_room};
use plan_core::Plan;
use storage_simulation::place_bound;
use values::TaskId;

/// The task at a position.
#[tactic(auto, using(lease_rules::proofs::NumbersLemmas::task_at))]
pub(crate) fn task_at(line: &[TaskId], k: usize) -> u32
    requires { k < length line.now }
    ensures { result ≡ get_or (task_numbers line.now) k 0 }
{
    line[k].0
}

impl Peaks {
    /// Whether a task is left in the line.
    pub fn is_left(&self, task: u32) -> bool
        ensures { result ≡ is_left self.now.left.items task }
    {
        at(self.left.as_slice(), task, false)
    }

    pub(crate) fn need(&self, task: u32) -> u64
        ensures { result ≡ get_or self.now.needs.items task 0 }
    {
        at(self.needs.as_slice(), task, 0)
    }

    pub(crate) fn missing(&self, task: u32) -> u32
        ensures { result ≡ get_or self.now.missing.items task 1 }
    {
        at(self.missing.as_slice(), task, 1)
    }

    pub(crate) fn base(&self, place: u32) -> u64
        ensures { result ≡ get_or self.now.base.items place 0 }
    {
        at(self.base.as_slice(), place, 0)
    }

    /// The greatest value before a seat.
    #[tactic(auto, using(crate::proofs::ChoosingLemmas::take_none))]
    fn top(&self, place: u32, seat: usize) -> Option<u64>
        requires { seat ≤ length (get_or self.now.trees.items place []) }
        ensures { result ≡ greatest (take seat (get_or self.now.trees.items place [])) }
    {
        match self.trees.get(place as usize) {
            Some(tree) => greatest_before(tree, seat),
            None => None,
        }
    }

    /// Whether a task has room at its place.
    fn has_room_at(&self, place: u32, task: u32, bound: u64) -> bool
        requires { get_or self.now.seating.seats.items task 0 ≤ length (get_or self.now.trees.items place []) }
        ensures { Decides result (HasRoomAt self.now task place bound) }
    {
        let seat = self.seating.seat(task);
        has_room(
            self.top(place, seat),
            self.base(place),
            self.need(task),
            bound,
        )
    }

    /// Whether a task that is left and of which no parent is open can begin.
    fn has_room_for(&self, plan: &Plan, task: u32) -> bool
        requires { (q : ℕ) → get_or self.now.seating.homes.items task None ≡ Some q
            → get_or self.now.seating.seats.items task 0 ≤ length (get_or self.now.trees.items q []) }
        ensures { Decides result ((q : ℕ) → is_clean plan.now task ≡ false
            → get_or self.now.seating.homes.items task None ≡ Some q
            → HasRoomAt self.now task q (place_bound plan.now q)) }
    {
        if plan.is_clean(TaskId(task)) {
            return true;
        }
        match self.seating.home(task) {
            None => true,
            Some(place) => self.has_room_at(place, task, place_bound(plan, place)),
        }
    }

    /// Whether the task at a position of the line is left and can begin.
    pub(crate) fn can_begin_at(&self, plan: &Plan, k: usize) -> bool
        requires within { k < length (line_of self.now) }
        requires seated { AreSeated self.now }
        ensures { Decides result (CanBegin plan.now self.now (get_or (line_of self.now) k 0)) }
    {
        let task = self.line_task(k);
        if !self.is_left(task) {
            return false;
        }
        if self.missing(task) > 0 {
            return false;
        }
        self.has_room_for(plan, task)
    }

    /// The first task of the line that is left and can start: the Choice where no task waits again.
    fn choose_line(&self, plan: &Plan) -> Option<u32>
        requires limits { IsWithinLimits plan.now }
        requires seated { AreSeated self.now }
        requires indexed { IsIndexed plan.now self.now }
        ensures { (s : State) → ArePeaks plan.now s self.now → s.failing ≡ false
            → MatchOption result (HasNoChoice plan.now s) (λ t. IsChoice plan.now s t) }
    {
        match self.first_to_begin(plan) {
            None => None,
            Some(k) => Some(self.line_task(k)),
        }
    }

    /// The Choice: the first task that waits again, else the first of the line that is left and can start.
    pub fn choose(&self, plan: &Plan) -> Option<u32>
        requires limits { IsWithinLimits plan.now }
        requires seated { AreSeated self.now }
        requires indexed { IsIndexed plan.now self.now }
        ensures { (s : State) → AreBehind plan.now s self.now (stack_of self.now) → s.failing ≡ false
            → MatchOption result (HasNoChoice plan.now s) (λ t. IsChoice plan.now s t) }
    {
        match last_of(self.again.as_slice()) {
            Some(task) => Some(task),
            None => self.choose_line(plan),
        }
    }
}
