//! The grant of a task of the line.

ghost use Rattle.std.specs.Prelude.{◌≡◌, ◌≤◌, ◌<◌, ◌+◌, ◌==◌, ◌&&◌, ◌^◌, ℕ, [], true, false, cond, not, length, get_or, set, None, Some, ◌∷◌, vec_capacity};
ghost use Rattle.place_peaks.specs.Granting.{CanGrant, CanHold, CanStartAt, IsGranted, IsGrantedAgain};
ghost use Rattle.place_peaks.specs.Peaks.{is_left, stack_of};
ghost use Rattle.place_peaks.specs.Places.{is_place};
ghost use Rattle.place_peaks.specs.Stack.{IsFirstOf};
ghost use Rattle.place_peaks.specs.Tree.{front_changed};

use crate::peaks::Peaks;
use crate::seating::Seating;
use crate::stack::pop;
use crate::tree::start;
use peak_tree::PeakTree;

/// Takes the mark of a task away.
#[tactic(auto, using(crate::proofs::SetLemmas::get_set))]
pub(crate) fn unmark(left: &mut Vec<bool>, task: u32)
    requires { task < length left.old.items }
    ensures long { length left.new.items ≡ length left.old.items }
    ensures each { (u : ℕ) → is_left left.new.items u ≡ cond (task == u) false (is_left left.old.items u) }
{
    left[task as usize] = false;
}

/// What a task brings is held at its place.
pub(crate) fn add_base(base: &mut Vec<u64>, seating: &Seating, task: u32, need: u64)
    requires { (q : ℕ) → get_or seating.now.homes.items task None ≡ Some q → CanHold base.old.items q need }
    ensures long { length base.new.items ≡ length base.old.items }
    ensures each { (q : ℕ) → get_or base.new.items q 0
        ≡ cond (is_place q (get_or seating.now.homes.items task None))
        (get_or base.old.items q 0 + need) (get_or base.old.items q 0) }
{
    if let Some(place) = seating.home(task) {
        base[place as usize] += need;
    }
}

/// A task starts in the tree of its place.
fn start_at(trees: &mut Vec<PeakTree>, seating: &Seating, task: u32, need: u64)
    requires { (q : ℕ) → get_or seating.now.homes.items task None ≡ Some q
        → CanStartAt trees.old.items q (get_or seating.now.seats.items task 0) need }
    ensures long { length trees.new.items ≡ length trees.old.items }
    ensures each { (q : ℕ) → get_or trees.new.items q []
        ≡ cond (is_place q (get_or seating.now.homes.items task None))
        (set (front_changed (get_or seating.now.seats.items task 0) (λ n. n + need)
        (get_or trees.old.items q [])) (get_or seating.now.seats.items task 0) None) (get_or trees.old.items q []) }
{
    if let Some(place) = seating.home(task) {
        start(&mut trees[place as usize], seating.seat(task), need);
    }
}

impl Peaks {
    /// A task of the line has started.
    pub(crate) fn grant_in_line(&mut self, task: u32)
        requires task { task < length self.old.left.items }
        requires room { (q : ℕ) → get_or self.old.seating.homes.items task None ≡ Some q
            → CanGrant self.old task q }
        ensures { IsGranted self.old self.new task }
    {
        let need = self.need(task);
        unmark(&mut self.left, task);
        self.first = self.next_front();
        add_base(&mut self.base, &self.seating, task, need);
        start_at(&mut self.trees, &self.seating, task, need);
    }

    /// The first task of the stack has started.
    pub(crate) fn grant_on_stack(&mut self, task: u32)
        requires first { IsFirstOf (stack_of self.old) task }
        requires room { (q : ℕ) → get_or self.old.seating.homes.items task None ≡ Some q
            → CanHold self.old.base.items q (get_or self.old.needs.items task 0) }
        ensures granted { IsGrantedAgain self.old self.new task }
        ensures stack { stack_of self.old ≡ task ∷ stack_of self.new }
        ensures stack_room { vec_capacity self.new.again ≡ vec_capacity self.old.again }
    {
        let need = self.need(task);
        pop(&mut self.again, task);
        add_base(&mut self.base, &self.seating, task, need);
    }
}
