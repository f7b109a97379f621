//! A Clean is done.

ghost use Rattle.std.specs.Prelude.{◌≡◌, ◌<◌, ◌≤◌, ◌-◌, ◌+◌, ◌^◌, ◌==◌, ◌∷◌, ℕ, [], cond, length, get_or, set, None, Some, vec_capacity};
ghost use Rattle.plan_core.specs.Numbers.{has};
ghost use Rattle.plan_core.specs.Words.{count_tasks, parents};
ghost use Rattle.place_peaks.specs.Cleaning.{CanEnd, CanGive, IsSwept, IsSweptAgain};
ghost use Rattle.place_peaks.specs.Links.{AreLinks};
ghost use Rattle.place_peaks.specs.Peaks.{stack_of};
ghost use Rattle.place_peaks.specs.Places.{is_place};
ghost use Rattle.place_peaks.specs.Stack.{IsFirstOf};
ghost use Rattle.place_peaks.specs.Tree.{front_changed};
ghost use Rattle.place_peaks.specs.Waiting.{CanFree, CanSweepAt};

use crate::granting::unmark;
use crate::links::Links;
use crate::peaks::Peaks;
use crate::seating::Seating;
use crate::stack::pop;
use crate::tree::sweep;
use peak_tree::PeakTree;
use plan_core::Plan;
use storage_simulation::count_down;

/// A task has ended: each of its children has one open parent less.
pub(crate) fn end_for_children(plan: &Plan, missing: &mut Vec<u32>, links: &Links, task: u32)
    requires links { AreLinks plan.now links.now }
    requires ends { CanEnd plan.now missing.old.items task }
    ensures long { length missing.new.items ≡ length missing.old.items }
    ensures each { (u : ℕ) → u < count_tasks plan.now
        → get_or missing.new.items u 1 + cond (has (parents plan.now u) task) 1 0
        ≡ get_or missing.old.items u 1 }
{
    let _ = plan;
    count_down(missing, links.children_of(task));
}

/// A Clean is done, or goes to the stack, in the tree of its place.
pub(crate) fn sweep_at(trees: &mut Vec<PeakTree>, seating: &Seating, task: u32, frees: u64)
    requires { (q : ℕ) → get_or seating.now.homes.items task None ≡ Some q
        → CanSweepAt trees.old.items q (get_or seating.now.seats.items task 0) frees }
    ensures long { length trees.new.items ≡ length trees.old.items }
    ensures each { (q : ℕ) → get_or trees.new.items q []
        ≡ cond (is_place q (get_or seating.now.homes.items task None))
        (set (front_changed (get_or seating.now.seats.items task 0) (λ n. n - frees)
        (get_or trees.old.items q [])) (get_or seating.now.seats.items task 0) None) (get_or trees.old.items q []) }
{
    if let Some(place) = seating.home(task) {
        sweep(&mut trees[place as usize], seating.seat(task), frees);
    }
}

/// Takes from what a place holds.
#[tactic(auto, using(crate::proofs::SetLemmas::get_set))]
pub(crate) fn take_at(base: &mut Vec<u64>, place: u32, frees: u64)
    requires { CanGive base.old.items place frees }
    ensures long { length base.new.items ≡ length base.old.items }
    ensures each { (q : ℕ) → get_or base.new.items q 0
        ≡ cond (place == q) (get_or base.old.items place 0 - frees) (get_or base.old.items q 0) }
{
    base[place as usize] -= frees;
}

/// What a Clean frees isn't held at its place any more.
fn take_base(base: &mut Vec<u64>, seating: &Seating, task: u32, frees: u64)
    requires { (q : ℕ) → get_or seating.now.homes.items task None ≡ Some q → CanGive base.old.items q frees }
    ensures long { length base.new.items ≡ length base.old.items }
    ensures each { (q : ℕ) → get_or base.new.items q 0
        ≡ cond (is_place q (get_or seating.now.homes.items task None))
        (get_or base.old.items q 0 - frees) (get_or base.old.items q 0) }
{
    if let Some(place) = seating.home(task) {
        take_at(base, place, frees);
    }
}

impl Peaks {
    /// A Clean of the line, which frees so much, is done.
    pub(crate) fn clean_in_line(&mut self, plan: &Plan, links: &Links, task: u32, frees: u64)
        requires links { AreLinks plan.now links.now }
        requires ends { CanEnd plan.now self.old.missing.items task }
        requires task { task < length self.old.left.items }
        requires frees { (q : ℕ) → get_or self.old.seating.homes.items task None ≡ Some q
            → CanFree self.old task q frees }
        ensures { IsSwept plan.now self.old self.new task frees }
    {
        end_for_children(plan, &mut self.missing, links, task);
        unmark(&mut self.left, task);
        self.first = self.next_front();
        take_base(&mut self.base, &self.seating, task, frees);
        sweep_at(&mut self.trees, &self.seating, task, frees);
    }

    /// A Clean that is the first task of the stack, and frees so much, is done.
    pub(crate) fn clean_on_stack(&mut self, plan: &Plan, links: &Links, task: u32, frees: u64)
        requires links { AreLinks plan.now links.now }
        requires ends { CanEnd plan.now self.old.missing.items task }
        requires first { IsFirstOf (stack_of self.old) task }
        requires frees { (q : ℕ) → get_or self.old.seating.homes.items task None ≡ Some q
            → CanGive self.old.base.items q frees }
        ensures swept { IsSweptAgain plan.now self.old self.new task frees }
        ensures stack { stack_of self.old ≡ task ∷ stack_of self.new }
        ensures room { vec_capacity self.new.again ≡ vec_capacity self.old.again }
    {
        end_for_children(plan, &mut self.missing, links, task);
        pop(&mut self.again, task);
        take_base(&mut self.base, &self.seating, task, frees);
    }
}
