//! A task is to be tried again.

ghost use Rattle.std.specs.Prelude.{◌≡◌, ◌<◌, ◌∷◌, ◌==◌, ℕ, [], cond, length, get_or, set, None, Some, vec_capacity};
ghost use Rattle.place_peaks.specs.Peaks.{stack_of};
ghost use Rattle.place_peaks.specs.Waiting.{CanSweepAt, IsAgain, IsMoved};

use crate::cleaning::sweep_at;
use crate::granting::unmark;
use crate::peaks::Peaks;
use crate::stack::push;

/// A task brings nothing any more.
#[tactic(auto, using(crate::proofs::SetLemmas::get_set))]
fn clear_need(needs: &mut Vec<u64>, task: u32)
    ensures { (u : ℕ) → get_or needs.new.items u 0 ≡ cond (task == u) 0 (get_or needs.old.items u 0) }
{
    if (task as usize) < needs.len() {
        needs[task as usize] = 0;
    }
}

impl Peaks {
    /// A task that runs waits again.
    pub(crate) fn wait_on_stack(&mut self, task: u32)
        requires room { length self.old.again.items < vec_capacity self.old.again }
        ensures waits { IsAgain self.old self.new task }
        ensures stack { stack_of self.new ≡ task ∷ stack_of self.old }
        ensures room { vec_capacity self.new.again ≡ vec_capacity self.old.again }
    {
        clear_need(&mut self.needs, task);
        push(&mut self.again, task);
    }

    /// A Clean of the line, which frees so much, waits again.
    pub(crate) fn move_to_stack(&mut self, task: u32, frees: u64)
        requires task { task < length self.old.left.items }
        requires frees { (q : ℕ) → get_or self.old.seating.homes.items task None ≡ Some q
            → CanSweepAt self.old.trees.items q (get_or self.old.seating.seats.items task 0) frees }
        requires room { length self.old.again.items < vec_capacity self.old.again }
        ensures moved { IsMoved self.old self.new task frees }
        ensures stack { stack_of self.new ≡ task ∷ stack_of self.old }
        ensures room { vec_capacity self.new.again ≡ vec_capacity self.old.again }
    {
        unmark(&mut self.left, task);
        self.first = self.next_front();
        push(&mut self.again, task);
        sweep_at(&mut self.trees, &self.seating, task, frees);
    }
}
