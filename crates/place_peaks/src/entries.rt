//! What each entry of a record changes, wherever its task stands.

ghost use Rattle.std.specs.Prelude.{◌≡◌, ℕ, [], true, List, MatchOption};
ghost use Rattle.plan_core.specs.code.Proper.{IsProper};
ghost use Rattle.plan_core.specs.Words.{is_clean};
ghost use Rattle.run_record.specs.declared.entry.Cause.{Cause};
ghost use Rattle.run_record.specs.Events.{Again, Arrive, Clean, End, Grant};
ghost use Rattle.storage_simulation.specs.code.Goods.{IsWithinLimits};
ghost use Rattle.lease_rules.specs.Legal.{Allowed};
ghost use Rattle.lease_rules.specs.State.{State, after};
ghost use Rattle.place_peaks.specs.Entries.{AreTied, CanClean, CanEnter, CanTryAgain, Frees};
ghost use Rattle.place_peaks.specs.Links.{AreLinks};
ghost use Rattle.place_peaks.specs.Peaks.{stack_of};
ghost use Rattle.place_peaks.specs.Stack.{IsFirstOf};

use crate::law::parents_stand_once;
use crate::links::Links;
use crate::peaks::Peaks;
use crate::stack::last_of;
use plan_core::Plan;
use storage_simulation::sums_are_small;
use values::TaskId;

impl Peaks {
    /// The first task that waits again.
    pub(crate) fn first_again(&self) -> Option<u32>
        ensures { MatchOption result (self.now.again.items ≡ []) (λ t. IsFirstOf (stack_of self.now) t) }
    {
        last_of(self.again.as_slice())
    }

    /// A task begins, which is the Choice.
    pub fn enter_grant(&mut self, plan: &Plan, task: u32)
        requires limits { IsWithinLimits plan.now }
        requires can { CanEnter plan.now self.old (λ w. Grant w task) }
        ensures { (s : State) (w : ℕ) → AreTied plan.now s self.old → Allowed plan.now s (Grant w task)
            → AreTied plan.now (after plan.now s (Grant w task)) self.new }
    {
        sums_are_small();
        match self.first_again() {
            None => {
                self.grant_in_line(task);
                self.refresh(plan, task);
            }
            Some(_) => self.grant_on_stack(task),
        }
    }

    /// A Clean, which is the Choice and frees so much, is done.
    pub fn enter_clean(&mut self, plan: &Plan, links: &Links, task: u32, frees: u64)
        requires proper { IsProper plan.now }
        requires limits { IsWithinLimits plan.now }
        requires links { AreLinks plan.now links.now }
        requires can { CanClean plan.now self.old task frees }
        ensures { (s : State) (w : ℕ) → AreTied plan.now s self.old → Allowed plan.now s (Clean w task)
            → Frees plan.now s task frees → AreTied plan.now (after plan.now s (Clean w task)) self.new }
    {
        sums_are_small();
        parents_stand_once();
        match self.first_again() {
            None => {
                self.clean_in_line(plan, links, task, frees);
                self.refresh(plan, task);
                self.refresh_children(plan, links, task);
            }
            Some(_) => {
                self.clean_on_stack(plan, links, task, frees);
                self.refresh_children(plan, links, task);
            }
        }
    }

    /// A Transfer has moved its file, of this size.
    pub fn enter_arrive(&mut self, plan: &Plan, links: &Links, task: u32, size: u64)
        requires proper { IsProper plan.now }
        requires limits { IsWithinLimits plan.now }
        requires links { AreLinks plan.now links.now }
        requires can { CanEnter plan.now self.old (λ w. Arrive w task size) }
        ensures { (s : State) (w : ℕ) → AreTied plan.now s self.old → Allowed plan.now s (Arrive w task size)
            → AreTied plan.now (after plan.now s (Arrive w task size)) self.new }
    {
        parents_stand_once();
        self.settle_transfer(plan, links, task, size);
        self.refresh_children(plan, links, task);
    }

    /// A Run has made its files, of these sizes.
    pub fn enter_end(&mut self, plan: &Plan, links: &Links, task: u32, sizes: &[u64])
        requires proper { IsProper plan.now }
        requires limits { IsWithinLimits plan.now }
        requires links { AreLinks plan.now links.now }
        requires can { CanEnter plan.now self.old (λ w. End w task sizes.now) }
        ensures { (s : State) (w : ℕ) → AreTied plan.now s self.old
            → Allowed plan.now s (End w task sizes.now)
            → AreTied plan.now (after plan.now s (End w task sizes.now)) self.new }
    {
        parents_stand_once();
        self.settle_run(plan, links, task, sizes);
        self.refresh_children(plan, links, task);
    }

    /// A Clean, which is the Choice and frees so much, is to be tried again. The first one that waits again stays there.
    fn put_back(&mut self, plan: &Plan, task: u32, frees: u64)
        requires limits { IsWithinLimits plan.now }
        requires kind { is_clean plan.now task ≡ true }
        requires can { CanTryAgain plan.now self.old task frees }
        ensures { (s : State) (w : ℕ) (c : Cause) (ns : List ℕ) → AreTied plan.now s self.old
            → Allowed plan.now s (Again w task c ns) → Frees plan.now s task frees
            → AreTied plan.now (after plan.now s (Again w task c ns)) self.new }
    {
        sums_are_small();
        match self.first_again() {
            None => {
                self.move_to_stack(task, frees);
                self.refresh(plan, task);
            }
            Some(_) => {}
        }
    }

    /// A task is to be tried again, and frees so much if it is a Clean.
    pub fn enter_again(&mut self, plan: &Plan, task: u32, frees: u64)
        requires limits { IsWithinLimits plan.now }
        requires can { CanTryAgain plan.now self.old task frees }
        ensures { (s : State) (w : ℕ) (c : Cause) (ns : List ℕ) → AreTied plan.now s self.old
            → Allowed plan.now s (Again w task c ns) → Frees plan.now s task frees
            → AreTied plan.now (after plan.now s (Again w task c ns)) self.new }
    {
        if plan.is_clean(TaskId(task)) {
            self.put_back(plan, task, frees);
        } else {
            self.wait_on_stack(task);
            self.refresh(plan, task);
        }
    }
}
