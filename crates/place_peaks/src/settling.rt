//! A task ends, and what it made is held at its actual sizes.

ghost use Rattle.std.specs.Prelude.{◌≡◌, ◌<◌, ◌≤◌, ◌-◌, ◌^◌, ◌==◌, ◌∷◌, ℕ, [], cond, true, length, get_or, replicate, Some, None};
ghost use Rattle.storage_simulation.specs.code.Goods.{IsWithinLimits, place};
ghost use Rattle.storage_simulation.specs.Goods.{good_size, lies_at, makes, places};
ghost use Rattle.place_peaks.specs.Links.{AreLinks};
ghost use Rattle.place_peaks.specs.Settling.{AreLowered, CanSettle, CanSettleOne, IsKept, IsSettled, count_at, count_by, lowered, settled};
ghost use Rattle.place_peaks.specs.Tree.{AllFirst, CanFall, front_changed};

use crate::cleaning::{end_for_children, take_at};
use crate::goods::{count_made, made_at};
use crate::links::Links;
use crate::peaks::Peaks;
use crate::tree::lower;
use peak_tree::PeakTree;
use plan_core::Plan;
use storage_simulation::{good_size, lies_at, sums_are_small};
use values::TaskId;

/// The first values of the tree of a place become less.
#[tactic(auto, using(crate::proofs::SetLemmas::get_set))]
fn lower_at(trees: &mut Vec<PeakTree>, place: u32, count: usize, less: u64)
    requires place { place < length trees.old.items }
    requires count { count ≤ length (get_or trees.old.items place []) }
    requires less { less ≤ 2 ^ 62 }
    requires range { AllFirst count (CanFall less) (get_or trees.old.items place []) }
    ensures long { length trees.new.items ≡ length trees.old.items }
    ensures each { (q : ℕ) → get_or trees.new.items q []
        ≡ cond (place == q) (front_changed count (λ n. n - less) (get_or trees.old.items place []))
        (get_or trees.old.items q []) }
{
    lower(&mut trees[place as usize], count, less);
}

impl Peaks {
    /// Up to where the values of a good with this Clean are lowered.
    fn count_by(&self, place: u32, clean: Option<u32>) -> usize
        ensures { result ≡ count_by self.now place clean }
    {
        match clean {
            None => self.seating.width(place),
            Some(clean) => {
                if self.is_left(clean) {
                    self.seating.seat(clean)
                } else {
                    self.seating.width(place)
                }
            }
        }
    }

    /// A good is held at a size.
    fn settle_good(&mut self, plan: &Plan, links: &Links, place: u32, good: u32, size: u64)
        requires fits { lies_at plan.now good place ≡ true
            → CanSettleOne plan.now links.now self.old place good size }
        requires only { (q : ℕ) → q < places plan.now → lies_at plan.now good q ≡ true → place ≡ q }
        ensures kept { IsKept self.old self.new }
        ensures base { (q : ℕ) → q < places plan.now
            → get_or self.new.base.items q 0
            ≡ lowered plan.now q (good_size plan.now) (good ∷ []) (size ∷ [])
            (get_or self.old.base.items q 0) }
        ensures trees { (q : ℕ) → q < places plan.now
            → get_or self.new.trees.items q []
            ≡ settled plan.now q (count_at self.old links.now q) (good_size plan.now) (good ∷ []) (size ∷ [])
            (get_or self.old.trees.items q []) }
    {
        if lies_at(plan, good, place) {
            let less = good_size(plan, good) - size;
            let count = self.count_by(place, links.cleaner_of(good));
            take_at(&mut self.base, place, less);
            lower_at(&mut self.trees, place, count, less);
        }
    }

    /// The goods of a task that changes this place are held at these sizes.
    fn settle_each(&mut self, plan: &Plan, links: &Links, at: u32, task: u32, sizes: &[u64])
        requires limits { IsWithinLimits plan.now }
        requires links { AreLinks plan.now links.now }
        requires settles { CanSettle plan.now links.now self.old task sizes.now }
        requires home { place plan.now task ≡ Some at }
        ensures kept { IsKept self.old self.new }
        ensures lowered { AreLowered plan.now links.now self.old self.new (makes plan.now task) sizes.now }
    {
        sums_are_small();
        let mut k = count_made(plan, TaskId(task));
        while k > 0 {
            k -= 1;
            let good = made_at(plan, TaskId(task), k);
            self.settle_good(plan, links, at, good, sizes[k]);
        }
    }

    /// The goods of a task that changes this place are all held at this size.
    fn settle_all(&mut self, plan: &Plan, links: &Links, at: u32, task: u32, size: u64)
        requires limits { IsWithinLimits plan.now }
        requires links { AreLinks plan.now links.now }
        requires settles { CanSettle plan.now links.now self.old task
            (replicate (length (makes plan.now task)) size) }
        requires home { place plan.now task ≡ Some at }
        ensures kept { IsKept self.old self.new }
        ensures lowered { AreLowered plan.now links.now self.old self.new (makes plan.now task)
            (replicate (length (makes plan.now task)) size) }
    {
        sums_are_small();
        let mut k = count_made(plan, TaskId(task));
        while k > 0 {
            k -= 1;
            let good = made_at(plan, TaskId(task), k);
            self.settle_good(plan, links, at, good, size);
        }
    }

    /// What a task makes is held at one size.
    fn settle_one_size(&mut self, plan: &Plan, links: &Links, task: u32, size: u64)
        requires limits { IsWithinLimits plan.now }
        requires links { AreLinks plan.now links.now }
        requires settles { CanSettle plan.now links.now self.old task
            (replicate (length (makes plan.now task)) size) }
        ensures kept { IsKept self.old self.new }
        ensures lowered { AreLowered plan.now links.now self.old self.new (makes plan.now task)
            (replicate (length (makes plan.now task)) size) }
    {
        match self.seating.home(task) {
            None => {}
            Some(at) => self.settle_all(plan, links, at, task, size),
        }
    }

    /// What a task makes is held at these sizes.
    fn settle_sizes(&mut self, plan: &Plan, links: &Links, task: u32, sizes: &[u64])
        requires limits { IsWithinLimits plan.now }
        requires links { AreLinks plan.now links.now }
        requires settles { CanSettle plan.now links.now self.old task sizes.now }
        ensures kept { IsKept self.old self.new }
        ensures lowered { AreLowered plan.now links.now self.old self.new (makes plan.now task) sizes.now }
    {
        match self.seating.home(task) {
            None => {}
            Some(at) => self.settle_each(plan, links, at, task, sizes),
        }
    }

    /// A Transfer has moved its file, of this size.
    pub(crate) fn settle_transfer(&mut self, plan: &Plan, links: &Links, task: u32, size: u64)
        requires limits { IsWithinLimits plan.now }
        requires links { AreLinks plan.now links.now }
        requires settles { CanSettle plan.now links.now self.old task
            (replicate (length (makes plan.now task)) size) }
        ensures { IsSettled plan.now links.now self.old self.new task
            (replicate (length (makes plan.now task)) size) }
    {
        self.settle_one_size(plan, links, task, size);
        end_for_children(plan, &mut self.missing, links, task);
    }

    /// A Run has made its files, of these sizes.
    pub(crate) fn settle_run(&mut self, plan: &Plan, links: &Links, task: u32, sizes: &[u64])
        requires limits { IsWithinLimits plan.now }
        requires links { AreLinks plan.now links.now }
        requires settles { CanSettle plan.now links.now self.old task sizes.now }
        ensures { IsSettled plan.now links.now self.old self.new task sizes.now }
    {
        self.settle_sizes(plan, links, task, sizes);
        end_for_children(plan, &mut self.missing, links, task);
    }
}
