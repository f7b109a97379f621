//! A fresh order takes the place of the one that is kept.

ghost use Rattle.std.specs.Prelude.{filter, ◌≡◌, ◌<◌, ◌≤◌, ◌+◌, ◌++◌, ◌∷◌, ◌^◌, ◌&&◌, ◌==◌, ℕ, [], true, false, cond, not, map, length, take, get_or, None, Some, vec_capacity};
ghost use Rattle.std.specs.List.{list_any};
ghost use Rattle.values.specs.declared.numbers.TaskId.{TaskId};
ghost use Rattle.lease_rules.specs.Legal.{Allowed};
ghost use Rattle.lease_rules.specs.State.{State, after, order_with};
ghost use Rattle.peak_tree.specs.Numbers.{filled};
ghost use Rattle.plan_core.specs.Numbers.{below, has};
ghost use Rattle.plan_core.specs.code.Proper.{IsProper};
ghost use Rattle.plan_core.specs.Words.{count_tasks, is_clean, task_numbers};
ghost use Rattle.run_record.specs.Events.{Regrant};
ghost use Rattle.storage_simulation.specs.code.Change.{cleaned_part, waits_for_maker};
ghost use Rattle.storage_simulation.specs.Following.{AreOnce};
ghost use Rattle.storage_simulation.specs.code.Following.{Follows};
ghost use Rattle.storage_simulation.specs.code.Goods.{IsWithinLimits, place};
ghost use Rattle.storage_simulation.specs.Goods.{good_size, makes, places};
ghost use Rattle.storage_simulation.specs.code.Law.{KeepsGoods};
ghost use Rattle.storage_simulation.specs.code.Standings.{IsStanding, held_of, phase_of};
ghost use Rattle.storage_simulation.specs.Standings.{sizes, waits};
ghost use Rattle.storage_simulation.specs.Usage.{usage};
ghost use Rattle.place_peaks.specs.Entries.{AreTied};
ghost use Rattle.place_peaks.specs.Values.{all_left};
ghost use Rattle.place_peaks.specs.Peaks.{IsSeating, is_left, left_of};
ghost use Rattle.place_peaks.specs.Places.{ChangesOnePlace, brings, held_by, is_place, there};
ghost use Rattle.place_peaks.specs.Renewing.{CanRenew, CanWalk, IsLaid, IsLevel, IsShown, renewed_values};
ghost use Rattle.place_peaks.specs.Values.{values};

use crate::choosing::task_at;
use crate::granting::add_base;
use crate::peaks::Peaks;
use crate::tree::refill;
use peak_tree::PeakTree;
use plan_core::Plan;
use storage_simulation::{
    Held, Phase, Standing, cleaned_by, finds_made, good_size, lies_at, places,
    proper_plans_keep_goods, sums_are_small,
};
use values::TaskId;

/// What is held of a good, in bytes.
pub fn held_size(standing: &Standing, good: u32) -> u64
    ensures { result ≡ sizes (held_of standing.now) good }
{
    let pairs = standing.held.as_slice().len();
    let held = if (good as usize) < pairs {
        standing.held.as_slice().get(good as usize)
    } else {
        standing.deliveries.as_slice().get(good as usize - pairs)
    };
    match held {
        Some(Held::Stored(size)) => *size,
        Some(Held::Reserved(size)) => *size,
        _ => 0,
    }
}

fn waits(standing: &Standing, task: TaskId) -> bool
    ensures { result ≡ waits (phase_of standing.now task.0) }
{
    match standing.tasks.as_slice().get(task.0 as usize) {
        Some(Phase::Runs) => false,
        Some(Phase::Ended) => false,
        _ => true,
    }
}

fn any_waits(plan: &Plan, standing: &Standing, some: &[TaskId], good: u32) -> bool
    requires limits { IsWithinLimits plan.now }
    requires goods { KeepsGoods plan.now }
    ensures { result ≡ list_any (λ (u : TaskId). waits (phase_of standing.now u.0)
        && has (makes plan.now u.0) good) some.now }
{
    some.iter().any(|task| waits(standing, *task) && finds_made(plan, *task, good))
}

/// Whether a parent of a task waits that makes the good.
#[tactic(auto, using(storage_simulation::proofs::NumbersLemmas::any_task))]
fn waits_for_maker(plan: &Plan, standing: &Standing, task: u32, good: u32) -> bool
    requires limits { IsWithinLimits plan.now }
    requires goods { KeepsGoods plan.now }
    ensures { result ≡ waits_for_maker plan.now (phase_of standing.now) task good }
{
    any_waits(plan, standing, plan.parents(TaskId(task)), good)
}

/// What a good counts at a place until its Clean.
fn cleaned_now(plan: &Plan, standing: &Standing, place: u32, task: u32, good: u32) -> u64
    requires limits { IsWithinLimits plan.now }
    requires goods { KeepsGoods plan.now }
    ensures { result ≡ cleaned_part plan.now (phase_of standing.now)
        (sizes (held_of standing.now)) task place good }
{
    if !lies_at(plan, good, place) {
        return 0;
    }
    if waits_for_maker(plan, standing, task, good) {
        return good_size(plan, good);
    }
    held_size(standing, good)
}

/// What a place holds after one task more of a fresh order.
fn level_after(
    plan: &Plan,
    standing: &Standing,
    tasks: &[TaskId],
    k: usize,
    at: u32,
    need: u64,
    before: u64,
) -> u64
    requires limits { IsWithinLimits plan.now }
    requires goods { KeepsGoods plan.now }
    requires standing { IsStanding plan.now standing.now }
    requires small { (g : ℕ) → sizes (held_of standing.now) g ≤ good_size plan.now g }
    requires follows { Follows plan.now (phase_of standing.now) (task_numbers tasks.now) }
    requires within { k < length tasks.now }
    requires place { at < places plan.now }
    requires need { is_clean plan.now (get_or (task_numbers tasks.now) k 0) ≡ false
        → need ≡ brings plan.now (sizes (held_of standing.now)) at (get_or (task_numbers tasks.now) k 0) }
    requires level { before ≡ usage plan.now (sizes (held_of standing.now))
        (take k (task_numbers tasks.now)) at }
    ensures { result ≡ usage plan.now (sizes (held_of standing.now))
        (take (k + 1) (task_numbers tasks.now)) at }
{
    sums_are_small();
    let task = task_at(tasks, k);
    match cleaned_by(plan, TaskId(task)) {
        None => before + need,
        Some(good) => before - cleaned_now(plan, standing, at, task, good),
    }
}

/// Makes a list another one.
fn overwrite(line: &mut Vec<TaskId>, tasks: &[TaskId])
    requires { length tasks.now ≤ vec_capacity line.old }
    ensures items { line.new.items ≡ tasks.now }
    ensures room { vec_capacity line.old ≤ vec_capacity line.new }
{
    line.clear();
    match line.extend_from_slice(tasks) {
        Ok(()) => {}
        Err(_) => {}
    }
}

/// Adds a task without a mark.
fn add_other(line: &mut Vec<TaskId>, left: &[bool], task: usize)
    requires within { task < length left.now }
    requires few { length left.now < 2 ^ 32 }
    requires room { is_left left.now task ≡ false → length line.old.items < vec_capacity line.old }
    ensures items { task_numbers line.new.items
        ≡ task_numbers line.old.items ++ cond (not (is_left left.now task)) (task ∷ []) [] }
    ensures room { vec_capacity line.new ≡ vec_capacity line.old }
{
    if left[task] {
        return;
    }
    line.push_reserved(TaskId(task as u32));
}

/// Adds the tasks without a mark.
fn add_others(line: &mut Vec<TaskId>, left: &[bool])
    requires few { length left.now < 2 ^ 32 }
    requires room { length line.old.items + length (below (length left.now) (λ u. not (is_left left.now u)))
        ≤ vec_capacity line.old }
    ensures { task_numbers line.new.items ≡ task_numbers line.old.items
        ++ below (length left.now) (λ u. not (is_left left.now u)) }
{
    for task in 0..left.len() {
        add_other(line, left, task);
    }
}

/// No task is left but these.
fn mark_only(left: &mut Vec<bool>, tasks: &[TaskId])
    requires { (u : ℕ) → has (task_numbers tasks.now) u ≡ true → u < length left.old.items }
    ensures long { length left.new.items ≡ length left.old.items }
    ensures each { (u : ℕ) → is_left left.new.items u ≡ has (task_numbers tasks.now) u }
{
    left.fill(false);
    for k in 0..tasks.len() {
        let task = task_at(tasks, k);
        left[task as usize] = true;
    }
}

/// The first positions of the tree of a place have these numbers, and the others aren't live.
#[tactic(auto, using(crate::proofs::SetLemmas::get_set))]
fn refill_at(trees: &mut Vec<PeakTree>, place: u32, levels: &[u64])
    requires place { place < length trees.old.items }
    requires few { length levels.now ≤ length (get_or trees.old.items place []) }
    ensures long { length trees.new.items ≡ length trees.old.items }
    ensures each { (q : ℕ) → get_or trees.new.items q []
        ≡ cond (place == q) (filled levels.now (length (get_or trees.old.items place [])))
        (get_or trees.old.items q []) }
{
    refill(&mut trees[place as usize], levels);
}

impl Peaks {
    /// Whether a task changes a place.
    fn is_there(&self, place: u32, task: u32) -> bool
        ensures { result ≡ is_place place (get_or self.now.seating.homes.items task None) }
    {
        match self.seating.home(task) {
            None => false,
            Some(home) => home == place,
        }
    }

    /// One task more of a fresh order, at one place.
    fn pass_task(
        &self,
        plan: &Plan,
        standing: &Standing,
        tasks: &[TaskId],
        at: u32,
        k: usize,
        level: u64,
        levels: &mut Vec<u64>,
    ) -> u64
        requires walk { CanWalk plan.now self.now.seating.homes.items self.now.needs.items self.now.base.items
            standing.now (task_numbers tasks.now) }
        requires place { at < places plan.now }
        requires within { k < length tasks.now }
        requires so_far { IsLevel plan.now (sizes (held_of standing.now))
            (task_numbers tasks.now) at k level levels.old.items }
        requires room { length tasks.now ≤ vec_capacity levels.old }
        ensures next { IsLevel plan.now (sizes (held_of standing.now)) (task_numbers tasks.now) at
            (k + 1) result levels.new.items }
        ensures room { vec_capacity levels.new ≡ vec_capacity levels.old }
    {
        let task = task_at(tasks, k);
        if !self.is_there(at, task) {
            return level;
        }
        let after = level_after(plan, standing, tasks, k, at, self.need(task), level);
        levels.push_reserved(after);
        after
    }

    /// What a place holds after each task of a fresh order that changes it.
    pub(crate) fn find_levels(
        &self,
        plan: &Plan,
        standing: &Standing,
        tasks: &[TaskId],
        at: u32,
        levels: &mut Vec<u64>,
    )
        requires walk { CanWalk plan.now self.now.seating.homes.items self.now.needs.items self.now.base.items
            standing.now (task_numbers tasks.now) }
        requires place { at < places plan.now }
        requires room { length tasks.now ≤ vec_capacity levels.old }
        ensures levels { map Some levels.new.items
            ≡ values (there plan.now at) all_left
            (held_by plan.now (sizes (held_of standing.now)) at) [] (task_numbers tasks.now) }
        ensures room { vec_capacity levels.new ≡ vec_capacity levels.old }
    {
        levels.clear();
        let mut level = self.base(at);
        for k in 0..tasks.len() {
            level = self.pass_task(plan, standing, tasks, at, k, level, levels);
        }
    }

    /// The trees of a fresh order.
    fn refill_all(
        &mut self,
        plan: &Plan,
        standing: &Standing,
        tasks: &[TaskId],
        levels: &mut Vec<u64>,
    )
        requires walk { CanWalk plan.now self.old.seating.homes.items self.old.needs.items self.old.base.items
            standing.now (task_numbers tasks.now) }
        requires long { length self.old.trees.items ≡ places plan.now }
        requires wide { (q : ℕ) → q < places plan.now
            → length (filter (there plan.now q) (task_numbers tasks.now))
            ≤ length (get_or self.old.trees.items q []) }
        requires room { length tasks.now ≤ vec_capacity levels.old }
        ensures same { self.new ≡ record self.old { trees = self.new.trees } }
        ensures long { length self.new.trees.items ≡ length self.old.trees.items }
        ensures trees { (q : ℕ) → q < places plan.now
            → get_or self.new.trees.items q []
            ≡ renewed_values plan.now (sizes (held_of standing.now)) (task_numbers tasks.now) q
            (get_or self.old.trees.items q []) }
        ensures room { vec_capacity levels.new ≡ vec_capacity levels.old }
    {
        for at in 0..places(plan) {
            self.find_levels(plan, standing, tasks, at as u32, levels);
            refill_at(&mut self.trees, at as u32, levels.as_slice());
        }
    }

    /// A fresh order is laid out: its tasks are left, and stand in the line before all others.
    fn lay(&mut self, plan: &Plan, tasks: &[TaskId])
        requires limits { IsWithinLimits plan.now }
        requires one { ChangesOnePlace plan.now }
        requires once { AreOnce (task_numbers tasks.now) }
        requires low { (u : ℕ) → has (task_numbers tasks.now) u ≡ true → u < count_tasks plan.now }
        requires marks { length self.old.left.items ≡ count_tasks plan.now }
        requires seated { IsSeating plan.now self.old.seating }
        ensures same { self.new ≡ record self.old {
          seating = self.new.seating;
          left = self.new.left;
          first = 0;
        } }
        ensures laid { IsLaid plan.now self.old.seating self.new.seating (task_numbers tasks.now) }
        ensures left { (u : ℕ) → left_of self.new u ≡ has (task_numbers tasks.now) u }
        ensures marks { length self.new.left.items ≡ count_tasks plan.now }
    {
        self.first = 0;
        mark_only(&mut self.left, tasks);
        overwrite(&mut self.seating.line, tasks);
        add_others(&mut self.seating.line, self.left.as_slice());
        self.seating.seat_all(plan);
    }

    /// A task begins with a fresh order of all that wait then.
    pub fn enter_regrant(
        &mut self,
        plan: &Plan,
        standing: &Standing,
        task: u32,
        tasks: &[TaskId],
        levels: &mut Vec<u64>,
    )
        requires proper { IsProper plan.now }
        requires limits { IsWithinLimits plan.now }
        requires can { CanRenew plan.now self.old standing.now task (task_numbers tasks.now) }
        requires room { count_tasks plan.now ≤ vec_capacity levels.old }
        ensures tied { (s : State) (w : ℕ) → AreTied plan.now s self.old
            → Allowed plan.now s (Regrant w task)
            → order_with plan.now s task ≡ Some (task_numbers tasks.now)
            → IsShown plan.now standing.now (after plan.now s (Regrant w task))
            → AreTied plan.now (after plan.now s (Regrant w task)) self.new }
        ensures room { vec_capacity levels.new ≡ vec_capacity levels.old }
    {
        proper_plans_keep_goods();
        sums_are_small();
        let need = self.need(task);
        add_base(&mut self.base, &self.seating, task, need);
        self.lay(plan, tasks);
        self.refill_all(plan, standing, tasks, levels);
        self.ready.renew(plan, &self.seating);
        self.refresh_all(plan);
    }
}
