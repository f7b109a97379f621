//! The trees of an order, before the first entry.

ghost use Rattle.std.specs.Prelude.{◌≡◌, ◌<◌, ◌≤◌, ◌^◌, ℕ, [], length, get_or, None, Some, IfOk};
ghost use Rattle.plan_core.specs.code.Proper.{IsProper};
ghost use Rattle.plan_core.specs.Words.{count_tasks, parents, task_numbers};
ghost use Rattle.storage_simulation.specs.code.Change.{size_part};
ghost use Rattle.storage_simulation.specs.code.Goods.{IsWithinLimits, place};
ghost use Rattle.storage_simulation.specs.Goods.{makes, places};
ghost use Rattle.storage_simulation.specs.code.Standings.{held_of};
ghost use Rattle.storage_simulation.specs.Standings.{sizes};
ghost use Rattle.storage_simulation.specs.Usage.{sum_of};
ghost use Rattle.lease_rules.specs.code.Law.{FitsFromStart};
ghost use Rattle.lease_rules.specs.State.{opened};
ghost use Rattle.place_peaks.specs.Entries.{AreTied, IsWhole};
ghost use Rattle.place_peaks.specs.Peaks.{ArePeaks, IsSeating};
ghost use Rattle.place_peaks.specs.Places.{ChangesOnePlace, held_by, there};
ghost use Rattle.place_peaks.specs.Ready.{AreSmall, HasGroups};
ghost use Rattle.place_peaks.specs.Renewing.{CanWalk};
ghost use Rattle.place_peaks.specs.Values.{all_left, values};

use crate::goods::made_size;
use crate::law::plans_have_rules;
use crate::peaks::Peaks;
use crate::ready::Ready;
use crate::seating::Seating;
use peak_tree::PeakTree;
use plan_core::{Plan, parents_come_before};
use std::alloc::Global;
use storage_simulation::{Standing, place_of, places, sums_are_small};
use values::{Memory, TaskId};

fn homes_of(alloc: Global, plan: &Plan) -> Result<Vec<Option<u32>>, Memory>
    requires { IsWithinLimits plan.now }
    ensures { IfOk result (λ v. (t : ℕ) → t < count_tasks plan.now
        → get_or v.items t None ≡ place plan.now t) }
{
    let mut homes = Vec::new(alloc);
    for task in 0..plan.tasks.as_slice().len() {
        homes.push(place_of(plan, TaskId(task as u32)))?;
    }
    Ok(homes)
}

/// How many parents a task has.
#[tactic(auto, using(lease_rules::proofs::NumbersLemmas::count_tasks_in))]
fn count_parents(plan: &Plan, task: u32) -> u32
    requires { length (parents plan.now task) < 2 ^ 32 }
    ensures { result ≡ length (parents plan.now task) }
{
    plan.parents(TaskId(task)).len() as u32
}

fn missing_of(alloc: Global, plan: &Plan) -> Result<Vec<u32>, Memory>
    requires limits { IsWithinLimits plan.now }
    requires few { (t : ℕ) → length (parents plan.now t) ≤ count_tasks plan.now }
    ensures long { IfOk result (λ v. length v.items ≡ count_tasks plan.now) }
    ensures each { IfOk result (λ v. (t : ℕ) → t < count_tasks plan.now
        → get_or v.items t 1 ≡ length (parents plan.now t)) }
{
    let mut missing = Vec::new(alloc);
    for task in 0..plan.tasks.as_slice().len() {
        missing.push(count_parents(plan, task as u32))?;
    }
    Ok(missing)
}

/// What a task brings to its place.
fn need_of(plan: &Plan, task: u32) -> u64
    requires limits { IsWithinLimits plan.now }
    requires few { (q : ℕ) → place plan.now task ≡ Some q
        → sum_of (size_part plan.now q) (makes plan.now task) < 2 ^ 62 }
    ensures sum { (q : ℕ) → place plan.now task ≡ Some q
        → result ≡ sum_of (size_part plan.now q) (makes plan.now task) }
    ensures small { result ≤ 2 ^ 62 }
{
    match place_of(plan, TaskId(task)) {
        None => 0,
        Some(at) => made_size(plan, at, task),
    }
}

fn needs_of(alloc: Global, plan: &Plan) -> Result<Vec<u64>, Memory>
    requires limits { IsWithinLimits plan.now }
    requires few { (t q : ℕ) → place plan.now t ≡ Some q
        → sum_of (size_part plan.now q) (makes plan.now t) < 2 ^ 62 }
    ensures each { IfOk result (λ v. (t q : ℕ) → t < count_tasks plan.now → place plan.now t ≡ Some q
        → get_or v.items t 0 ≡ sum_of (size_part plan.now q) (makes plan.now t)) }
    ensures small { IfOk result (λ v. (t : ℕ) → get_or v.items t 0 ≤ 2 ^ 62) }
{
    let mut needs = Vec::new(alloc);
    for task in 0..plan.tasks.as_slice().len() {
        needs.push(need_of(plan, task as u32))?;
    }
    Ok(needs)
}

fn copied(alloc: Global, tasks: &[TaskId]) -> Result<Vec<TaskId>, Memory>
    ensures { IfOk result (λ copy. copy.items ≡ tasks.now) }
{
    Ok(tasks.iter().copied().collect(alloc)?)
}

/// The line of an order.
fn seating_of(alloc: Global, plan: &Plan, order: &[TaskId]) -> Result<Seating, Memory>
    requires limits { IsWithinLimits plan.now }
    requires one { ChangesOnePlace plan.now }
    requires fits { FitsFromStart plan.now (task_numbers order.now) }
    ensures line { IfOk result (λ x. x.line.items ≡ order.now) }
    ensures seated { IfOk result (λ x. IsSeating plan.now x) }
{
    let mut seating = Seating {
        line: copied(alloc, order)?,
        homes: homes_of(alloc, plan)?,
        seats: vec![in alloc; 0; plan.tasks.as_slice().len()]?,
        widths: vec![in alloc; 0; places(plan)]?,
    };
    seating.seat_all(plan);
    Ok(seating)
}

impl Peaks {
    /// The trees of an order that fits from the start, before the first entry.
    pub fn open(alloc: Global, plan: &Plan, order: &[TaskId]) -> Result<Peaks, Memory>
        requires proper { IsProper plan.now }
        requires limits { IsWithinLimits plan.now }
        requires fits { FitsFromStart plan.now (task_numbers order.now) }
        ensures tied { IfOk result (λ b. AreTied plan.now (opened (task_numbers order.now)) b) }
        ensures stack { IfOk result (λ b. b.again.items ≡ []) }
    {
        let mut peaks = Peaks::make(alloc, plan, order)?;
        peaks.refresh_all(plan);
        Ok(peaks)
    }

    /// The same, without a score.
    fn make(alloc: Global, plan: &Plan, order: &[TaskId]) -> Result<Peaks, Memory>
        requires proper { IsProper plan.now }
        requires limits { IsWithinLimits plan.now }
        requires fits { FitsFromStart plan.now (task_numbers order.now) }
        ensures tied { IfOk result (λ b. ArePeaks plan.now (opened (task_numbers order.now)) b) }
        ensures stack { IfOk result (λ b. b.again.items ≡ []) }
        ensures whole { IfOk result (λ b. IsWhole plan.now b) }
        ensures groups { IfOk result (λ b. HasGroups plan.now b) }
        ensures small { IfOk result (λ b. AreSmall b) }
    {
        sums_are_small();
        parents_come_before();
        plans_have_rules();
        let tasks = plan.tasks.as_slice().len();
        let left = vec![in alloc; true; tasks]?;
        let needs = needs_of(alloc, plan)?;
        let missing = missing_of(alloc, plan)?;
        let again = Vec::with_capacity(alloc, tasks)?;
        let base = vec![in alloc; 0; places(plan)]?;
        let seating = seating_of(alloc, plan, order)?;
        let ready = Ready::new(alloc, plan, &seating)?;
        let mut peaks = Peaks {
            seating,
            left,
            needs,
            missing,
            again,
            base,
            trees: Vec::new(alloc),
            first: 0,
            ready,
        };
        let standing = Standing::start(alloc, plan)?;
        peaks.trees = peaks.plant(alloc, plan, &standing, order)?;
        Ok(peaks)
    }

    /// A tree for each place, of an order of all tasks.
    fn plant(
        &self,
        alloc: Global,
        plan: &Plan,
        standing: &Standing,
        order: &[TaskId],
    ) -> Result<Vec<PeakTree>, Memory>
        requires { CanWalk plan.now self.now.seating.homes.items self.now.needs.items self.now.base.items
            standing.now (task_numbers order.now) }
        ensures long { IfOk result (λ v. length v.items ≡ places plan.now) }
        ensures trees { IfOk result (λ v. (q : ℕ) → q < places plan.now → get_or v.items q []
            ≡ values (there plan.now q) all_left (held_by plan.now (sizes (held_of standing.now)) q) []
            (task_numbers order.now)) }
    {
        let mut levels = Vec::with_capacity(alloc, order.len())?;
        let mut trees = Vec::new(alloc);
        for at in 0..places(plan) {
            self.find_levels(plan, standing, order, at as u32, &mut levels);
            trees.push(PeakTree::of(alloc, levels.as_slice())?)?;
        }
        Ok(trees)
    }
}
