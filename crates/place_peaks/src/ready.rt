//! Which tasks can be asked for room: those of the line that are left and of which no parent is open.

ghost use Rattle.std.specs.Prelude.{◌≡◌, ◌≤◌, ◌<◌, ◌+◌, ◌^◌, ℕ, Bool, false, true, length, get_or, Some, None, IfOk};
ghost use Rattle.plan_core.specs.Numbers.{has};
ghost use Rattle.plan_core.specs.Words.{count_tasks, parents, task_numbers};
ghost use Rattle.storage_simulation.specs.Following.{AreOnce};
ghost use Rattle.storage_simulation.specs.code.Goods.{IsWithinLimits};
ghost use Rattle.storage_simulation.specs.Goods.{places};
ghost use Rattle.place_peaks.specs.Links.{AreLinks};
ghost use Rattle.place_peaks.specs.Peaks.{IsSeating, line_of};
ghost use Rattle.place_peaks.specs.Places.{ChangesOnePlace};
ghost use Rattle.place_peaks.specs.Ready.{AreGrouped, AreSmall, HasGroups, IsIndexedBut, WasGrouped, but_one, but_some, group_of, groups_of, is_ready, position, ready_score, score, with_ready};

use crate::links::Links;
use crate::peaks::Peaks;
use crate::seating::{Seating, at};
use group_index::GroupIndex;
use plan_core::Plan;
use std::alloc::Global;
use storage_simulation::places;
use values::{Memory, TaskId};

/// By task its position in the line; and by position its group, which is the place of its task, or one number more for
/// tasks without one, and the score of the task, where that is ready: what it needs, and one more.
#[derive(Drop)]
pub struct Ready {
    pub(crate) positions: Vec<u32>,
    pub(crate) groups: Vec<u32>,
    pub(crate) index: GroupIndex,
}

/// The group of a task of a home.
pub(crate) fn group_of(plan: &Plan, home: Option<u32>) -> u32
    requires { IsWithinLimits plan.now }
    ensures { result ≡ group_of (places plan.now) home }
{
    match home {
        None => places(plan) as u32,
        Some(place) => place,
    }
}

/// Each task of a line has its position.
fn place_all(positions: &mut Vec<u32>, plan: &Plan, seating: &Seating)
    requires seated { IsSeating plan.now seating.now }
    requires few { length seating.now.line.items < 2 ^ 32 }
    requires long { length positions.old.items ≡ count_tasks plan.now }
    ensures long { length positions.new.items ≡ count_tasks plan.now }
    ensures placed { (k : ℕ) → k < length seating.now.line.items
        → get_or positions.new.items (get_or (task_numbers seating.now.line.items) k 0) 0 ≡ k }
{
    let _ = plan;
    for k in 0..seating.line.len() {
        let task = seating.task(k);
        positions[task as usize] = k as u32;
    }
}

/// Each position of a line has its group.
fn group_all(groups: &mut Vec<u32>, plan: &Plan, seating: &Seating)
    requires limits { IsWithinLimits plan.now }
    requires long { length groups.old.items ≡ length seating.now.line.items }
    ensures { groups.new.items ≡ groups_of (places plan.now) seating.now.homes.items
        (task_numbers seating.now.line.items) }
{
    for k in 0..seating.line.len() {
        let home = seating.home(seating.task(k));
        groups[k] = group_of(plan, home);
    }
}

impl Ready {
    /// The positions and groups of a line, without a score.
    pub(crate) fn new(alloc: Global, plan: &Plan, seating: &Seating) -> Result<Ready, Memory>
        requires limits { IsWithinLimits plan.now }
        requires one { ChangesOnePlace plan.now }
        requires seated { IsSeating plan.now seating.now }
        ensures { IfOk result (λ r. AreGrouped plan.now (task_numbers seating.now.line.items)
            seating.now.homes.items r) }
    {
        let mut positions = vec![in alloc; 0; plan.tasks.as_slice().len()]?;
        place_all(&mut positions, plan, seating);
        let mut groups = vec![in alloc; 0; seating.line.len()]?;
        group_all(&mut groups, plan, seating);
        let index = GroupIndex::new(alloc, groups.as_slice(), places(plan) + 1)?;
        Ok(Ready {
            positions,
            groups,
            index,
        })
    }

    fn position(&self, task: u32) -> usize
        ensures { result ≡ position self.now task }
    {
        at(self.positions.as_slice(), task, 0) as usize
    }

    /// The same tasks in another line, without a score.
    pub(crate) fn renew(&mut self, plan: &Plan, seating: &Seating)
        requires limits { IsWithinLimits plan.now }
        requires one { ChangesOnePlace plan.now }
        requires seated { IsSeating plan.now seating.now }
        requires grouped { WasGrouped plan.now seating.now self.old }
        ensures { AreGrouped plan.now (task_numbers seating.now.line.items) seating.now.homes.items self.new }
    {
        place_all(&mut self.positions, plan, seating);
        group_all(&mut self.groups, plan, seating);
        self.index.renew(self.groups.as_slice());
    }
}

impl Peaks {
    /// What is asked first is what has the least score.
    fn score(&self, plan: &Plan, task: u32) -> u64
        requires { AreSmall self.now }
        ensures { result ≡ score plan.now self.now task }
    {
        match self.seating.home(task) {
            None => 0,
            Some(_) => {
                if plan.is_clean(TaskId(task)) {
                    0
                } else {
                    self.need(task) + 1
                }
            }
        }
    }

    fn is_ready(&self, task: u32) -> bool
        ensures { result ≡ is_ready self.now task }
    {
        self.is_left(task) && self.missing(task) == 0
    }

    fn ready_score(&self, plan: &Plan, task: u32) -> Option<u64>
        requires { AreSmall self.now }
        ensures { result ≡ ready_score plan.now self.now task }
    {
        if self.is_ready(task) {
            Some(self.score(plan, task))
        } else {
            None
        }
    }

    /// Whether the line has a task at a position.
    fn stands_at(&self, k: usize, task: u32) -> bool
        ensures yes { result ≡ true
            → (k < length (line_of self.now)) × (get_or (line_of self.now) k 0 ≡ task) }
        ensures no { result ≡ false → k < length (line_of self.now) → get_or (line_of self.now) k 0 ≡ task
            → ⊥ }
    {
        k < self.count_line() && self.line_task(k) == task
    }

    /// The score of a task becomes what it is now.
    pub(crate) fn refresh(&mut self, plan: &Plan, task: u32)
        requires groups { HasGroups plan.now self.old }
        requires small { AreSmall self.old }
        ensures same { self.new ≡ with_ready self.old self.new.ready }
        ensures groups { HasGroups plan.now self.new }
        ensures indexed { (off : ℕ → Bool) → IsIndexedBut plan.now self.old off
            → IsIndexedBut plan.now self.new (but_one off task) }
    {
        let k = self.ready.position(task);
        if self.stands_at(k, task) {
            let score = self.ready_score(plan, task);
            self.ready.index.set(k, score);
        }
    }

    /// The scores of a task's children become what they are now.
    pub(crate) fn refresh_children(&mut self, plan: &Plan, links: &Links, task: u32)
        requires links { AreLinks plan.now links.now }
        requires groups { HasGroups plan.now self.old }
        requires small { AreSmall self.old }
        ensures same { self.new ≡ with_ready self.old self.new.ready }
        ensures groups { HasGroups plan.now self.new }
        ensures indexed { (off : ℕ → Bool) → IsIndexedBut plan.now self.old off
            → IsIndexedBut plan.now self.new (but_some off (λ u. has (parents plan.now u) task)) }
    {
        let children = links.children_of(task);
        for i in 0..children.len() {
            self.refresh(plan, children[i]);
        }
    }

    /// The scores of all tasks become what they are now.
    pub(crate) fn refresh_all(&mut self, plan: &Plan)
        requires groups { HasGroups plan.now self.old }
        requires small { AreSmall self.old }
        ensures same { self.new ≡ with_ready self.old self.new.ready }
        ensures groups { HasGroups plan.now self.new }
        ensures indexed { IsIndexedBut plan.now self.new (λ t. false) }
    {
        for k in 0..self.count_line() {
            let task = self.line_task(k);
            self.refresh(plan, task);
        }
    }
}
