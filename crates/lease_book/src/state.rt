//! The state of a record, as arrays by number.

ghost use Rattle.std.specs.Prelude.{◌≡◌, ◌<◌, ℕ, true, false, length, Some, Decides, IfOk};
ghost use Rattle.std.specs.List.{list_any};
ghost use Rattle.plan_core.specs.Words.{count_tasks, task_numbers};
ghost use Rattle.run_record.specs.Events.{Grant, Regrant, Arrive, End, Clean, Fail, Again};
ghost use Rattle.plan_core.specs.code.Proper.{IsProper};
ghost use Rattle.storage_simulation.specs.code.Goods.{IsWithinLimits};
ghost use Rattle.storage_simulation.specs.Goods.{makes};
ghost use Rattle.storage_simulation.specs.code.Standings.{at_in};
ghost use Rattle.lease_rules.specs.code.Law.{HasStorageLaws};
ghost use Rattle.lease_rules.specs.code.Law.{FitsFromStart};
ghost use Rattle.lease_rules.specs.Legal.{Allowed, IsOpen};
ghost use Rattle.lease_rules.specs.State.{after, opened, order_with, put};
ghost use Rattle.lease_rules.specs.code.State.{runs};
ghost use Rattle.place_peaks.specs.Entries.{Frees};
ghost use Rattle.lease_book.specs.RunState.{HasPeaks, HasRoom, IsSame, state_of};

use crate::holding;
use place_peaks::{Links, Peaks, fails_keep_peaks, held_size};
use plan_core::Plan;
use run_record::Cause;
use std::alloc::Global;
use storage_simulation::{Phase, Standing, cleaned_by};
use values::{Memory, TaskId};

/// A state; the allocator makes empty lists, which take no memory. The tasks that are left are those of the trees, whose
/// numbers for a fresh order are made in room of its own.
pub struct RunState {
    pub(crate) alloc: Global,
    pub(crate) standing: Standing,
    pub(crate) holders: Vec<u32>,
    pub(crate) agains: Vec<u32>,
    pub(crate) failed: Vec<bool>,
    pub(crate) failing: bool,
    pub(crate) peaks: Peaks,
    pub(crate) links: Links,
    pub(crate) levels: Vec<u64>,
}

impl Drop for RunState {
    fn drop(self) {
        let RunState {
            alloc,
            standing,
            holders,
            agains,
            failed,
            failing,
            peaks,
            links,
            levels,
        } = self;
    }
}

#[tactic(auto, using(crate::proofs::ArrayLemmas::at_set))]
fn set_number(numbers: &mut Vec<u32>, task: u32, number: u32)
    requires { task < length numbers.old.items }
    ensures value { (t : ℕ) → at_in 0 numbers.new.items t ≡ put (at_in 0 numbers.old.items) task number t }
    ensures long { length numbers.new.items ≡ length numbers.old.items }
{
    numbers[task as usize] = number;
}

#[tactic(auto, using(crate::proofs::ArrayLemmas::at_set))]
fn set_flag(flags: &mut Vec<bool>, task: u32)
    requires { task < length flags.old.items }
    ensures value { (t : ℕ) → at_in false flags.new.items t ≡ put (at_in false flags.old.items) task true t }
    ensures long { length flags.new.items ≡ length flags.old.items }
{
    flags[task as usize] = true;
}

impl RunState {
    /// The state before the first entry.
    pub(crate) fn open(alloc: Global, plan: &Plan, order: &[TaskId]) -> Result<RunState, Memory>
        requires proper { IsProper plan.now }
        requires limits { IsWithinLimits plan.now }
        requires fits { FitsFromStart plan.now (task_numbers order.now) }
        ensures state { IfOk result (λ s. IsSame (state_of s) (opened (task_numbers order.now))) }
        ensures room { IfOk result (λ s. HasRoom plan.now s) }
        ensures peaks { IfOk result (λ s. HasPeaks plan.now s) }
    {
        let tasks = plan.tasks.as_slice().len();
        let standing = Standing::start(alloc, plan)?;
        let holders = vec![in alloc; 0; tasks]?;
        let agains = vec![in alloc; 0; tasks]?;
        let failed = vec![in alloc; false; tasks]?;
        let peaks = Peaks::open(alloc, plan, order)?;
        let links = Links::new(alloc, plan)?;
        let levels = Vec::with_capacity(alloc, tasks)?;
        Ok(RunState {
            alloc,
            standing,
            holders,
            agains,
            failed,
            failing: false,
            peaks,
            links,
            levels,
        })
    }

    /// How often a task was tried again.
    pub(crate) fn agains(&self, task: u32) -> u32
        ensures { result ≡ (state_of self.now).agains task }
    {
        match self.agains.get(task as usize) {
            Some(count) => *count,
            None => 0,
        }
    }

    /// Whether a task runs.
    fn runs(&self, task: u32) -> bool
        ensures { result ≡ runs ((state_of self.now).phase task) }
    {
        match self.standing.tasks.as_slice().get(task as usize) {
            Some(Phase::Runs) => true,
            _ => false,
        }
    }

    /// Whether any task runs.
    pub(crate) fn any_runs(&self) -> bool
        ensures { result ≡ list_any runs self.now.standing.tasks }
    {
        self.standing
            .tasks
            .as_slice()
            .iter()
            .any(|phase| matches!(phase, Phase::Runs))
    }

    /// Whether a Fail of the task stands.
    fn has_failed(&self, task: u32) -> bool
        ensures { result ≡ (state_of self.now).failed task }
    {
        match self.failed.get(task as usize) {
            Some(failed) => *failed,
            None => false,
        }
    }

    /// Whom the last grant of a task names.
    fn holder(&self, task: u32) -> u32
        ensures { result ≡ (state_of self.now).holder task }
    {
        match self.holders.get(task as usize) {
            Some(holder) => *holder,
            None => 0,
        }
    }

    /// Whether a task is open for a worker.
    pub(crate) fn holds(&self, worker: u32, task: u32) -> bool
        ensures { Decides result (IsOpen (state_of self.now) worker task) }
    {
        if !self.runs(task) {
            return false;
        }
        if self.has_failed(task) {
            return false;
        }
        self.holder(task) == worker
    }

    /// What is held of the good that a task cleans.
    fn frees(&self, plan: &Plan, task: u32) -> u64
        ensures { Frees plan.now (state_of self.now) task result }
    {
        match cleaned_by(plan, TaskId(task)) {
            Some(good) => held_size(&self.standing, good),
            None => 0,
        }
    }

    /// A task begins.
    pub(crate) fn enter_grant(&mut self, plan: &Plan, worker: u32, task: u32)
        requires limits { IsWithinLimits plan.now }
        requires laws { HasStorageLaws plan.now }
        requires room { HasRoom plan.now self.old }
        requires peaks { HasPeaks plan.now self.old }
        requires allowed { Allowed plan.now (state_of self.old) (Grant worker task) }
        requires task { task < count_tasks plan.now }
        ensures state { state_of self.new ≡ after plan.now (state_of self.old) (Grant worker task) }
        ensures room { HasRoom plan.now self.new }
        ensures peaks { HasPeaks plan.now self.new }
    {
        holding::start(self.alloc, plan, &mut self.standing, task);
        set_number(&mut self.holders, task, worker);
        self.peaks.enter_grant(plan, task);
    }

    /// A task begins under a fresh order.
    pub(crate) fn enter_regrant(&mut self, plan: &Plan, worker: u32, task: u32, tasks: &[TaskId])
        requires limits { IsWithinLimits plan.now }
        requires laws { HasStorageLaws plan.now }
        requires room { HasRoom plan.now self.old }
        requires peaks { HasPeaks plan.now self.old }
        requires allowed { Allowed plan.now (state_of self.old) (Regrant worker task) }
        requires proper { IsProper plan.now }
        requires task { task < count_tasks plan.now }
        requires order { order_with plan.now (state_of self.old) task ≡ Some (task_numbers tasks.now) }
        ensures state { state_of self.new ≡ after plan.now (state_of self.old) (Regrant worker task) }
        ensures room { HasRoom plan.now self.new }
        ensures peaks { HasPeaks plan.now self.new }
    {
        holding::start(self.alloc, plan, &mut self.standing, task);
        set_number(&mut self.holders, task, worker);
        self.peaks
            .enter_regrant(plan, &self.standing, task, tasks, &mut self.levels);
    }

    /// A Transfer ends.
    pub(crate) fn enter_arrive(&mut self, plan: &Plan, worker: u32, task: u32, size: u64)
        requires limits { IsWithinLimits plan.now }
        requires laws { HasStorageLaws plan.now }
        requires room { HasRoom plan.now self.old }
        requires peaks { HasPeaks plan.now self.old }
        requires allowed { Allowed plan.now (state_of self.old) (Arrive worker task size) }
        requires proper { IsProper plan.now }
        requires task { task < count_tasks plan.now }
        ensures state { state_of self.new ≡ after plan.now (state_of self.old) (Arrive worker task size) }
        ensures room { HasRoom plan.now self.new }
        ensures peaks { HasPeaks plan.now self.new }
    {
        let _ = worker;
        holding::arrive(self.alloc, plan, &mut self.standing, task, size);
        self.peaks.enter_arrive(plan, &self.links, task, size);
    }

    /// A Run ends.
    pub(crate) fn enter_end(&mut self, plan: &Plan, worker: u32, task: u32, sizes: &[u64])
        requires limits { IsWithinLimits plan.now }
        requires laws { HasStorageLaws plan.now }
        requires room { HasRoom plan.now self.old }
        requires peaks { HasPeaks plan.now self.old }
        requires allowed { Allowed plan.now (state_of self.old) (End worker task sizes.now) }
        requires proper { IsProper plan.now }
        requires task { task < count_tasks plan.now }
        requires sizes { length sizes.now ≡ length (makes plan.now task) }
        ensures state { state_of self.new ≡ after plan.now (state_of self.old) (End worker task sizes.now) }
        ensures room { HasRoom plan.now self.new }
        ensures peaks { HasPeaks plan.now self.new }
    {
        let _ = worker;
        holding::end(self.alloc, plan, &mut self.standing, task, sizes);
        self.peaks.enter_end(plan, &self.links, task, sizes);
    }

    /// A Clean is done.
    pub(crate) fn enter_clean(&mut self, plan: &Plan, worker: u32, task: u32)
        requires laws { HasStorageLaws plan.now }
        requires room { HasRoom plan.now self.old }
        requires peaks { HasPeaks plan.now self.old }
        requires allowed { Allowed plan.now (state_of self.old) (Clean worker task) }
        requires proper { IsProper plan.now }
        requires limits { IsWithinLimits plan.now }
        requires task { task < count_tasks plan.now }
        ensures state { state_of self.new ≡ after plan.now (state_of self.old) (Clean worker task) }
        ensures room { HasRoom plan.now self.new }
        ensures peaks { HasPeaks plan.now self.new }
    {
        let _ = worker;
        let frees = self.frees(plan, task);
        holding::clean(self.alloc, plan, &mut self.standing, task);
        self.peaks.enter_clean(plan, &self.links, task, frees);
    }

    /// A task is tried again.
    pub(crate) fn enter_again(
        &mut self,
        plan: &Plan,
        worker: u32,
        task: u32,
        cause: &Cause,
        published: &[u64],
    )
        requires room { HasRoom plan.now self.old }
        requires peaks { HasPeaks plan.now self.old }
        requires allowed { Allowed plan.now (state_of self.old) (Again worker task cause.now published.now) }
        requires limits { IsWithinLimits plan.now }
        requires task { task < count_tasks plan.now }
        requires few { (state_of self.old).agains task < 1000 }
        ensures state { state_of self.new ≡ after plan.now (state_of self.old)
            (Again worker task cause.now published.now) }
        ensures room { HasRoom plan.now self.new }
        ensures peaks { HasPeaks plan.now self.new }
    {
        let _ = worker;
        let _ = cause;
        let _ = published;
        let count = self.agains(task);
        set_number(&mut self.agains, task, count + 1);
        let frees = self.frees(plan, task);
        holding::wait_again(self.alloc, plan, &mut self.standing, task);
        self.peaks.enter_again(plan, task, frees);
    }

    /// A task has failed.
    pub(crate) fn enter_fail(
        &mut self,
        plan: &Plan,
        worker: u32,
        task: u32,
        cause: &Cause,
        published: &[u64],
    )
        requires room { HasRoom plan.now self.old }
        requires peaks { HasPeaks plan.now self.old }
        requires allowed { Allowed plan.now (state_of self.old) (Fail worker task cause.now published.now) }
        requires task { task < count_tasks plan.now }
        ensures state { state_of self.new ≡ after plan.now (state_of self.old)
            (Fail worker task cause.now published.now) }
        ensures room { HasRoom plan.now self.new }
        ensures peaks { HasPeaks plan.now self.new }
    {
        fails_keep_peaks();
        let _ = worker;
        let _ = cause;
        let _ = published;
        set_flag(&mut self.failed, task);
        self.failing = true;
    }
}
