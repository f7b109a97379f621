//! A plan with its order.

ghost use Rattle.std.specs.Prelude.{◌≡◌, ◌<◌, ℕ, IfErr, IfOk, get_or, length};
ghost use Rattle.plan_core.specs.code.Proper.{IsProper, IsProper-prop};
ghost use Rattle.plan_core.specs.Words.{task_numbers};
ghost use Rattle.storage_simulation.specs.code.Front.{front_of};
ghost use Rattle.storage_simulation.specs.Fitting.{Fits};
ghost use Rattle.storage_simulation.specs.code.Goods.{IsWithinLimits};
ghost use Rattle.storage_simulation.specs.Goods.{places};
ghost use Rattle.storage_simulation.specs.code.Ordered.{IsFault};
ghost use Rattle.storage_simulation.specs.code.Ordering.{IsOrder, IsPeak};
ghost use Rattle.storage_simulation.specs.Ordering.{all_wait, at_start, nothing_held};
ghost use Rattle.storage_simulation.specs.declared.ordered.OrderFault.TheVariants as fault;

use crate::bench::Bench;
use crate::fitting::Exceeds;
use crate::law::proper_plans_keep_goods;
use crate::order_law::order_fits;
use crate::ordering::order_from;
use crate::standing::Standing;
use plan_core::Plan;
use std::alloc::Global;
use values::{Memory, SiteId, TaskId};

/// A proper plan within the limits, with the order of all its tasks from the start, and the peak of each place.
pub struct Ordered {
    plan: Plan,
    tasks: Vec<TaskId>,
    peaks: Vec<u64>,
    ghost proper: { IsProper plan } by { IsProper-prop plan },
    ghost limits: { IsWithinLimits plan },
    ghost order: { ∥ IsOrder plan at_start (task_numbers tasks.items) ∥₁ },
    ghost fits: { Fits plan all_wait nothing_held (task_numbers tasks.items) },
    ghost peaks_are: { ∥ ((s : ℕ) → s < places plan
        → IsPeak plan at_start (task_numbers tasks.items) s (get_or peaks.items s 0)) ∥₁ },
}

impl Drop for Ordered {
    fn drop(self) {
        let Ordered { plan, tasks, peaks } = self;
    }
}

/// Why there is no order.
#[derive(Clone, Copy)]
pub enum OrderFault {
    Exceeds(Exceeds),
    Memory,
}

/// Why there is no order, with the plan that was given.
#[derive(Drop)]
pub struct OrderRefused {
    pub fault: OrderFault,
    pub plan: Plan,
}

impl From<Memory> for OrderFault {
    ghost from_gives = { λ _ e. e ≡ fault.Memory };

    fn from(_e: Memory) -> OrderFault {
        OrderFault::Memory
    }
}

fn peak_at(peaks: &[u64], place: u32) -> u64
    ensures { result ≡ get_or peaks.now place 0 }
{
    match peaks.get(place as usize) {
        Some(peak) => *peak,
        None => 0,
    }
}

impl Ordered {
    pub fn plan(&self) -> &Plan
        ensures { result.now ≡ self.now.plan }
    {
        &self.plan
    }

    /// The tasks in order.
    pub fn tasks(&self) -> &[TaskId]
        ensures tasks { result.now ≡ self.now.tasks.items }
        ensures order { ∥ IsOrder self.now.plan at_start (task_numbers result.now) ∥₁ }
        ensures fits { Fits self.now.plan all_wait nothing_held (task_numbers result.now) }
    {
        self.tasks.as_slice()
    }

    /// The most that a site holds, in bytes; the output has the number that follows the last site's.
    pub fn peak(&self, site: SiteId) -> u64
        requires { site.0 < places self.now.plan }
        ensures { ∥ IsPeak self.now.plan at_start (task_numbers self.now.tasks.items) site.0 result ∥₁ }
    {
        peak_at(&self.peaks, site.0)
    }

    /// The plan and the tasks in order, given over.
    pub fn into_parts(self) -> (Plan, Vec<TaskId>)
        ensures plan { result.0 ≡ self.plan }
        ensures tasks { result.1 ≡ self.tasks }
    {
        let Ordered { plan, tasks, peaks } = self;
        drop(peaks);
        (plan, tasks)
    }
}

/// The order of a plan from the start, on a bench.
fn order_of(alloc: Global, plan: &Plan) -> Result<Bench, OrderFault>
    requires proper { IsProper plan.now }
    requires limits { IsWithinLimits plan.now }
    ensures order { IfOk result (λ b. IsOrder plan.now at_start (front_of b.front)) }
    ensures peaks { IfOk result (λ b. (s : ℕ) → s < places plan.now
        → IsPeak plan.now at_start (front_of b.front) s (get_or b.front.peaks.items s 0)) }
    ensures fault { IfErr result (λ f. IsFault plan.now f) }
{
    let standing = Standing::start(alloc, plan)?;
    let mut bench = Bench::new(alloc, plan)?;
    match order_from(plan, &standing, &mut bench) {
        Ok(()) => Ok(bench),
        Err(exceeds) => Err(OrderFault::Exceeds(exceeds)),
    }
}

/// The order of a plan's tasks from the start.
pub fn order(alloc: Global, plan: Plan) -> Result<Ordered, OrderRefused>
    requires proper { IsProper plan }
    requires limits { IsWithinLimits plan }
    ensures order { IfOk result (λ o. IsOrder plan at_start (task_numbers o.tasks.items)) }
    ensures plan { IfOk result (λ o. o.plan ≡ plan) }
    ensures fault { IfErr result (λ r. IsFault plan r.fault) }
    ensures back { IfErr result (λ r. r.plan ≡ plan) }
{
    proper_plans_keep_goods();
    order_fits();
    match order_of(alloc, &plan) {
        Ok(bench) => Ok(Ordered {
            plan,
            tasks: bench.front.placed,
            peaks: bench.front.peaks,
        }),
        Err(fault) => Err(OrderRefused { fault, plan }),
    }
}
