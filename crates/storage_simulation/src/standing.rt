//! What is held of each good, and how far each task is.

ghost use Rattle.std.specs.Prelude.{◌≡◌, IfOk, ℕ, replicate};
ghost use Rattle.storage_simulation.specs.code.Standings.{IsStanding, held_of, phase_of};
ghost use Rattle.storage_simulation.specs.Standings.{sizes, waits};
ghost use Rattle.storage_simulation.specs.declared.standing.Held.TheVariants.{Nothing};
ghost use Rattle.storage_simulation.specs.declared.standing.Phase.TheVariants.{Waits};

use plan_core::Plan;
use std::alloc::Global;
use values::{Items, Memory, TaskId};

/// What is held of a good, in bytes.
#[derive(Clone, Copy)]
pub enum Held {
    Nothing,
    Stored(u64),
    Reserved(u64),
}

/// How far a task is.
#[derive(Clone, Copy)]
pub enum Phase {
    Waits,
    Runs,
    Ended,
}

/// What is held of each pair, how far each task is, and what is held of each task's delivery, by number.
pub struct Standing {
    pub held: Items<Held>,
    pub tasks: Items<Phase>,
    pub deliveries: Items<Held>,
}

impl Drop for Standing {
    fn drop(self) {
        let Standing {
            held,
            tasks,
            deliveries,
        } = self;
    }
}

fn held_nothing(alloc: Global, count: usize) -> Result<Items<Held>, Memory>
    ensures { IfOk result (λ held. held ≡ replicate count Nothing) }
{
    Ok(Items::new(vec![in alloc; Held::Nothing; count]?))
}

impl Standing {
    /// Nothing is held, and all tasks wait.
    pub fn start(alloc: Global, plan: &Plan) -> Result<Standing, Memory>
        ensures standing { IfOk result (λ st. IsStanding plan.now st) }
        ensures held { IfOk result (λ st. (g : ℕ) → held_of st g ≡ Nothing) }
        ensures tasks { IfOk result (λ st. (t : ℕ) → phase_of st t ≡ Waits) }
    {
        let tasks = plan.tasks.as_slice().len();
        Ok(Standing {
            held: held_nothing(alloc, plan.pairs.as_slice().len())?,
            tasks: Items::new(vec![in alloc; Phase::Waits; tasks]?),
            deliveries: held_nothing(alloc, tasks)?,
        })
    }

    /// The bytes that are held of a good.
    pub(crate) fn held_of(&self, good: u32) -> u64
        ensures { result ≡ sizes (held_of self.now) good }
    {
        let pairs = self.held.as_slice().len();
        let held = if (good as usize) < pairs {
            self.held.as_slice().get(good as usize)
        } else {
            self.deliveries.as_slice().get(good as usize - pairs)
        };
        match held {
            Some(Held::Stored(size)) => *size,
            Some(Held::Reserved(size)) => *size,
            _ => 0,
        }
    }

    /// What is held of a good.
    pub(crate) fn held(&self, good: u32) -> Held
        ensures { result ≡ held_of self.now good }
    {
        let pairs = self.held.as_slice().len();
        let held = if (good as usize) < pairs {
            self.held.as_slice().get(good as usize)
        } else {
            self.deliveries.as_slice().get(good as usize - pairs)
        };
        match held {
            Some(held) => *held,
            None => Held::Nothing,
        }
    }

    /// Whether a task waits.
    pub(crate) fn waits(&self, task: TaskId) -> bool
        ensures { result ≡ waits (phase_of self.now task.0) }
    {
        match self.tasks.as_slice().get(task.0 as usize) {
            Some(Phase::Runs) => false,
            Some(Phase::Ended) => false,
            _ => true,
        }
    }
}
