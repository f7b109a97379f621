//! A tool that holds its first run back.

ghost use Rattle.std.specs.Prelude.{◌≡◌};

use outside::{Blob, Text, Tool, ToolFault};
use std::alloc::Global;
use std::sync::Arc;
use std::sync::atomic::{AtomicU64, Ordering};

/// How many runs have started and been answered, of all tools that share it, how many of them before as many tasks had come
/// to the gates, and whether the first was held to its limit; or the same of the tasks at gates.
#[derive(Drop)]
pub struct Hold {
    pub started: AtomicU64,
    pub answered: AtomicU64,
    pub early: AtomicU64,
    pub spent: AtomicU64,
}

impl Hold {
    /// No run yet.
    pub fn new() -> Hold {
        Hold {
            started: AtomicU64::new(0),
            answered: AtomicU64::new(0),
            early: AtomicU64::new(0),
            spent: AtomicU64::new(0),
        }
    }

    /// Waits until a run was answered, by at most so many looks.
    pub(crate) fn wait(&self, limit: u64) {
        for _ in 0..limit {
            if self.answered.load(Ordering::SeqCst) != 0 {
                return;
            }
        }
        self.spent.fetch_add(1, Ordering::SeqCst);
    }
}

/// A tool whose first run, among all that share the hold, begins only once another one was answered.
#[derive(Drop)]
pub struct Holding<T: Tool> {
    tool: T,
    hold: Arc<Hold>,
    gates: Arc<Hold>,
    limit: u64,
}

impl<T: Tool> Holding<T> {
    /// `limit` is how often the held run looks for an answer before it goes on; `gates` is what the workers' gates share.
    pub fn new(tool: T, hold: Arc<Hold>, gates: Arc<Hold>, limit: u64) -> Holding<T>
        ensures { ⟦<Holding<T> as Tool>⟧.faults result ≡ T.faults tool }
    {
        Holding {
            tool,
            hold,
            gates,
            limit,
        }
    }
}

impl<T: Tool> Tool for Holding<T> {
    ghost apply = { T.apply };

    ghost known = { T.known };

    ghost faults = { λ t. T.faults t.tool };

    ghost runs = { λ t. T.runs t.tool };

    fn faults(&self) -> u64 {
        self.tool.faults()
    }

    fn knows(&self, name: &str) -> bool {
        self.tool.knows(name)
    }

    fn run(
        &mut self,
        alloc: Global,
        name: &str,
        args: &[Text],
        ins: &[Blob],
        outs: usize,
    ) -> Result<Vec<Blob>, ToolFault> {
        let started = self.hold.started.fetch_add(1, Ordering::SeqCst);
        if self.gates.started.load(Ordering::SeqCst) <= started {
            self.hold.early.fetch_add(1, Ordering::SeqCst);
        }
        if started == 0 {
            self.hold.wait(self.limit);
        }
        let made = self.tool.run(alloc, name, args, ins, outs);
        self.hold.answered.fetch_add(1, Ordering::SeqCst);
        made
    }

    ghost as_many = { T.as_many };
}
