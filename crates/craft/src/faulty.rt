//! A tool that fails at some of its runs.

ghost use Rattle.std.specs.Prelude.{◌≡◌, ◌≤◌, ◌↔◌, ℕ, IsErrOf, true, false};
ghost use Rattle.outside.specs.code.Counts.{next_count};
ghost use Rattle.outside.specs.code.Failing.{calls_made, failing_calls};
ghost use Rattle.craft.specs.Faulty.{faults_with, runs_failed, runs_to_fail, wrapped};

use outside::{Blob, Failing, Text, Tool, ToolFault};
use std::alloc::Global;

/// A tool of whose runs the listed ones fail; the others are the wrapped tool's.
#[derive(Drop)]
pub struct Faulty<T: Tool> {
    tool: T,
    failing: Failing,
    failed: u64,
}

impl<T: Tool> Faulty<T> {
    /// `failing` lists the runs that are to fail, by number from 1.
    pub fn new(tool: T, failing: Vec<u64>) -> Faulty<T>
        ensures listed { failing_calls (runs_to_fail result) ≡ failing.items }
        ensures runs { calls_made (runs_to_fail result) ≡ 0 }
        ensures tool { wrapped result ≡ tool }
        ensures failed { runs_failed result ≡ 0 }
        ensures faults { ⟦<Faulty<T> as Tool>⟧.faults result ≡ faults_with (T.faults tool) 0 }
    {
        Faulty {
            tool,
            failing: Failing::new(failing),
            failed: 0,
        }
    }
}

impl<T: Tool> Tool for Faulty<T> {
    ghost use Rattle.craft.specs.Faulty.{faults_with, runs_failed, runs_to_fail, wrapped};
    ghost use Rattle.outside.specs.code.Counts.{next_count};
    ghost use Rattle.outside.specs.code.Failing.{IsNextCall, fails_next};
    ghost use Rattle.outside.specs.code.Tool.{Ran};

    ghost apply = { T.apply };

    ghost known = { T.known };

    ghost faults = { λ t. faults_with (T.faults t.tool) t.failed };

    ghost runs = { λ t. calls_made t.failing };

    fn faults(&self) -> u64 {
        self.tool.faults().saturating_add(self.failed)
    }

    fn knows(&self, name: &str) -> bool {
        self.tool.knows(name)
    }

    fn run(
        &mut self,
        alloc: Global,
        name: &str,
        args: &[Text],
        ins: &[Blob],
        outs: usize,
    ) -> Result<Vec<Blob>, ToolFault>
        ensures answer { Ran (T.apply name.now args.now ins.now outs) (⟦<Faulty<T> as Tool>⟧.faults self.old)
            (⟦<Faulty<T> as Tool>⟧.faults self.new) result }
        ensures faults { ⟦<Faulty<T> as Tool>⟧.faults self.old ≤ ⟦<Faulty<T> as Tool>⟧.faults self.new }
        // A listed run fails, and the wrapped tool isn't asked; any other run is the wrapped tool's.
        ensures listed { fails_next (runs_to_fail self.old) ≡ true → IsErrOf result ToolFault.Failed }
        ensures one_failed { fails_next (runs_to_fail self.old) ≡ true
            → (runs_failed self.new ≡ next_count (runs_failed self.old))
            × (wrapped self.new ≡ wrapped self.old) }
        ensures none_failed { fails_next (runs_to_fail self.old) ≡ false
            → runs_failed self.new ≡ runs_failed self.old }
        ensures others { fails_next (runs_to_fail self.old) ≡ false
            → Ran (T.apply name.now args.now ins.now outs) (T.faults (wrapped self.old))
            (T.faults (wrapped self.new)) result }
        ensures call { IsNextCall (runs_to_fail self.old) (runs_to_fail self.new) }
    {
        if self.failing.call() {
            self.failed = self.failed.saturating_add(1);
            return Err(ToolFault::Failed);
        }
        self.tool.run(alloc, name, args, ins, outs)
    }

    ghost as_many = { T.as_many };
}
