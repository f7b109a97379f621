//! A tool whose runs are counted.

ghost use Rattle.std.specs.Prelude.{◌≡◌};

use crate::progress::Progress;
use outside::{Blob, Text, Tool, ToolFault};
use std::alloc::Global;
use std::io::Eprint;
use std::sync::Arc;
use std::time::Clock;

/// A tool of whose runs the terminal shows how many have begun: each is one of a job.
#[derive(Drop)]
pub struct ShownTool<T: Tool, R> {
    tool: T,
    progress: Arc<Progress<R>>,
}

impl<T: Tool, R: Clock + Eprint + Drop> ShownTool<T, R> {
    pub fn new(tool: T, progress: Arc<Progress<R>>) -> ShownTool<T, R>
        ensures { ⟦<ShownTool<T, R> as Tool>⟧.faults result ≡ T.faults tool }
    {
        ShownTool { tool, progress }
    }
}

impl<T: Tool, R: Clock + Eprint + Drop> Tool for ShownTool<T, R> {
    ghost apply = { T.apply };

    ghost known = { T.known };

    ghost faults = { λ t. T.faults t.tool };

    ghost runs = { λ t. T.runs t.tool };

    fn faults(&self) -> u64 {
        self.tool.faults()
    }

    fn knows(&self, name: &str) -> bool {
        self.tool.knows(name)
    }

    fn run(
        &mut self,
        alloc: Global,
        name: &str,
        args: &[Text],
        ins: &[Blob],
        outs: usize,
    ) -> Result<Vec<Blob>, ToolFault> {
        self.progress.begin();
        self.progress.show();
        let made = self.tool.run(alloc, name, args, ins, outs);
        self.progress.show();
        made
    }

    ghost as_many = { T.as_many };
}
