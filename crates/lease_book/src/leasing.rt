//! What a worker may do next.

ghost use Rattle.std.specs.Prelude.{◌≡◌, ◌<◌, ◌++◌, [], ◌∷◌, false, Some};
ghost use Rattle.std.specs.List.{list_any};
ghost use Rattle.plan_core.specs.Words.{task_numbers};
ghost use Rattle.run_record.specs.Events.{Grant, Regrant};
ghost use Rattle.storage_simulation.specs.code.Front.{front_of};
ghost use Rattle.lease_book.specs.Book.{IsNext, state_at};
ghost use Rattle.lease_rules.specs.Choice.{HasNoChoice};
ghost use Rattle.lease_rules.specs.Legal.{Allowed};
ghost use Rattle.lease_book.specs.RunState.{state_of};
ghost use Rattle.lease_rules.specs.State.{order_with};
ghost use Rattle.lease_rules.specs.code.State.{runs};

use crate::book::Book;
use crate::choice::choose;
use crate::fresh::fresh_task;
use place_peaks::peaks_are_seated;
use run_record::Entry;
use values::TaskId;

/// What a worker may do next.
#[derive(Clone, Copy)]
pub enum Next {
    Task(TaskId),
    Done,
    Stopped,
    NotYet,
}

impl Book {
    fn grant(&mut self, worker: u32, task: u32)
        requires { Allowed self.old.plan (state_of self.old.state) (Grant worker task) }
        ensures history { self.new.history.events ≡ self.old.history.events ++ Grant worker task ∷ [] }
        ensures plan { self.new.plan ≡ self.old.plan }
        ensures order { self.new.order ≡ self.old.order }
    {
        self.state.enter_grant(&self.plan, worker, task);
        self.history.push(&Entry::Grant {
            worker,
            task: TaskId(task),
        });
    }

    fn regrant(&mut self, worker: u32, task: u32)
        requires allowed { Allowed self.old.plan (state_of self.old.state) (Regrant worker task) }
        requires order { order_with self.old.plan (state_of self.old.state) task
            ≡ Some (front_of self.old.bench.front) }
        ensures history { self.new.history.events ≡ self.old.history.events ++ Regrant worker task ∷ [] }
        ensures plan { self.new.plan ≡ self.old.plan }
        ensures order { self.new.order ≡ self.old.order }
    {
        self.state
            .enter_regrant(&self.plan, worker, task, self.bench.tasks());
        self.history.push(&Entry::Regrant {
            worker,
            task: TaskId(task),
        });
    }

    /// The Choice, with its Grant unless it is a Clean; without a Choice the task of a fresh order, with its Regrant.
    pub fn next(&mut self, worker: u32) -> Next
        requires { worker < 16 }
        ensures next { IsNext self.old.plan
            (state_at self.old) worker result self.old.history.events self.new.history.events }
        ensures plan { self.new.plan ≡ self.old.plan }
        ensures order { self.new.order ≡ self.old.order }
    {
        self.go_on(worker)
    }

    /// The same, of the state that the arrays show.
    fn go_on(&mut self, worker: u32) -> Next
        requires { worker < 16 }
        ensures next { IsNext self.old.plan
            (state_of self.old.state) worker result self.old.history.events self.new.history.events }
        ensures plan { self.new.plan ≡ self.old.plan }
        ensures order { self.new.order ≡ self.old.order }
    {
        if self.state.failing {
            return Next::Stopped;
        }
        match choose(&self.plan, &self.state) {
            Some(task) => {
                if !self.plan.is_clean(TaskId(task)) {
                    self.grant(worker, task);
                }
                Next::Task(TaskId(task))
            }
            None => self.go_on_afresh(worker),
        }
    }

    /// What is next where there is no Choice.
    fn go_on_afresh(&mut self, worker: u32) -> Next
        requires worker { worker < 16 }
        requires unfailed { (state_of self.old.state).failing ≡ false }
        requires no_choice { HasNoChoice self.old.plan (state_of self.old.state) }
        ensures next { IsNext self.old.plan
            (state_of self.old.state) worker result self.old.history.events self.new.history.events }
        ensures plan { self.new.plan ≡ self.old.plan }
        ensures order { self.new.order ≡ self.old.order }
    {
        match fresh_task(&self.plan, &self.state, &mut self.trial, &mut self.bench) {
            Some(task) => {
                self.regrant(worker, task);
                Next::Task(TaskId(task))
            }
            None => {
                if self.goes_on() {
                    Next::NotYet
                } else {
                    Next::Done
                }
            }
        }
    }

    /// Whether a task runs, where there is no Choice: while one is left, another runs, since else it could start.
    fn goes_on(&self) -> bool
        requires unfailed { (state_of self.now.state).failing ≡ false }
        requires no_choice { HasNoChoice self.now.plan (state_of self.now.state) }
        ensures { result ≡ list_any runs self.now.state.standing.tasks }
    {
        peaks_are_seated();
        match self.state.peaks.rest_task(0) {
            Some(_) => true,
            None => self.state.any_runs(),
        }
    }
}
