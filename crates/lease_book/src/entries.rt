//! What a worker has done.

ghost use Rattle.std.specs.Prelude.{◌≡◌, ◌<◌, ◌++◌, [], ◌∷◌};
ghost use Rattle.plan_core.specs.Words.{task_numbers};
ghost use Rattle.run_record.specs.Events.{Again, Arrive, Clean, End, Fail, may_retry};
ghost use Rattle.lease_book.specs.Book.{failure, is_tried_again, state_at};
ghost use Rattle.lease_rules.specs.Legal.{Allowed, CauseFits, MayFail};
ghost use Rattle.lease_book.specs.RunState.{state_of};

use crate::book::Book;
use crate::state::RunState;
use plan_core::Plan;
use run_record::{Cause, Entry};
use values::TaskId;

/// Whether a failure is tried again.
fn is_tried_again(plan: &Plan, state: &RunState, task: u32, cause: &Cause) -> bool
    ensures { result ≡ is_tried_again plan.now (state_of state.now) task cause.now }
{
    may_retry(cause) && (!state.failing && state.agains(task) < plan.retries())
}

/// Whether a task may be tried again after a cause.
fn may_retry(cause: &Cause) -> bool
    ensures { result ≡ may_retry cause.now }
{
    matches!(cause, Cause::ToolFailed(_) | Cause::HostFailed)
}

impl Book {
    /// A Transfer has moved its file.
    pub fn arrive(&mut self, worker: u32, task: TaskId, size: u64)
        requires { Allowed self.old.plan (state_at self.old) (Arrive worker task.0 size) }
        ensures history { self.new.history.events
            ≡ self.old.history.events ++ Arrive worker task.0 size ∷ [] }
        ensures plan { self.new.plan ≡ self.old.plan }
        ensures order { self.new.order ≡ self.old.order }
    {
        self.state.enter_arrive(&self.plan, worker, task.0, size);
        self.history.push(&Entry::Arrive { worker, task, size });
    }

    /// A Run has made its files, of these sizes.
    pub fn end(&mut self, worker: u32, task: TaskId, sizes: &[u64])
        requires { Allowed self.old.plan (state_at self.old) (End worker task.0 sizes.now) }
        ensures history { self.new.history.events
            ≡ self.old.history.events ++ End worker task.0 sizes.now ∷ [] }
        ensures plan { self.new.plan ≡ self.old.plan }
        ensures order { self.new.order ≡ self.old.order }
    {
        self.state.enter_end(&self.plan, worker, task.0, sizes);
        self.history.push(&Entry::End {
            worker,
            task,
            sizes,
        });
    }

    /// The Clean that is the Choice was done.
    pub fn clean(&mut self, worker: u32, task: TaskId)
        requires { Allowed self.old.plan (state_at self.old) (Clean worker task.0) }
        ensures history { self.new.history.events ≡ self.old.history.events ++ Clean worker task.0 ∷ [] }
        ensures plan { self.new.plan ≡ self.old.plan }
        ensures order { self.new.order ≡ self.old.order }
    {
        self.state.enter_clean(&self.plan, worker, task.0);
        self.history.push(&Entry::Clean { worker, task });
    }

    fn add_again(&mut self, worker: u32, task: u32, cause: &Cause, published: &[u64])
        requires { Allowed self.old.plan (state_of self.old.state)
            (Again worker task cause.now published.now) }
        ensures history { self.new.history.events
            ≡ self.old.history.events ++ Again worker task cause.now published.now ∷ [] }
        ensures plan { self.new.plan ≡ self.old.plan }
        ensures order { self.new.order ≡ self.old.order }
    {
        self.state
            .enter_again(&self.plan, worker, task, cause, published);
        self.history.push(&Entry::Again {
            worker,
            task: TaskId(task),
            cause: *cause,
            published,
        });
    }

    fn add_fail(&mut self, worker: u32, task: u32, cause: &Cause, published: &[u64])
        requires { Allowed self.old.plan (state_of self.old.state)
            (Fail worker task cause.now published.now) }
        ensures history { self.new.history.events
            ≡ self.old.history.events ++ Fail worker task cause.now published.now ∷ [] }
        ensures plan { self.new.plan ≡ self.old.plan }
        ensures order { self.new.order ≡ self.old.order }
    {
        self.state
            .enter_fail(&self.plan, worker, task, cause, published);
        self.history.push(&Entry::Fail {
            worker,
            task: TaskId(task),
            cause: *cause,
            published,
        });
    }

    /// A task has failed: it is tried again where retries are left, else its Fail is added.
    pub fn fail(&mut self, worker: u32, task: TaskId, cause: &Cause, published: &[u64])
        requires worker { worker < 16 }
        requires task { MayFail self.old.plan (state_at self.old) worker task.0 }
        requires cause { CauseFits self.old.plan task.0 cause.now published.now }
        ensures history { self.new.history.events
            ≡ self.old.history.events ++ failure self.old.plan
            (state_at self.old) worker task.0 cause.now published.now ∷ [] }
        ensures plan { self.new.plan ≡ self.old.plan }
        ensures order { self.new.order ≡ self.old.order }
    {
        self.add_failure(worker, task.0, cause, published);
    }

    /// The same, of the state that the arrays show.
    fn add_failure(&mut self, worker: u32, task: u32, cause: &Cause, published: &[u64])
        requires worker { worker < 16 }
        requires task { MayFail self.old.plan (state_of self.old.state) worker task }
        requires cause { CauseFits self.old.plan task cause.now published.now }
        ensures history { self.new.history.events
            ≡ self.old.history.events ++ failure self.old.plan
            (state_of self.old.state) worker task cause.now published.now ∷ [] }
        ensures plan { self.new.plan ≡ self.old.plan }
        ensures order { self.new.order ≡ self.old.order }
    {
        if is_tried_again(&self.plan, &self.state, task, cause) {
            self.add_again(worker, task, cause, published);
        } else {
            self.add_fail(worker, task, cause, published);
        }
    }
}
