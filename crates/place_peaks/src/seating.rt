//! Where the tasks of a line stand.

ghost use Rattle.std.specs.Prelude.{◌≡◌, ◌<◌, ◌+◌, ℕ, true, length, get_or, None};
ghost use Rattle.plan_core.specs.Numbers.{has};
ghost use Rattle.plan_core.specs.Words.{count_tasks, task_numbers};
ghost use Rattle.storage_simulation.specs.Following.{AreOnce};
ghost use Rattle.storage_simulation.specs.code.Goods.{IsWithinLimits};
ghost use Rattle.storage_simulation.specs.Goods.{places};
ghost use Rattle.place_peaks.specs.Places.{AreSeats, ChangesOnePlace};

use crate::choosing::task_at;
use plan_core::Plan;
use storage_simulation::place_of;
use values::TaskId;

/// A line of tasks: by task its place and its seat among the tasks of its place, by place how many tasks change it.
#[derive(Drop)]
pub struct Seating {
    pub(crate) line: Vec<TaskId>,
    pub(crate) homes: Vec<Option<u32>>,
    pub(crate) seats: Vec<usize>,
    pub(crate) widths: Vec<usize>,
}

/// What a list has at a number, or else another value.
pub(crate) fn at<T: Copy>(items: &[T], k: u32, other: T) -> T
    ensures { result ≡ get_or items.now k other }
{
    match items.get(k as usize) {
        Some(item) => *item,
        None => other,
    }
}

/// The task at a position of the line takes its seat.
fn seat_next(
    plan: &Plan,
    line: &[TaskId],
    seats: &mut Vec<usize>,
    widths: &mut Vec<usize>,
    k: usize,
)
    requires limits { IsWithinLimits plan.now }
    requires once { AreOnce (task_numbers line.now) }
    requires tasks { (t : ℕ) → has (task_numbers line.now) t ≡ true → t < count_tasks plan.now }
    requires one { ChangesOnePlace plan.now }
    requires within { k < length line.now }
    requires so_far { AreSeats plan.now (task_numbers line.now) seats.old.items widths.old.items k }
    ensures { AreSeats plan.now (task_numbers line.now) seats.new.items widths.new.items (k + 1) }
{
    let task = task_at(line, k);
    match place_of(plan, TaskId(task)) {
        None => {}
        Some(at) => {
            let seat = widths[at as usize];
            seats[task as usize] = seat;
            widths[at as usize] = seat + 1;
        }
    }
}

impl Seating {
    /// The task at a position of the line.
    pub(crate) fn task(&self, k: usize) -> u32
        requires { k < length self.now.line.items }
        ensures { result ≡ get_or (task_numbers self.now.line.items) k 0 }
    {
        task_at(self.line.as_slice(), k)
    }

    /// The place of a task.
    pub(crate) fn home(&self, task: u32) -> Option<u32>
        ensures { result ≡ get_or self.now.homes.items task None }
    {
        at(self.homes.as_slice(), task, None)
    }

    /// The seat of a task at its place.
    pub(crate) fn seat(&self, task: u32) -> usize
        ensures { result ≡ get_or self.now.seats.items task 0 }
    {
        at(self.seats.as_slice(), task, 0)
    }

    /// How many tasks of the line change a place.
    pub(crate) fn width(&self, place: u32) -> usize
        ensures { result ≡ get_or self.now.widths.items place 0 }
    {
        at(self.widths.as_slice(), place, 0)
    }

    /// The tasks of the line take their seats anew.
    pub(crate) fn seat_all(&mut self, plan: &Plan)
        requires limits { IsWithinLimits plan.now }
        requires once { AreOnce (task_numbers self.old.line.items) }
        requires tasks { (t : ℕ) → has (task_numbers self.old.line.items) t ≡ true → t < count_tasks plan.now }
        requires one { ChangesOnePlace plan.now }
        requires seats { length self.old.seats.items ≡ count_tasks plan.now }
        requires widths { length self.old.widths.items ≡ places plan.now }
        ensures same { self.new ≡ record self.old { seats = self.new.seats; widths = self.new.widths } }
        ensures seated { AreSeats plan.now (task_numbers self.old.line.items) self.new.seats.items
            self.new.widths.items (length (task_numbers self.old.line.items)) }
    {
        self.widths.fill(0);
        for k in 0..self.line.len() {
            seat_next(
                plan,
                self.line.as_slice(),
                &mut self.seats,
                &mut self.widths,
                k,
            );
        }
    }
}
