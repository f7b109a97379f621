//! What the trees tell of the tasks that are left.

ghost use Rattle.std.specs.Prelude.{◌≡◌, ◌<◌, ◌++◌, filter, length, get_or, option_map, slice_get};
ghost use Rattle.values.specs.declared.numbers.TaskId.{TaskId};
ghost use Rattle.place_peaks.specs.Peaks.{HasPassed, left_of, line_of, stack_of};

use crate::choosing::task_at;
use crate::peaks::Peaks;
use values::TaskId;

impl Peaks {
    /// How many tasks the line has.
    #[tactic(auto, using(lease_rules::proofs::NumbersLemmas::count_tasks_in))]
    pub fn count_line(&self) -> usize
        ensures { result ≡ length (line_of self.now) }
    {
        self.seating.line.len()
    }

    /// The task at a position of the line.
    #[tactic(auto, using(lease_rules::proofs::NumbersLemmas::count_tasks_in))]
    pub fn line_task(&self, k: usize) -> u32
        requires { k < length (line_of self.now) }
        ensures { result ≡ get_or (line_of self.now) k 0 }
    {
        self.seating.task(k)
    }

    /// The task at a position among those of the line that are left.
    fn left_task(&self, k: usize) -> Option<TaskId>
        requires { HasPassed self.now }
        ensures { option_map (λ (t : TaskId). t.0) result
            ≡ slice_get (filter (left_of self.now) (line_of self.now)) k }
    {
        let mut before = k;
        for position in self.first..self.count_line() {
            let task = self.line_task(position);
            if !self.is_left(task) {
                continue;
            }
            if before == 0 {
                return Some(TaskId(task));
            }
            before -= 1;
        }
        None
    }

    /// The task at a position of rest.
    pub fn rest_task(&self, k: usize) -> Option<TaskId>
        requires { HasPassed self.now }
        ensures { option_map (λ (t : TaskId). t.0) result
            ≡ slice_get (stack_of self.now ++ filter (left_of self.now) (line_of self.now)) k }
    {
        let waiting = self.again.len();
        if k < waiting {
            let task = task_at(self.again.as_slice(), waiting - 1 - k);
            return Some(TaskId(task));
        }
        self.left_task(k - waiting)
    }
}
