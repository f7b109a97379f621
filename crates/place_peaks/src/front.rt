//! The front of the line, before which no task is left.

ghost use Rattle.std.specs.Prelude.{◌≡◌, [], filter, take};
ghost use Rattle.place_peaks.specs.Peaks.{HasPassed, left_of, line_of};

use crate::peaks::Peaks;

impl Peaks {
    /// The first position from the front on whose task is left, or the end of the line.
    pub(crate) fn next_front(&self) -> usize
        ensures { HasPassed self.now → filter (left_of self.now) (take result (line_of self.now)) ≡ [] }
    {
        let count = self.count_line();
        for k in self.first..count {
            if self.is_left(self.line_task(k)) {
                return k;
            }
        }
        count
    }
}
