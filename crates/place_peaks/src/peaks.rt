//! The trees of a plan's places over a line of tasks.

use crate::ready::Ready;
use crate::seating::Seating;
use peak_tree::PeakTree;
use values::TaskId;

/// The order that is kept, as a line of all tasks, and the tasks that wait again.
/// By task: whether it is left in the order, what it brings to its place, and how many parents haven't ended. By place:
/// what is held, and the tree of the line.
/// No task of the line before the position `first` is left, and `ready` knows which are left and have no open parent.
pub struct Peaks {
    pub(crate) seating: Seating,
    pub(crate) left: Vec<bool>,
    pub(crate) needs: Vec<u64>,
    pub(crate) missing: Vec<u32>,
    pub(crate) again: Vec<TaskId>,
    pub(crate) base: Vec<u64>,
    pub(crate) trees: Vec<PeakTree>,
    pub(crate) first: usize,
    pub(crate) ready: Ready,
}

impl Drop for Peaks {
    fn drop(self) {
        let Peaks {
            seating,
            left,
            needs,
            missing,
            again,
            base,
            trees,
            first,
            ready,
        } = self;
    }
}
