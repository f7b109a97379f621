//! The first task of the line that can begin, by groups.

ghost use Rattle.std.specs.Prelude.{◌≡◌, ◌<◌, ◌+◌, ℕ};
ghost use Rattle.storage_simulation.specs.code.Goods.{IsWithinLimits};
ghost use Rattle.storage_simulation.specs.Goods.{places};
ghost use Rattle.place_peaks.specs.Peaks.{AreSeated};
ghost use Rattle.place_peaks.specs.Choosing.{AtAll, InGroup, InGroupBelow, IsFirst, earlier};
ghost use Rattle.place_peaks.specs.Ready.{IsIndexed};

use crate::peaks::Peaks;
use plan_core::Plan;
use storage_simulation::places;

/// The first of two positions.
fn earlier(one: Option<usize>, two: Option<usize>) -> Option<usize>
    ensures { result ≡ earlier one two }
{
    match (one, two) {
        (None, two) => two,
        (Some(one), None) => Some(one),
        (Some(one), Some(two)) => Some(one.min(two)),
    }
}

impl Peaks {
    /// The first position of a group whose task can begin. The one that needs least is asked first, and then those before
    /// it alone: if it can't begin, none behind it can, and if it can, none behind it is the first.
    fn first_of_group(&self, plan: &Plan, group: u32) -> Option<usize>
        requires seated { AreSeated self.now }
        requires indexed { IsIndexed plan.now self.now }
        requires group { group < places plan.now + 1 }
        ensures { IsFirst plan.now self.now (InGroup self.now group) result }
    {
        let mut end = None;
        let mut first = None;
        while let Some(k) = self.ready.index.least_before(group, end) {
            end = Some(k);
            if self.can_begin_at(plan, k) {
                first = Some(k);
            }
        }
        first
    }

    /// The first position whose task can begin.
    pub(crate) fn first_to_begin(&self, plan: &Plan) -> Option<usize>
        requires limits { IsWithinLimits plan.now }
        requires seated { AreSeated self.now }
        requires indexed { IsIndexed plan.now self.now }
        ensures { IsFirst plan.now self.now AtAll result }
    {
        let mut first = None;
        for group in 0..places(plan) + 1 {
            first = earlier(first, self.first_of_group(plan, group as u32));
        }
        first
    }
}
