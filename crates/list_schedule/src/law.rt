//! What a schedule comes to.

ghost use Rattle.list_schedule.specs.code.Law.{StartsAfterParents, RunsAtCandidate, FinishesFirst, NeverOverlaps};

/// A kept job begins once each kept parent has ended and what it made is at the job's site. It runs
/// at one of its candidates, at none of them would it have finished earlier, and of two jobs at one
/// site one has ended before the other begins.
pub fn schedules_are_sound()
    ensures parents { StartsAfterParents }
    ensures candidate { RunsAtCandidate }
    ensures least { FinishesFirst }
    ensures apart { NeverOverlaps }
{}
