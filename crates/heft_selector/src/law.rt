//! What a schedule of a request comes to.

ghost use Rattle.heft_selector.specs.code.Selecting.{SitesAreBelow, KeptJobsHaveSites};

use list_schedule::schedules_are_sound;

/// Sites of jobs are execution sites, and each kept job has one.
pub fn scheduled_sites_are_placed()
    ensures below { SitesAreBelow }
    ensures placed { KeptJobsHaveSites }
{
    schedules_are_sound();
}
