//! Parts, given back to their host.

ghost use Rattle.std.specs.Prelude.{◌≡◌, map};
ghost use Rattle.outside.specs.code.Counts.{IsLater};
ghost use Rattle.site_yard.specs.code.Failures.{AreMore};
ghost use Rattle.outside.specs.code.Parts.{draft_faults, reading_faults};
ghost use Rattle.site_yard.specs.code.Returning.{Publishes};

use outside::{Host, HostFault};
use std::alloc::Global;
use std::collections::VecDeque;

/// How many drafts were published, and what refused the next one.
#[derive(Clone, Copy)]
pub(crate) struct Publication {
    pub count: usize,
    pub refused: Option<HostFault>,
}

/// Gives readings back.
pub(crate) fn finish_all<H: Host>(host: &mut H, readings: Vec<H::Reading>)
    ensures told { H.told host.new ≡ H.told host.old }
    ensures marked { H.marked host.new ≡ H.marked host.old }
    ensures asked { AreMore 0 (reading_faults (map H.Reading.state readings.items)) 0 (H.counts host.old)
        (H.counts host.new) }
    ensures later { IsLater (H.counts host.old) (H.counts host.new) }
{
    let mut readings = readings;
    while let Some(reading) = readings.pop() {
        host.finish(reading);
    }
    readings.destroy_empty();
}

/// Gives drafts back that aren't published.
pub(crate) fn discard_all<H: Host>(host: &mut H, drafts: Vec<H::Draft>)
    ensures told { H.told host.new ≡ H.told host.old }
    ensures marked { H.marked host.new ≡ H.marked host.old }
    ensures asked { AreMore 0 (draft_faults (map H.Draft.state drafts.items)) 0 (H.counts host.old)
        (H.counts host.new) }
    ensures later { IsLater (H.counts host.old) (H.counts host.new) }
{
    let mut drafts = drafts;
    while let Some(draft) = drafts.pop() {
        host.discard(draft);
    }
    drafts.destroy_empty();
}

/// Gives the drafts back that follow one that was refused.
fn discard_left<H: Host>(host: &mut H, drafts: VecDeque<H::Draft>)
    ensures told { H.told host.new ≡ H.told host.old }
    ensures marked { H.marked host.new ≡ H.marked host.old }
    ensures asked { AreMore 0 (draft_faults (map H.Draft.state drafts.items)) 0 (H.counts host.old)
        (H.counts host.new) }
    ensures later { IsLater (H.counts host.old) (H.counts host.new) }
{
    let mut drafts = drafts;
    while let Some(draft) = drafts.pop_front() {
        host.discard(draft);
    }
    drafts.destroy_empty();
}

/// Publishes drafts in order. After a refusal the others are discarded.
pub(crate) fn publish_all<H: Host>(
    host: &mut H,
    alloc: Global,
    drafts: Vec<H::Draft>,
) -> Publication
    ensures answer { Publishes (map H.Draft.state drafts.items) (H.told host.old) (H.told host.new)
        (H.counts host.old) (H.counts host.new) result.count result.refused }
    ensures marked { H.marked host.new ≡ H.marked host.old }
    ensures later { IsLater (H.counts host.old) (H.counts host.new) }
{
    let mut drafts = VecDeque::from(drafts);
    let mut count = 0;
    while let Some(draft) = drafts.pop_front() {
        match host.publish(alloc, draft) {
            Ok(()) => count += 1,
            Err(fault) => {
                discard_left(host, drafts);
                return Publication {
                    count,
                    refused: Some(fault),
                };
            }
        }
    }
    drafts.destroy_empty();
    Publication {
        count,
        refused: None,
    }
}
