//! A yard that is opened with a book: whether what its record says is stored stands at its sites.

ghost use Rattle.std.specs.Prelude.{◌≡◌, ◌<◌, ◌^◌, false, IfErr, IfOk, IfSome, length};
ghost use Rattle.outside.specs.code.Counts.{IsLater};
ghost use Rattle.plan_core.specs.Words.{count_pairs};
ghost use Rattle.lease_book.specs.Book.{state_at};
ghost use Rattle.site_yard.specs.code.Failures.{AreMore};
ghost use Rattle.site_yard.specs.code.Reopening.{AreRecorded, Checks, ChecksAll, Measures, RefusesAgain, measures};

use crate::delivered::count_deliveries;
use crate::names::{pair_file_name, pair_site_name};
use crate::opening::{OpenFault, OpenRefused};
use crate::yard::Yard;
use lease_book::Book;
use outside::{Host, HostFault, PairId, ReadPart, Tool};
use plan_core::Plan;
use std::alloc::Global;
use std::marker::PhantomData;
use std::snapshot::Snapshot;
use storage_simulation::{Held, Ordered};

/// The length of the file at a pair's name.
fn measure<H: Host>(
    plan: &Plan,
    host: &mut H,
    alloc: Global,
    pair: PairId,
) -> Result<u64, OpenFault>
    ensures answer { Measures plan.now pair.0 (H.told host.old) (H.counts host.old)
        (H.counts host.new) result }
    ensures told { H.told host.new ≡ H.told host.old }
    ensures marked { H.marked host.new ≡ H.marked host.old }
    ensures later { IsLater (H.counts host.old) (H.counts host.new) }
{
    let site = pair_site_name(plan, pair);
    match host.open_scratch(alloc, site, pair_file_name(plan, pair), u64::MAX) {
        Ok(reading) => {
            let length = reading.length();
            host.finish(reading);
            Ok(length)
        }
        Err(HostFault::Absent) => Err(OpenFault::PairAbsent(pair)),
        Err(HostFault::Failed) => Err(OpenFault::HostFailed),
        Err(HostFault::Memory) => Err(OpenFault::Memory),
        Err(HostFault::Over(_, _)) => unreachable!(),
    }
}

/// Whether a pair that is stored has its recorded size.
fn check_pair<H: Host>(
    plan: &Plan,
    book: &Book,
    host: &mut H,
    alloc: Global,
    pair: PairId,
) -> Result<(), OpenFault>
    ensures answer { Checks plan.now (state_at book.now).held pair.0 (H.told host.old) (H.counts host.old)
        (H.counts host.new) result }
    ensures told { H.told host.new ≡ H.told host.old }
    ensures marked { H.marked host.new ≡ H.marked host.old }
    ensures later { IsLater (H.counts host.old) (H.counts host.new) }
{
    let Held::Stored(recorded) = book.held(pair) else {
        return Ok(());
    };
    match measure(plan, host, alloc, pair) {
        Ok(found) => {
            if found != recorded {
                return Err(OpenFault::LengthDiffers(pair, recorded, found));
            }
            Ok(())
        }
        Err(fault) => Err(fault),
    }
}

/// Whether each pair that is stored has its recorded size.
fn check_pairs<H: Host>(
    plan: &Plan,
    book: &Book,
    host: &mut H,
    alloc: Global,
) -> Result<(), OpenFault>
    requires { count_pairs plan.now < 2 ^ 32 }
    ensures answer { ChecksAll plan.now (state_at book.now).held (H.told host.old) (H.counts host.old)
        (H.counts host.new) result }
    ensures told { H.told host.new ≡ H.told host.old }
    ensures marked { H.marked host.new ≡ H.marked host.old }
    ensures later { IsLater (H.counts host.old) (H.counts host.new) }
{
    for k in 0..plan.pairs.as_slice().len() {
        match check_pair(plan, book, host, alloc, PairId(k as u32)) {
            Ok(()) => {}
            Err(fault) => return Err(fault),
        }
    }
    Ok(())
}

impl<H: Host, T: Tool> Yard<H, T> {
    /// Takes over a host that holds what a book says. It takes room for the deliveries, marks the host, and asks for each
    /// pair that is stored once. A refusal gives the book up.
    pub fn reopen(
        alloc: Global,
        ordered: Ordered,
        book: Book,
        host: H,
    ) -> Result<Yard<H, T>, OpenRefused<H>>
        requires plan { book.plan ≡ ordered.plan }
        requires order { book.order.items ≡ ordered.tasks.items }
        requires unfailing { (state_at book).failing ≡ false }
        ensures ordered { IfOk result (λ y. y.ordered.value ≡ ordered) }
        ensures book { IfOk result (λ y. y.book ≡ book) }
        ensures told { IfOk result (λ y. H.told y.host ≡ H.told host) }
        ensures marked { IfOk result (λ y. IfSome (H.told host) (λ s. H.marked y.host ≡ s)) }
        ensures faults { IfOk result (λ y. y.faults ≡ (H.counts host).faults) }
        ensures misses { IfOk result (λ y. y.misses ≡ (H.counts host).misses) }
        ensures later { IfOk result (λ y. IsLater (H.counts host) (H.counts y.host)) }
        ensures opened { IfOk result (λ y. y.opened ≡ length book.history.events) }
        ensures asked { IfOk result (λ y. AreMore (measures ordered.plan (state_at book).held) 0 0
            (H.counts host) (H.counts y.host)) }
        ensures recorded { IfOk result (λ y. AreRecorded ordered.plan (state_at book).held (H.told host)) }
        ensures refused { IfErr result (λ e. RefusesAgain ordered.plan (state_at book).held (H.told host)
            (H.counts host) (H.counts e.host) e.fault) }
        ensures back { IfErr result (λ e. (e.ordered ≡ ordered) × (H.told e.host ≡ H.told host)
            × IsLater (H.counts host) (H.counts e.host)) }
    {
        let faults = host.faults();
        let misses = host.misses();
        let opened = book.record().len();
        let mut host = host;
        let fault = match Vec::with_capacity(alloc, count_deliveries(ordered.plan())) {
            Err(_) => OpenFault::Memory,
            Ok(delivered) => match host.mark(alloc) {
                Err(_) => OpenFault::Memory,
                Ok(()) => match check_pairs(ordered.plan(), &book, &mut host, alloc) {
                    Err(fault) => fault,
                    Ok(()) => {
                        let given = Snapshot::of(&ordered);
                        drop(ordered);
                        return Ok(Yard {
                            ordered: given,
                            book,
                            host,
                            faults,
                            misses,
                            opened,
                            delivered,
                            tool: PhantomData,
                        });
                    }
                },
            },
        };
        Err(OpenRefused {
            fault,
            ordered,
            host,
        })
    }
}
