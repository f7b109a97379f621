//! A book tied to a host. While a loan is out nothing of the yard speaks of it.

ghost use Rattle.std.specs.Prelude.{◌≡◌, ◌≤◌, [], IfErr, IfOk, IfSome, drop, length, take, vec_capacity};
ghost use Rattle.outside.specs.code.Counts.{IsLater};
ghost use Rattle.plan_core.specs.Words.{retries, task_numbers};
ghost use Rattle.site_yard.specs.code.Delivered.{AreDelivered, count_deliveries};
ghost use Rattle.site_yard.specs.code.Kept.{IsKept};

use crate::delivered::{Delivered, count_deliveries};
use crate::opening::{OpenFault, OpenRefused, look};
use lease_book::Book;
use outside::{Host, Tool};
use std::alloc::Global;
use std::marker::PhantomData;
use std::snapshot::Snapshot;
use storage_simulation::Ordered;

/// A plan's book, the host that holds what the book says, and what was delivered, with room for all deliveries. `opened` is
/// how many entries it was opened with. It holds no tool: the type says what tools make.
#[derive(Drop)]
pub struct Yard<H: Host, T: Tool> {
    pub(crate) ordered: Snapshot<Ordered>,
    pub(crate) book: Book,
    pub(crate) host: H,
    pub(crate) faults: u64,
    pub(crate) misses: u64,
    pub(crate) opened: usize,
    pub(crate) delivered: Vec<Delivered>,
    pub(crate) tool: PhantomData<T>,
    ghost same_plan: { book.plan ≡ ordered.value.plan },
    ghost same_order: { book.order.items ≡ ordered.value.tasks.items },
    ghost begun: { opened ≤ length book.history.events },
    ghost kept: { ∥ IsKept T.apply book.plan (task_numbers book.order.items)
        (take opened book.history.events) (drop opened book.history.events) (H.told host)
        (H.marked host) faults misses (H.counts host) ∥₁ },
    ghost room: { count_deliveries book.plan ≤ vec_capacity delivered },
    ghost listed: { ∥ AreDelivered T.apply book.plan (take opened book.history.events)
        (drop opened book.history.events) (H.told host) (H.marked host) delivered.items ∥₁ },
}

impl<H: Host, T: Tool> Yard<H, T> {
    ghost use Rattle.site_yard.specs.code.Failures.{AreMore};
    ghost use Rattle.site_yard.specs.code.Opening.{AreUnused, Refuses, looks};

    /// Takes over a host whose sites are free. It takes room for the deliveries, marks the host, and asks each site that
    /// has a pair once.
    pub fn open(alloc: Global, ordered: Ordered, host: H) -> Result<Yard<H, T>, OpenRefused<H>>
        requires { retries ordered.plan ≤ 10 }
        ensures ordered { IfOk result (λ y. y.ordered.value ≡ ordered) }
        ensures history { IfOk result (λ y. y.book.history.events ≡ []) }
        ensures told { IfOk result (λ y. H.told y.host ≡ H.told host) }
        ensures marked { IfOk result (λ y. IfSome (H.told host) (λ s. H.marked y.host ≡ s)) }
        ensures faults { IfOk result (λ y. y.faults ≡ (H.counts host).faults) }
        ensures misses { IfOk result (λ y. y.misses ≡ (H.counts host).misses) }
        ensures later { IfOk result (λ y. IsLater (H.counts host) (H.counts y.host)) }
        ensures opened { IfOk result (λ y. y.opened ≡ 0) }
        ensures asked { IfOk result (λ y. AreMore (looks ordered.plan) 0 0 (H.counts host)
            (H.counts y.host)) }
        ensures unused { IfOk result (λ y. AreUnused ordered.plan (H.told host)) }
        ensures refused { IfErr result (λ e. Refuses ordered.plan (H.told host) (H.counts host)
            (H.counts e.host) e.fault) }
        ensures back { IfErr result (λ e. (e.ordered ≡ ordered) × (H.told e.host ≡ H.told host)
            × IsLater (H.counts host) (H.counts e.host)) }
    {
        let faults = host.faults();
        let misses = host.misses();
        let mut host = host;
        let fault = match Vec::with_capacity(alloc, count_deliveries(ordered.plan())) {
            Err(_) => OpenFault::Memory,
            Ok(delivered) => match host.mark(alloc) {
                Err(_) => OpenFault::Memory,
                Ok(()) => match look(ordered.plan(), &mut host, alloc) {
                    Err(fault) => fault,
                    Ok(()) => {
                        let given = Snapshot::of(&ordered);
                        return match Book::over(alloc, ordered) {
                            Ok(book) => Ok(Yard {
                                ordered: given,
                                book,
                                host,
                                faults,
                                misses,
                                opened: 0,
                                delivered,
                                tool: PhantomData,
                            }),
                            Err(ordered) => Err(OpenRefused {
                                fault: OpenFault::Memory,
                                ordered,
                                host,
                            }),
                        };
                    }
                },
            },
        };
        Err(OpenRefused {
            fault,
            ordered,
            host,
        })
    }
}
