//! What is asked of a yard.

ghost use Rattle.std.specs.Prelude.{◌≡◌, ◌⊎◌, IfOk, IfSome, drop, take, true};
ghost use Rattle.plan_core.specs.Words.{task_numbers};
ghost use Rattle.lease_book.specs.Book.{state_at};
ghost use Rattle.lease_rules.specs.Legal.{IsComplete, Legal};
ghost use Rattle.site_yard.specs.Changes.{carries};
ghost use Rattle.site_yard.specs.Delivered.{AreDigests, AreFiles, AreLengths, AreOfBytes, arrivals};
ghost use Rattle.site_yard.specs.code.Ending.{Ends};
ghost use Rattle.site_yard.specs.code.Failures.{AreCounted};
ghost use Rattle.site_yard.specs.code.Kept.{IsOpening};
ghost use Rattle.site_yard.specs.code.Law.{AgreesSince};

use crate::delivered::Delivered;
use crate::ending::{first_failed, run_fault};
use crate::law::{plan_laws, record_laws};
use crate::yard::Yard;
use lease_book::Book;
use outside::{Host, Tool};
use plan_core::Plan;
use run_record::{Record, RunFault};
use std::alloc::Global;

impl<H: Host, T: Tool> Yard<H, T> {
    /// The record is Legal; a host that tells shows its entries since the opening, and the host's counts their failures.
    pub fn agrees(&self)
        ensures legal { ∥ Legal self.now.ordered.value.plan
            (task_numbers self.now.ordered.value.tasks.items) self.now.book.history.events ∥₁ }
        ensures shows { ∥ IfSome (H.told self.now.host)
            (AgreesSince T.apply self.now.ordered.value.plan (take self.now.opened self.now.book.history.events)
            (drop self.now.opened self.now.book.history.events) (H.marked self.now.host)) ∥₁ }
        ensures counted { ∥ AreCounted (H.told self.now.host) self.now.faults self.now.misses
            (H.counts self.now.host) (drop self.now.opened self.now.book.history.events) ∥₁ }
    {
        plan_laws();
        record_laws();
        let _record = self.book.record();
    }

    /// Why the run failed, by its first Fail.
    pub fn ending(&self, alloc: Global) -> Result<(), RunFault>
        requires over { IsComplete self.now.ordered.value.plan (state_at self.now.book)
            ⊎ ((state_at self.now.book).failing ≡ true) }
        ensures ends { Ends self.now.ordered.value.plan self.now.book.history.events result }
        ensures done { IfOk result (λ u. IsComplete self.now.ordered.value.plan (state_at self.now.book)) }
    {
        plan_laws();
        record_laws();
        match first_failed(self.book.record()) {
            None => Ok(()),
            Some(failed) => match run_fault(self.book.plan(), alloc, failed.task, &failed.cause) {
                Ok(fault) => Err(fault),
                Err(_) => Err(RunFault::Memory),
            },
        }
    }

    /// What was delivered since the opening, in the order of the record.
    pub fn delivered(&self) -> &[Delivered]
        ensures files { AreFiles result.now (arrivals self.now.ordered.value.plan
            (drop self.now.opened self.now.book.history.events)) }
        ensures lengths { AreLengths result.now
            (arrivals self.now.ordered.value.plan (drop self.now.opened self.now.book.history.events)) }
        ensures digests { IsOpening T.apply self.now.ordered.value.plan
            (take self.now.opened self.now.book.history.events) (H.marked self.now.host)
            → IfSome (H.told self.now.host) (λ s. AreDigests
            (carries T.apply self.now.ordered.value.plan (H.marked self.now.host)) result.now
            (arrivals self.now.ordered.value.plan (drop self.now.opened self.now.book.history.events))) }
        ensures of_bytes { AreOfBytes result.now }
        ensures value { result.now ≡ self.now.delivered.items }
    {
        &self.delivered
    }

    /// The plan of the record.
    pub fn plan(&self) -> &Plan
        ensures { result.now ≡ self.now.ordered.value.plan }
    {
        self.book.plan()
    }

    pub fn book(&self) -> &Book
        ensures { result.now ≡ self.now.book }
    {
        &self.book
    }

    pub fn into_host(self) -> H
        ensures { result ≡ self.host }
    {
        self.host
    }

    /// The host, the record and what was delivered since the opening, given over.
    pub fn into_parts(self) -> (H, Record, Vec<Delivered>)
        ensures host { result.0 ≡ self.host }
        ensures record { result.1 ≡ self.book.history }
        ensures delivered { result.2 ≡ self.delivered }
    {
        let Yard {
            ordered,
            book,
            host,
            faults,
            misses,
            opened,
            delivered,
            tool,
        } = self;
        (host, book.into_record(), delivered)
    }
}
