//! The rule of the lock's table.
//!
//! Word 0 is the next ticket and word 1 the ticket that is served, both modulo 2^64. The slot has the value, or
//! nothing while a pass with the turn has it.

use crate::chronicle::Chronicle;
use crate::view::View;
use atomic_table::TableRule;
use std::marker::PhantomData;
use std::snapshot::Snapshot;

/// The word that has the next ticket.
pub(crate) const NEXT_TICKET: usize = 0;

/// The word that has the ticket which is served.
pub(crate) const NOW_SERVING: usize = 1;

pub(crate) struct TicketRule<C> {
    value: PhantomData<C>,
}

impl<C: Chronicle> TableRule<Option<C>, View<C::Charter, C::Item>, Snapshot<C>> for TicketRule<C> {
    ghost use Rattle.ruled_lock.specs.Rule.{IsKept};
    ghost use Rattle.ruled_lock.specs.View.{newcomer};

    ghost holds = { λ key. IsKept C.charter C.journal C.author (C.charter key.value) };

    ghost first = { λ key. newcomer (C.charter key.value) };
}
