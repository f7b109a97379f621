//! What each atomic step tells the pass that makes it.

use crate::chronicle::Chronicle;
use crate::view::View;
use atomic_table::{Join, Play, Split};
use std::marker::PhantomData;

/// Draws the ticket that was expected.
pub(crate) struct DrawTicket;

impl<S, G, I> Play<S, View<G, I>> for DrawTicket {
    ghost use Rattle.ruled_lock.specs.Steps.{drew};

    ghost then = { drew };
}

/// Looks at the ticket that is served, and takes the slot where it is the pass's.
pub(crate) struct LookAtServing<C> {
    value: PhantomData<C>,
}

impl<C: Chronicle> Play<Option<C>, View<C::Charter, C::Item>> for LookAtServing<C> {
    ghost use Rattle.ruled_lock.specs.Steps.{looked};

    ghost then = { looked C.charter C.journal C.author };
}

/// Gives the slot back and serves the next ticket.
pub(crate) struct ServeNext<C> {
    value: PhantomData<C>,
}

impl<C: Chronicle> Play<Option<C>, View<C::Charter, C::Item>> for ServeNext<C> {
    ghost use Rattle.ruled_lock.specs.Steps.{passed};

    ghost then = { passed C.charter C.journal C.author };
}

/// Makes the pass of the next number.
pub(crate) struct SplitPass;

impl<G, I> Split<View<G, I>> for SplitPass {
    ghost use Rattle.ruled_lock.specs.Steps.{counted, next_pass};

    ghost left = { counted };

    ghost right = { next_pass };
}

/// Joins two passes.
pub(crate) struct JoinPass;

impl<G, I> Join<View<G, I>> for JoinPass {
    ghost use Rattle.ruled_lock.specs.Steps.{both_of, spent};

    ghost both = { both_of };

    ghost spent = { spent };
}

/// Tells a pass that was just made or joined what the rule says of its lists: a split and a join tell nothing.
pub(crate) struct Compare<C> {
    value: PhantomData<C>,
}

impl<C: Chronicle> Play<Option<C>, View<C::Charter, C::Item>> for Compare<C> {
    ghost use Rattle.ruled_lock.specs.Steps.{compared};

    ghost then = { compared C.author };
}
