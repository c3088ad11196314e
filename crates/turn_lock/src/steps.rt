//! The kinds of step at a cell, and what each tells the seat that makes it.
ghost use Rattle.turn_lock.specs.Turns.{newcomer, told, nobody};
ghost use Rattle.turn_lock.specs.Tells.{TellsTicket, TellsDraw, TellsServing, TellsHead, TellsTaken, TellsGiven, TellsAdded, TellsPublished, TellsPassed, TellsSettled};

use crate::Logged;
use crate::view::View;
use atomic_table::{Join, Play, Split};

/// To draw a ticket: where the ticket word is as it was last read, it becomes the next one.
pub(crate) struct Draw;

impl<T, E> Play<Option<T>, View<E>> for Draw {
    ghost then = { TellsDraw };
}

/// A look at the ticket word.
pub(crate) struct LookTicket;

impl<T, E> Play<Option<T>, View<E>> for LookTicket {
    ghost then = { TellsTicket };
}

/// A look at the serving word.
pub(crate) struct LookServing;

impl<T, E> Play<Option<T>, View<E>> for LookServing {
    ghost then = { TellsServing };
}

/// A look at the head word.
pub(crate) struct LookHead;

impl<T, E> Play<Option<T>, View<E>> for LookHead {
    ghost then = { TellsHead };
}

/// The look after a join, which tells that both seats saw one history.
pub(crate) struct Settle;

impl<T, E> Play<Option<T>, View<E>> for Settle {
    ghost then = { TellsSettled };
}

/// To take the value.
pub(crate) struct Take;

impl<T: Logged> Play<Option<T>, View<T::Entry>> for Take {
    ghost then = { TellsTaken T.entries };
}

/// To give the value back as it was.
pub(crate) struct Give;

impl<T, E> Play<Option<T>, View<E>> for Give {
    ghost then = { TellsGiven };
}

/// To give the value back with a new entry.
pub(crate) struct GiveNew;

impl<T: Logged> Play<Option<T>, View<T::Entry>> for GiveNew {
    ghost then = { TellsAdded T.entries };
}

/// To publish the head.
pub(crate) struct Publish;

impl<T, E> Play<Option<T>, View<E>> for Publish {
    ghost then = { TellsPublished };
}

/// To pass on the turn.
pub(crate) struct PassOn;

impl<T, E> Play<Option<T>, View<E>> for PassOn {
    ghost then = { TellsPassed };
}

/// To split a seat: the new one has seen as much, and holds no ticket.
pub(crate) struct Cut;

impl<E> Split<View<E>> for Cut {
    ghost left = { λ v. v };

    ghost right = { λ v. newcomer v.seen };
}

/// To join a seat: the first is told of what the second has seen.
pub(crate) struct Glue;

impl<E> Join<View<E>> for Glue {
    ghost both = { told };

    ghost spent = { nobody };
}
