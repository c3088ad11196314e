//! What a seat at the cell knows. These values exist in proofs alone.
use std::collections::LinkedList;

/// Where a seat stands, with the ticket that it holds.
pub enum Stage<E> {
    /// It holds no ticket.
    Out,
    /// It drew this ticket.
    Waits(u64),
    /// It learnt that its ticket is served.
    Turn(u64),
    /// It has the value.
    Inside(u64),
    /// It gave the value back with this new entry, which is not yet published.
    Fresh(u64, E),
    /// It gave the value back, and nothing is left to publish.
    Gave(u64),
    /// A seat was joined into it, which had seen these entries.
    Told(LinkedList<E>),
    /// It was joined into another seat.
    Joined,
}

/// What a seat knows.
pub struct View<E> {
    /// The beginning of the history that it has seen.
    pub seen: LinkedList<E>,
    /// How often it looked at the length of the history.
    pub loads: u64,
    /// How many entries it added.
    pub added: u64,
    /// The last ticket word that it read or drew.
    pub ticket: u64,
    pub stage: Stage<E>,
}
