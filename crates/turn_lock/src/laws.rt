//! What the rule says, and what each kind of step makes of the history, as laws of their own.
ghost use Rattle.std.specs.Prelude.{◌≡◌, ◌≢◌, ◌↔◌, ℕ, List, [], ◌∷◌, ◌++◌, Option, slice_index};
ghost use mathlib.Core.List.{IsPrefix};
ghost use mathlib.Core.Option.{some, none};
ghost use lib.ListN.{get_elem?};
ghost use Rattle.atomic_table.specs.Table.{State};
ghost use Rattle.turn_lock.specs.declared.view.View.{View};
ghost use Rattle.turn_lock.specs.declared.view.Stage.TheVariants.{Inside, Joined};
ghost use Rattle.turn_lock.specs.Turns.{InTurn, Turned, HasTicket};
ghost use Rattle.turn_lock.specs.Kinds.{Stands, Draws, LooksAtTicket, LooksAtServing, LooksAtHead, Settles, Takes, GivesBack, GivesNew, Publishes, PassesOn, SplitsSeat, JoinsSeat};

use crate::Logged;

/// A state has one history.
pub fn one_history<T: Logged>()
    ensures { (log other : List T.Entry) (s : State (Option T) (View T.Entry)) → Turned T.entries log s → Turned T.entries other s → log
        ≡ other }
{}

/// What a seat has seen begins the history, but for a seat that was joined into another.
pub fn seen_begins_the_history<T: Logged>()
    ensures { (log : List T.Entry) (s : State (Option T) (View T.Entry)) (i : ℕ) (v : View T.Entry) → Turned T.entries log s
        → get_elem? s.views i ≡ some v → v.stage ≢ Joined → IsPrefix v.seen log }
{}

/// No two seats hold one ticket.
pub fn tickets_are_distinct<T: Logged>()
    ensures { (s : State (Option T) (View T.Entry)) (i j t : ℕ) (v w : View T.Entry) → InTurn T.entries s → get_elem? s.views i ≡ some v
        → get_elem? s.views j ≡ some w → HasTicket t v.stage → HasTicket t w.stage → i ≡ j }
{}

/// At most one seat is inside, and it holds the ticket that is served.
pub fn one_is_inside<T: Logged>()
    ensures { (s : State (Option T) (View T.Entry)) (i j t u : ℕ) (v w : View T.Entry) → InTurn T.entries s → Stands s i v (Inside t)
        → Stands s j w (Inside u) → (i ≡ j) × (t ≡ slice_index s.words 1) }
{}

/// The slot is empty only while a seat is inside.
pub fn empty_only_while_inside<T: Logged>()
    ensures { (s : State (Option T) (View T.Entry)) → InTurn T.entries s → s.homes ≡ none ∷ [] → (i : ℕ) × (v : View T.Entry) × (t : ℕ)
        × Stands s i v (Inside t) }
{}

/// While a seat is inside the slot is empty.
pub fn empty_while_inside<T: Logged>()
    ensures { (s : State (Option T) (View T.Entry)) (i t : ℕ) (v : View T.Entry) → InTurn T.entries s → Stands s i v (Inside t) → s.homes
        ≡ none ∷ [] }
{}

/// To publish the head adds the new entry to the history.
pub fn publishing_adds<T: Logged>()
    ensures { (log : List T.Entry) (e : T.Entry) (id : ℕ) (s s' : State (Option T) (View T.Entry)) → Turned T.entries log s
        → Publishes e id s s' → Turned T.entries (log ++ e ∷ []) s' }
{}

/// To draw a ticket leaves the history as it was.
pub fn drawing_leaves<T: Logged>()
    ensures { (log : List T.Entry) (id : ℕ) (s s' : State (Option T) (View T.Entry)) → Turned T.entries log s → Draws id s s'
        → Turned T.entries log s' }
{}

/// A look leaves the history as it was.
pub fn looking_leaves<T: Logged>()
    ensures ticket { (log : List T.Entry) (id : ℕ) (s s' : State (Option T) (View T.Entry)) → Turned T.entries log s → LooksAtTicket id s s'
        → Turned T.entries log s' }
    ensures serving { (log : List T.Entry) (id : ℕ) (s s' : State (Option T) (View T.Entry)) → Turned T.entries log s
        → LooksAtServing id s s' → Turned T.entries log s' }
    ensures head { (log : List T.Entry) (id : ℕ) (s s' : State (Option T) (View T.Entry)) → Turned T.entries log s → LooksAtHead log id s s'
        → Turned T.entries log s' }
    ensures settling { (log : List T.Entry) (id : ℕ) (s s' : State (Option T) (View T.Entry)) → Turned T.entries log s → Settles id s s'
        → Turned T.entries log s' }
{}

/// To take the value leaves the history as it was.
pub fn taking_leaves<T: Logged>()
    ensures { (log : List T.Entry) (id : ℕ) (s s' : State (Option T) (View T.Entry)) → Turned T.entries log s → Takes T.entries id s s'
        → Turned T.entries log s' }
{}

/// To give the value back leaves the history as it was, also with a new entry.
pub fn giving_back_leaves<T: Logged>()
    ensures same { (log : List T.Entry) (id : ℕ) (s s' : State (Option T) (View T.Entry)) → Turned T.entries log s
        → GivesBack T.entries id s s' → Turned T.entries log s' }
    ensures new { (log : List T.Entry) (e : T.Entry) (id : ℕ) (s s' : State (Option T) (View T.Entry)) → Turned T.entries log s
        → GivesNew T.entries e id s s' → Turned T.entries log s' }
{}

/// To pass on the turn leaves the history as it was.
pub fn passing_on_leaves<T: Logged>()
    ensures { (log : List T.Entry) (id : ℕ) (s s' : State (Option T) (View T.Entry)) → Turned T.entries log s → PassesOn id s s'
        → Turned T.entries log s' }
{}

/// To split a seat leaves the history as it was.
pub fn splitting_leaves<T: Logged>()
    ensures { (log : List T.Entry) (id : ℕ) (s s' : State (Option T) (View T.Entry)) → Turned T.entries log s → SplitsSeat id s s'
        → Turned T.entries log s' }
{}

/// To join a seat leaves the history as it was.
pub fn joining_leaves<T: Logged>()
    ensures { (log : List T.Entry) (other id : ℕ) (s s' : State (Option T) (View T.Entry)) → Turned T.entries log s
        → JoinsSeat other id s s' → Turned T.entries log s' }
{}
