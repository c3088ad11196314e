//! What no clause says: that turns are given, to many threads and up to the limit.
ghost use Rattle.std.specs.Prelude.{◌≡◌, ◌∷◌, [], ◌++◌, MatchBool};
ghost use Rattle.turn_lock.specs.Passes.{IsOf};

use super::{Guard, Pass, TurnCell};
use crate::Logged;
use std::sync::Wait;
use std::test::Fail;
use std::thread::{Threads, join};

const TURNS: u64 = 10_000;

#[derive(Drop)]
struct Marks {
    list: Vec<u64>,
}

impl Logged for Marks {
    type Entry = u64;

    ghost entries = { λ marks. marks.list.items };

    fn length(&self) -> u64 {
        self.list.len() as u64
    }
}

impl Marks {
    fn push(&mut self, mark: u64) -> bool
        ensures { MatchBool result (self.new.list.items ≡ self.old.list.items ++ mark ∷ []) (self.new.list.items ≡ self.old.list.items) }
    {
        self.list.push(mark).is_ok()
    }

    fn count(&self, mark: u64) -> u64 {
        self.list.iter().filter(|&&x| x == mark).count() as u64
    }
}

// Adds a mark in a turn of its own. False where there was no turn, or no room.
fn add<R: Wait>(rt: &R, cell: &TurnCell<Marks>, pass: &mut Pass<Marks>, mark: u64) -> bool
    requires { IsOf cell.now pass.old }
    ensures { IsOf cell.now pass.new }
{
    let Ok(mut guard) = pass.enter(rt, cell) else {
        return false;
    };
    let did = guard.value().push(mark);
    guard.leave();
    did
}

fn add_many<R: Wait>(
    rt: &R,
    cell: &TurnCell<Marks>,
    mut pass: Pass<Marks>,
    mark: u64,
) -> Pass<Marks>
    requires { IsOf cell.now pass }
    ensures { IsOf cell.now result }
{
    for _ in 0..TURNS {
        add(rt, cell, &mut pass, mark);
    }
    pass
}

// True where no head was below the one before it.
fn watch(cell: &TurnCell<Marks>, mut pass: Pass<Marks>) -> bool
    requires { IsOf cell.now pass }
{
    let mut last = 0;
    let mut grows = true;
    for _ in 0..TURNS {
        let head = cell.head(&mut pass);
        if head < last {
            grows = false;
        }
        last = head;
    }
    grows
}

// Two threads take turns.
fn both<R: Threads + Wait + Sync>(
    rt: &R,
    cell: &TurnCell<Marks>,
    one: Pass<Marks>,
    two: Pass<Marks>,
) -> (Pass<Marks>, Pass<Marks>)
    requires { IsOf cell.now one × IsOf cell.now two }
    ensures { IsOf cell.now result.0 × IsOf cell.now result.1 }
{
    join(
        rt,
        || -> Pass<Marks>
            requires { IsOf cell.now one }
            ensures { IsOf cell.entry.now result }
        { add_many(rt, cell, one, 1) },
        || -> Pass<Marks>
            requires { IsOf cell.now two }
            ensures { IsOf cell.entry.now result }
        { add_many(rt, cell, two, 2) },
    )
}

#[test]
fn two_threads_beside_one_that_never_enters(rt: HostRuntime) -> Result<(), Fail> {
    let list = Vec::new(rt.alloc());
    let (cell, mut pass) = TurnCell::new(rt.alloc(), Marks { list })?;
    let one = cell.split(&mut pass);
    let two = cell.split(&mut pass);
    let three = cell.split(&mut pass);
    let shared = &cell;
    let ((one, two), grows) = join(
        &rt,
        || -> (Pass<Marks>, Pass<Marks>)
            requires { IsOf shared.now one × IsOf shared.now two }
            ensures { IsOf shared.entry.now result.0 × IsOf shared.entry.now result.1 }
        { both(&rt, shared, one, two) },
        || -> bool
            requires { IsOf shared.now three }
        { watch(shared, three) },
    );
    cell.join(&mut pass, one);
    cell.join(&mut pass, two);
    assert!(rt; grows && cell.head(&mut pass) == 2 * TURNS);
    let marks = cell.close(pass).expect(&rt, "the slot was empty");
    assert!(rt; marks.count(1) == TURNS && marks.count(2) == TURNS);
    Ok(())
}

#[test]
fn the_last_turns_are_given(rt: HostRuntime) -> Result<(), Fail> {
    let list = Vec::new(rt.alloc());
    let (cell, mut pass) = TurnCell::starting_at(rt.alloc(), Marks { list }, (1 << 63) - 2)?;
    let added = add(&rt, &cell, &mut pass, 1) && add(&rt, &cell, &mut pass, 2);
    assert!(rt; added);
    match pass.enter(&rt, &cell) {
        Ok(guard) => {
            guard.leave();
            panic!(rt; "a turn past the limit")
        }
        Err(spent) => assert_eq!(rt; spent.ticket(), 1 << 63),
    }
    assert!(rt; !add(&rt, &cell, &mut pass, 3));
    assert_eq!(rt; cell.head(&mut pass), 2);
    Ok(())
}

#[test]
fn a_cell_that_nobody_is_inside_of_gives_its_value(rt: HostRuntime) -> Result<(), Fail> {
    let list = Vec::new(rt.alloc());
    let (cell, mut pass) = TurnCell::new(rt.alloc(), Marks { list })?;
    assert!(rt; add(&rt, &cell, &mut pass, 1));
    let marks = cell.close(pass).expect(&rt, "the slot was empty");
    assert!(rt; marks.count(1) == 1);
    Ok(())
}

#[test]
fn a_cell_closed_while_somebody_is_inside_gives_nothing(rt: HostRuntime) -> Result<(), Fail> {
    let list = Vec::new(rt.alloc());
    let (cell, mut pass) = TurnCell::new(rt.alloc(), Marks { list })?;
    let mut inside = cell.split(&mut pass);
    let Ok(guard) = inside.enter(&rt, &cell) else {
        panic!(rt; "no turn")
    };
    // Outside of this crate a guard can only be left.
    let Guard {
        cell: _,
        pass: _,
        value,
        number: _,
        length: _,
    } = guard;
    drop(value);
    assert!(rt; cell.close(pass).is_none());
    Ok(())
}
