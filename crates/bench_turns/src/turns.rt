//! Threads that take turns at one cell.
ghost use Rattle.std.specs.Prelude.{◌≡◌, ◌∷◌, [], ◌++◌, MatchBool};
ghost use Rattle.turn_lock.specs.Passes.{IsOf};

use std::alloc::{AllocError, Global};
use std::sync::{Barrier, Wait};
use std::thread::{Threads, join};
use turn_lock::{Logged, Pass, TurnCell};

/// What each thread is to do.
#[derive(Drop)]
struct Plan {
    start: Barrier,
    turns: u64,
    adds: bool,
}

#[derive(Drop)]
struct Marks {
    list: Vec<u64>,
}

impl Logged for Marks {
    type Entry = u64;

    ghost entries = { λ marks. marks.list.items };

    fn length(&self) -> u64 {
        self.list.len() as u64
    }
}

impl Marks {
    // True where it added a mark.
    fn visit(&mut self, adds: bool) -> bool
        ensures { MatchBool result (self.new.list.items ≡ self.old.list.items ++ 7 ∷ []) (self.new.list.items ≡ self.old.list.items) }
    {
        adds && self.list.push(7).is_ok()
    }
}

// What each thread does once all are there.
fn take_turns<R: Wait>(
    rt: &R,
    cell: &TurnCell<Marks>,
    mut pass: Pass<Marks>,
    plan: &Plan,
) -> Pass<Marks>
    requires { IsOf cell.now pass }
    ensures { IsOf cell.now result }
{
    plan.start.wait(rt);
    for _ in 0..plan.turns {
        take_turn(rt, cell, &mut pass, plan.adds);
    }
    pass
}

fn take_turn<R: Wait>(rt: &R, cell: &TurnCell<Marks>, pass: &mut Pass<Marks>, adds: bool) -> bool
    requires { IsOf cell.now pass.old }
    ensures { IsOf cell.now pass.new }
{
    let Ok(mut guard) = pass.enter(rt, cell) else {
        return false;
    };
    let added = guard.value().visit(adds);
    guard.leave();
    added
}

fn two<R: Threads + Wait + Sync>(
    rt: &R,
    cell: &TurnCell<Marks>,
    one: Pass<Marks>,
    other: Pass<Marks>,
    plan: &Plan,
) -> (Pass<Marks>, Pass<Marks>)
    requires { IsOf cell.now one × IsOf cell.now other }
    ensures { IsOf cell.now result.0 × IsOf cell.now result.1 }
{
    join(
        rt,
        || -> Pass<Marks>
            requires { IsOf cell.now one }
            ensures { IsOf cell.entry.now result }
        { take_turns(rt, cell, one, plan) },
        || -> Pass<Marks>
            requires { IsOf cell.now other }
            ensures { IsOf cell.entry.now result }
        { take_turns(rt, cell, other, plan) },
    )
}

/// The number of entries after one, two or four threads took their turns.
pub fn race<R: Threads + Wait + Sync>(
    rt: &R,
    alloc: Global,
    threads: usize,
    turns: u64,
    adds: bool,
) -> Result<u64, AllocError> {
    let list = Vec::with_capacity(alloc, 4 << 20)?;
    let (cell, mut pass) = TurnCell::new(alloc, Marks { list })?;
    let plan = Plan {
        start: Barrier::new(threads),
        turns,
        adds,
    };
    run(rt, &cell, &mut pass, threads, &plan);
    Ok(cell.head(&mut pass))
}

fn run<R: Threads + Wait + Sync>(
    rt: &R,
    cell: &TurnCell<Marks>,
    pass: &mut Pass<Marks>,
    threads: usize,
    plan: &Plan,
)
    requires { IsOf cell.now pass.old }
    ensures { IsOf cell.now pass.new }
{
    let one = cell.split(pass);
    if threads == 1 {
        take_turns(rt, cell, one, plan);
        return;
    }
    let other = cell.split(pass);
    if threads == 2 {
        two(rt, cell, one, other, plan);
        return;
    }
    let third = cell.split(pass);
    let fourth = cell.split(pass);
    join(
        rt,
        || -> (Pass<Marks>, Pass<Marks>)
            requires { IsOf cell.now one × IsOf cell.now other }
        { two(rt, cell, one, other, plan) },
        || -> (Pass<Marks>, Pass<Marks>)
            requires { IsOf cell.now third × IsOf cell.now fourth }
        { two(rt, cell, third, fourth, plan) },
    );
}
