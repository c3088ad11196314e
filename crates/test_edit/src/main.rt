//! Runs of the terminal client over a link in memory: rows tell its lines and what the link's polls give, and after the row `edit`
//! stands what it sent and printed. Rows of `test_client` are calls of a client, one by one.
//!
//! Each line of standard input is printed again. In rows `<<N TEXT>>` stands for so many times that text, or the bytes of digits after
//! `0x`. Empty lines and those that begin with `#` stay as they are. What follows each verb stands at its function in `runs.rt` and in
//! `room.rt` of `test_client`.
#![tactic(auto)]

mod runs;

use crate::runs::Runs;
use std::alloc::Global;
use std::io;
use test_client::Room;
use test_disk_rows::Fault;

// What is printed after the row.
fn answer(alloc: Global, room: &mut Room, runs: &mut Runs, row: &str) -> Result<String, Fault> {
    let mut out = String::new(alloc);
    if !room.answer(alloc, row, &mut out)? {
        runs.call(alloc, row, &mut out)?;
    }
    Ok(out)
}

fn print(rt: &HostRuntime, room: &mut Room, runs: &mut Runs, row: &str) -> io::Result<()> {
    if row.is_empty() || row.starts_with('#') {
        return println!(rt; "{row}");
    }
    match answer(rt.alloc(), room, runs, row) {
        Ok(answer) => println!(rt; "{row}{answer}"),
        Err(fault) => println!(rt; "{row} => {fault:?}"),
    }
}

fn main(rt: HostRuntime) -> io::Result<()> {
    let mut room = Room::new(rt.alloc());
    let mut runs = Runs::new(rt.alloc());
    for line in rt.lines(rt.alloc()) {
        let line = line?;
        print(&rt, &mut room, &mut runs, line.as_str())?;
    }
    Ok(())
}
