//! Talks with a server: rows tell what its links receive, and after the row `serve` stands what the server sent over each.
//!
//! Each line of standard input is printed again. In rows `<<N TEXT>>` stands for so many times that text, or the bytes of digits after
//! `0x`; in what was sent it stands for a letter that comes more than 99 times in a row. Empty lines
//! and those that begin with `#` stay as they are. What follows each verb stands at its function in `talk.rt`.
#![tactic(auto)]

ghost use denote.Param.Send.{IsSend};

mod gate;
mod link;
mod net;
mod robots;
mod script;
mod sent;
mod spawner;
mod stage;
mod talk;

use crate::talk::Talk;
use std::alloc::Global;
use std::io;
use std::sync::Wait;
use std::thread::Threads;
use test_disk_rows::Fault;

// What is printed after the row.
fn answer<R: Threads + Wait + Copy + Send + Sync + Drop + 'static>(
    rt: &R,
    alloc: Global,
    talk: &mut Talk,
    row: &str,
) -> Result<String, Fault>
    requires sends { IsSend R.row }
{
    let mut out = String::new(alloc);
    talk.call(rt, alloc, row, &mut out)?;
    Ok(out)
}

fn is_remark(row: &str) -> bool {
    row.is_empty() || row.starts_with('#')
}

fn main(rt: HostRuntime) -> io::Result<()> {
    let mut talk = Talk::new(rt.alloc());
    for line in rt.lines(rt.alloc()) {
        let line = line?;
        let row = line.as_str();
        if is_remark(row) {
            println!(rt; "{row}")?;
        } else {
            match answer(&rt, rt.alloc(), &mut talk, row) {
                Ok(answer) => println!(rt; "{row}{answer}")?,
                Err(fault) => println!(rt; "{row} => {fault:?}")?,
            }
        }
    }
    Ok(())
}
