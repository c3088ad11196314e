//! One file as a journal sees it: what a read gives now, and what a crash may leave.
#![tactic(auto)]

mod calls;
mod disk;
mod image;
mod memory;
mod steps;

pub use disk::{Disk, DiskError, DiskFault};
pub use memory::MemoryDisk;
