//! The folders, files and clock of the operating system, as the program's outside sees them. They tell nothing of what they hold,
//! and count each call that failed.
#![tactic(auto)]

mod clock;
mod disk;
mod folder;

pub use clock::SystemClock;
pub use disk::FileDisk;
pub use folder::FileFolder;
