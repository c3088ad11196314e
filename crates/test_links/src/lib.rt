//! Tests of links, nets, jobs and gates: those in memory, and those over sockets and threads.
#![tactic(auto)]

#[cfg(test)]
mod bells;
#[cfg(test)]
mod doubles;
#[cfg(test)]
mod ends;
#[cfg(test)]
mod frames;
#[cfg(test)]
mod handshakes;
#[cfg(test)]
mod jobs;
#[cfg(test)]
mod messages;
pub mod numbered;
