//! Tests of a host of robots outside a server: one that wants for memory, and the one of examples/README.md.
#![tactic(auto)]

#[cfg(test)]
mod doorkeeper;
#[cfg(test)]
mod histories;
#[cfg(test)]
mod planned;
#[cfg(test)]
mod turns;
