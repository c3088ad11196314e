//! The robot `echo`: it answers each delta that mutates another document with a mark in its own.
#![tactic(auto)]

mod echo;
mod marking;

pub use echo::Echo;
