//! Tests of the ends that the program reads and writes.
#![tactic(auto)]

#[cfg(test)]
mod outside;
