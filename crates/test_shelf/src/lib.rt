//! Tests of a shelf over a folder of the operating system, and over one that fails.
#![tactic(auto)]

#[cfg(test)]
mod failing_folder;
#[cfg(test)]
mod first_delta;
#[cfg(test)]
mod real_folder;
