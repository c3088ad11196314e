//! Tests of the loop over lines, with a machine that only echoes.
#![tactic(auto)]

#[cfg(test)]
mod echo;
#[cfg(test)]
mod runs;
