//! A server: it accepts links, and serves each in a job of its own, from the wavelets of one hub.
#![tactic(auto)]

mod attendant;
mod herald;
mod meeting;
mod robots;
mod server;
mod serving;
mod starting;
mod stop;
mod taking;
mod top;

pub use server::{Ended, Server};
pub use top::serve;
