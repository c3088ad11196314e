//! One session of a server: what comes over a link is answered, and what is new is sent, until the link is closed.
#![tactic(auto)]

mod client;
mod end;
mod job;
mod news;
mod replies;
mod sending;
mod serve;

pub use job::{LinkEnd, LinkJob};
pub use serve::serve_link;
