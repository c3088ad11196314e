//! Sessions: for whom each speaks, what a message asks for, what is answered, and what is sent of the copies of wavelets.
#![tactic(auto)]

mod answers;
mod deliver;
mod lists;
mod news;
mod request;
mod rules;
mod session;

pub use delta_history::Copies;
pub use lists::{Domains, Openings, Tellings, Waitings};
pub use news::{News, Reply};
pub use request::{Request, SubmitAnswer};
pub use rules::reason_of;
pub use session::{Opening, Party, Session, Telling, Waiting};
