//! What a domain hosts on a shelf, and its copies of what other domains host, as sessions see them.
#![tactic(auto)]

mod copies;

pub use copies::ShardCopies;
