//! What a domain hosts on a shelf, as sessions see it.
#![tactic(auto)]

mod copies;
mod domain;

pub use copies::HostedCopies;
pub use domain::is_hosted_by;
