//! The states of wavelets as JSON, read and written: participants with their roles, and documents, each as the operation that
//! makes it of the empty document.
#![tactic(auto)]

mod reading;
mod writing;

pub use reading::state_in;
pub use writing::{documents_value, members_value};
