//! Names: addresses, domains, and the names of wavelets, documents and sessions, each a text that was checked by its grammar;
//! and what states and deltas of a history are known by.
#![tactic(auto)]

mod address;
mod delta_id;
mod document_name;
mod domain;
mod fault;
mod grammar;
mod hashed_version;
mod laws;
mod scanner;
mod session_name;
mod wavelet_name;

pub use address::Address;
pub use delta_id::DeltaId;
pub use document_name::DocumentName;
pub use domain::Domain;
pub use fault::BaseFault;
pub use hashed_version::HashedVersion;
pub use laws::{addresses_have_two_parts, domains_are_labels, wavelet_names_have_four_parts};
pub use session_name::SessionName;
pub use wavelet_name::WaveletName;
