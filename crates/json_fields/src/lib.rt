//! Values in the members of a JSON object, read and written: numbers, texts, names, hashes and bytes.
#![tactic(auto)]

mod bytes;
mod members;
mod names;
mod version;
mod writing;

pub use bytes::{bytes_at, hash_at};
pub use members::{count_at, has_members, number_at, str_at, text_at};
pub use names::{address_at, document_at, domain_at, session_at, wavelet_at};
pub use version::{id_at, version_at};
pub use writing::{bytes_value, hash_value, put_count, put_text, string_value};
