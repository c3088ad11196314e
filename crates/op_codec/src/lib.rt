//! Operations as bytes: each operation has one spelling, and no spelling begins another.
#![tactic(auto)]

mod component;
mod fault;
mod laws;
mod measure;
mod number;
mod parts;
mod reading;
mod spell;
mod text;
mod writing;

pub use fault::CodecFault;
pub use laws::spellings_differ;
pub use reading::{ReadOp, read};
pub use spell::{normal_len, spelling_len, write, write_normal};
