//! Operations on documents: components in a row, which stand for one action on each item.
#![tactic(auto)]

mod builder;
mod component;
mod cursor;
mod depths;
mod fault;
mod keys;
mod normal;
mod normal_builder;
mod normal_output;
mod op;
mod open;
mod run;
mod running;
mod shown_changes;

pub use builder::Builder;
pub use component::Component;
pub use cursor::Cursor;
pub use fault::OpFault;
pub use normal::normal_form_holds;
pub use normal_builder::NormalBuilder;
pub use op::DocOp;
pub use run::{AttributePart, ContentRun, Head};
