//! Valid edits from plain intents: operations that type, erase, annotate, insert elements and set attributes.
#![tactic(auto)]

mod annotation;
mod attribute;
mod contents;
mod element;
mod erasure;
mod fault;
mod items;
mod one_change;
mod passage;
mod place;
mod typing;

pub use annotation::annotate;
pub use attribute::set_attribute;
pub use contents::insert_contents;
pub use element::insert_element;
pub use erasure::erase;
pub use fault::BuildFault;
pub use items::Items;
pub use typing::type_at;
