//! What a terminal shows of a wavelet, and the numbers in the words of its commands.
#![tactic(auto)]

mod document;
mod escape;
mod numerals;
mod screen;

pub use escape::push_text;
pub use numerals::number;
pub use screen::write_screen;
