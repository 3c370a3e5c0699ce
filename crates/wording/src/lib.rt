// Words: sets of keys, whatever they are made of; and programme text, cut into its words.
#![tactic(auto)]

mod cutter;
mod pieces;
mod pressed;
mod programmes;
mod reads;
mod spelled;
mod theorems;
mod words;

pub use cutter::Cutter;
pub use pieces::{Piece, Placed};
pub use pressed::{Matched, Pressed};
pub use programmes::{Programme, cut};
pub use spelled::Spelled;
pub use theorems::word_theorem;
pub use words::Word;
