// The text of a rule book: lines of 34 bytes that are read where they stand, and written.
#![tactic(auto)]

mod fields;
mod lines;
mod reads;
mod texts;
mod writes;

pub use fields::{TooWide, number, set_right};
pub use texts::TextBook;
pub use writes::{write, written_len};
