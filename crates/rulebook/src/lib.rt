// Rule books: the refusals, the questions that every make of book answers, the kinds of keys, and sets of symbols.
#![tactic(auto)]

mod books;
mod faults;
mod kinds;
mod sets;

pub use books::{Book, item_or, place_of};
pub use faults::Fault;
pub use kinds::{KeyKind, UnknownKind};
pub use sets::SymbolSet;
