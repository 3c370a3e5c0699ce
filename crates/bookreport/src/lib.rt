// What is found in the text of a book, and how it is told to a rule writer.
#![tactic(auto)]

mod examination;
mod reports;
mod sources;
#[cfg(test)]
mod tests;

pub use examination::{Findings, examine, sound_book};
pub use reports::report_of;
pub use sources::read_book;
