// What keyin prints: a programme text is keyed in, word by word.
#![tactic(auto)]

mod programmes;
mod sources;

pub use programmes::programme_lines;
pub use sources::{keyed, read_programme};
