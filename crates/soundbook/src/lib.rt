// Books in fixed memory: the works book, the sound book, the check that fills it from any make of book, and left corners.
#![tactic(auto)]

mod checks;
mod closures;
mod copies;
mod corners;
mod derivations;
mod rows;
mod shorts;
mod sounds;
mod tables;
mod works;

pub use checks::{check, smallest_book};
pub use copies::is_letter;
pub use corners::left_corners;
pub use sounds::SoundBook;
pub use works::WorksBook;
