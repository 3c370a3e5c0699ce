// Readings as moves: the stack, the machine that replays moves, and the walk that writes the first reading.
#![tactic(auto)]

mod choices;
mod machines;
mod readings;
mod replays;
mod stacks;
mod walks;

pub use readings::{Written, reading};
pub use replays::{replay, replay_theorem};
pub use stacks::{Blank, Full, Stack};
