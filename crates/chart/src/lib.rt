// The draft: the words held, and the chart of the items over them.
#![tactic(auto)]

mod boards;
mod columns;
mod drafts;
mod filling;
mod indexes;
mod items;
mod marks;
mod presses;
mod records;
mod settling;
mod starts;
mod wholes;

pub use drafts::{Draft, MOST_WORDS};
pub use items::Item;
