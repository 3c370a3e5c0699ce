//! The draft: words are pressed and rubbed out, and the keys that may follow are known. Each call says, in programmes and
//! their readings, what it answers and what it leaves.
#![tactic(auto)]

mod draft;
mod lit_set;

pub use chart::Item;
pub use draft::Draft;
pub use lit_set::LitSet;
