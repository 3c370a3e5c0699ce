//! Runs of calls on a draft.
#![tactic(auto)]

mod calls;
mod runs;
mod theorems;

pub use calls::{Answer, Call, Exchange};
pub use runs::{RunResult, check_and_run, run};
pub use theorems::law_theorem;
