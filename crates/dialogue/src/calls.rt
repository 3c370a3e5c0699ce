//! The calls of a draft, and their answers.
use draft::LitSet;
use reading::Written;
use rulebook::Fault;

/// A call of a draft.
#[derive(Clone, Copy, Debug, PartialEq, Eq)]
pub enum Call<W> {
    Press(W),
    RubOut,
    Lit,
    Whole,
    Reading,
}

/// The answer of a call.
#[derive(Clone, Copy, Debug, PartialEq, Eq)]
pub enum Answer {
    // of press and rub out: how many items stand in the chart
    Items(usize),
    // of lit
    Keys(LitSet),
    // of whole
    Yes(bool),
    // of reading
    Moves(Written),
    // of any call that may be refused
    Refused(Fault),
}

/// A call, and the place for its answer.
#[derive(Clone, Copy, Debug, PartialEq, Eq)]
pub struct Exchange<W> {
    pub call: Call<W>,
    pub answer: Answer,
}

impl Answer {
    /// What stands in the place of an answer that is still to come.
    pub const BLANK: Answer = Answer::Yes(false);
}
