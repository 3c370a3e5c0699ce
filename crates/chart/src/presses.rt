// A word that is being pressed, and what spans up to it.
use super::records::Settled;
use wording::Matched;

// A symbol that spans from after so many words to the word that is being pressed.
#[derive(Clone, Copy)]
pub(super) struct Span {
    pub(super) symbol: u16,
    pub(super) start: u16,
}

// What a press reads and does not change: the words before, and the new one.
#[derive(Clone, Copy)]
pub(super) struct Press<'d, 'b> {
    pub(super) settled: &'d Settled<'b>,
    pub(super) word: Matched,
}
