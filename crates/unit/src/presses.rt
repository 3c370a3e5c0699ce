//! Keys pressed on a draft, and rounds of presses.
ghost use Rattle.std.specs.Prelude.{◌≡◌, ◌≤◌, [], set, length, IfOk, MatchResult};
ghost use Rattle.language.specs.Words.{only};
ghost use Rattle.draft.specs.Law.{PressRefuses};
ghost use Rattle.draft.specs.States.{grammar, words};
ghost use Rattle.unit.specs.Steps.{IsEmptyDraft, IsKeyPress, IsPressOfAll, PressOfAllRefuses, IsClear, RepeatSucceeds, RoundsFail};
ghost use Rattle.unit.specs.Rounds.{RoundsSucceed, RoundsRefuse};

use super::failures::Failure;
use bookreport::sound_book;
use draft::{Draft, Item};
use rulebook::Fault;
use soundbook::SoundBook;
use std::alloc::{AllocError, Global};
use wording::Pressed;

// The most places that a draft uses.
const PLACES: usize = 60_000;

/// What a draft answers to a pressed key: how many items stand then, and how many keys are lit.
#[derive(Clone, Copy)]
#[repr(C)]
pub struct PressAnswer {
    pub items: usize,
    pub lit: u32,
}

// A new draft of a book, with as many places as a draft can use.
pub(super) fn new_draft(heap: Global, book: &SoundBook) -> Result<Draft<'_>, AllocError>
    ensures { IfOk result (IsEmptyDraft book.now) }
{
    let chart = vec![in heap; Item::BLANK; PLACES]?;
    Ok(Draft::open(book, chart))
}

// Presses a key, and asks for the lit keys.
fn press(draft: &mut Draft, key: u16) -> Result<PressAnswer, Fault>
    ensures { MatchResult result (IsKeyPress draft.old draft.new key) (PressRefuses (grammar draft.old) (length draft.old.places) (words draft.old) (only key)) }
{
    let items = draft.press(&Pressed { key })?;
    let lit = draft.lit();
    Ok(PressAnswer {
        items,
        lit: lit.count,
    })
}

// Writes an answer into its place, if it has one.
#[tactic(auto, using(std::proofs::lemmas::List::set_past))]
fn write(answers: &mut [PressAnswer], index: usize, answer: PressAnswer)
    ensures { answers.new ≡ set answers.old index answer }
{
    if index < answers.len() {
        answers[index] = answer;
    }
}

// Presses the keys in order up to the first that is refused, and writes the answer to each into its place.
pub(super) fn press_all(
    draft: &mut Draft,
    keys: &[u16],
    answers: &mut [PressAnswer],
) -> Result<(), Fault>
    requires { words draft.old ≡ [] }
    ensures { MatchResult result (λ _. IsPressOfAll draft.old draft.new keys.now answers.old answers.new) (PressOfAllRefuses draft.old keys.now answers.old answers.new) }
{
    for (index, key) in keys.iter().enumerate() {
        let answer = press(draft, *key)?;
        write(answers, index, answer);
    }
    Ok(())
}

// Rubs out words until none is held.
fn rub_out_all(draft: &mut Draft)
    ensures { IsClear draft.old draft.new }
{
    while draft.rub_out().is_ok() {}
}

// Presses the keys and rubs them out again, `count` times.
fn repeat(
    draft: &mut Draft,
    keys: &[u16],
    count: u32,
    answers: &mut [PressAnswer],
) -> Result<(), Fault>
    requires { words draft.old ≡ [] }
    ensures { MatchResult result (λ _. RepeatSucceeds draft.old keys.now count answers.old answers.new) (λ f. (1 ≤ count) × PressOfAllRefuses draft.old keys.now answers.old answers.new f) }
{
    for _round in 0..count {
        press_all(draft, keys, answers)?;
        rub_out_all(draft);
    }
    Ok(())
}

// The same on a new draft of the book of a text.
pub(super) fn rounds(
    heap: Global,
    text: &[u8],
    keys: &[u16],
    count: u32,
    answers: &mut [PressAnswer],
) -> Result<(), Failure>
    ensures { MatchResult result (λ _. RoundsSucceed text.now keys.now count answers.old answers.new) (RoundsFail text.now keys.now count answers.old answers.new) }
{
    let book = sound_book(text)?;
    let mut draft = new_draft(heap, &book)?;
    repeat(&mut draft, keys, count, answers)?;
    Ok(())
}
