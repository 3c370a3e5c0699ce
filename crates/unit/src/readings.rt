//! First readings, written again and again.
ghost use Rattle.std.specs.Prelude.{◌≡◌, MatchResult, OnErr};
ghost use Rattle.language.specs.Readings.{Programme};
ghost use Rattle.draft.specs.States.{grammar, words};
ghost use Rattle.unit.specs.Readings.{ReadingsSucceed};
ghost use Rattle.unit.specs.Steps.{HoldsLongest, HasNoProgramme, IsMoveCount, ReadingsFail};

use super::failures::Failure;
use super::presses::{new_draft, press_all};
use bookreport::sound_book;
use draft::Draft;
use reading::reading;
use rulebook::Fault;
use std::alloc::Global;

// The most moves of a reading.
const MOST_MOVES: usize = 12_836;

/// How many words a reading is of, and how many moves it has.
#[derive(Clone, Copy)]
#[repr(C)]
pub struct ReadingSize {
    pub words: usize,
    pub moves: usize,
}

// Rubs out words until those held are a programme. Refused where no prefix of them is one (25).
fn rub_out_to_programme(draft: &mut Draft) -> Result<(), Fault>
    ensures { MatchResult result (λ _. HoldsLongest draft.old draft.new) (HasNoProgramme draft.old) }
{
    while !draft.whole() {
        if draft.rub_out().is_err() {
            return Err(Fault::NotWhole { held: 0 });
        }
    }
    Ok(())
}

// Writes the first reading of the words held `count` times, and answers how many moves it has, or `before` where it is never
// written. Never refused, since the words are a programme and the strip has a place for each move.
fn count_moves(draft: &Draft, count: u32, before: usize) -> Result<usize, Fault>
    requires { Programme (grammar draft.now) (words draft.now) }
    ensures { MatchResult result (IsMoveCount draft.now count before) (λ _. ⊥) }
{
    let mut strip = [0u8; MOST_MOVES];
    let mut moves = before;
    for _reading in 0..count {
        moves = reading(draft, &mut strip)?.moves;
    }
    Ok(moves)
}

// Presses the keys on a new draft of the book of a text, rubs out to the longest prefix that is a programme, and writes its
// first reading `count` times.
pub(super) fn readings(
    heap: Global,
    text: &[u8],
    keys: &[u16],
    count: u32,
    size: &mut ReadingSize,
) -> Result<(), Failure>
    ensures outcome { MatchResult result (λ _. ReadingsSucceed text.now keys.now count size.old size.new) (ReadingsFail text.now keys.now) }
    ensures unchanged { OnErr result (size.new ≡ size.old) }
{
    let book = sound_book(text)?;
    let mut draft = new_draft(heap, &book)?;
    press_all(&mut draft, keys, &mut [])?;
    rub_out_to_programme(&mut draft)?;
    *size = ReadingSize {
        words: usize::from(draft.held()),
        moves: count_moves(&draft, count, size.moves)?,
    };
    Ok(())
}
