//! The calls of a sample, with the places for their answers.
ghost use Rattle.rulebook.specs.Sets.{has};

use dialogue::{Answer, Call, Exchange};
use rulebook::{Fault, SymbolSet};
use soundbook::SoundBook;
use std::alloc::{AllocError, Global};
use wording::{Matched, Piece, Placed, Pressed, Spelled, Word};

// What stands in the place of an answer before a run: a refusal of replay, which no call of a draft gives.
const NO_ANSWER: Answer = Answer::Refused(Fault::StackFull { at: 999 });

// A word of this program's own, which matches the keys of a set.
#[derive(Clone, Copy)]
struct Gathered {
    keys: SymbolSet,
}

impl Word for Gathered {
    ghost tells = { λ w. has w.keys };

    fn matches(&self, key: u16) -> bool {
        matches!(key, 33..=64) && self.keys.contains(key)
    }
}

// A call, and the place for its answer.
fn exchange_of<W>(call: Call<W>) -> Exchange<W> {
    Exchange {
        call,
        answer: NO_ANSWER,
    }
}

// The call that a name stands for in words of every kind.
fn named_call<W>(name: &Placed) -> Option<Call<W>> {
    match name.piece.bytes() {
        b"-rub" => Some(Call::RubOut),
        b"-lit" => Some(Call::Lit),
        b"-whole" => Some(Call::Whole),
        b"-reading" => Some(Call::Reading),
        _ => None,
    }
}

// The call that a word stands for where a figure is a pressed key.
fn pressed_call(word: &Placed) -> Option<Call<Pressed>> {
    match word.piece {
        Piece::Figure(_, key) => Some(Call::Press(Pressed { key })),
        Piece::Name(_) | Piece::End => named_call(word),
    }
}

/// The calls of words in which a figure presses the key of that number.
pub fn pressed_calls(heap: Global, words: &[Placed]) -> Result<Vec<Exchange<Pressed>>, AllocError> {
    let mut exchanges = Vec::new(heap);
    for word in words {
        if let Some(call) = pressed_call(word) {
            exchanges.push(exchange_of(call))?;
        }
    }
    Ok(exchanges)
}

// The call that a name stands for where `-press` presses the keys that were gathered, which are gathered anew from then on.
fn set_call(name: &Placed, gathered: &mut SymbolSet) -> Option<Call<Matched>> {
    match name.piece.bytes() {
        b"-press" => {
            let word = Matched::of(&Gathered { keys: *gathered });
            *gathered = SymbolSet::empty();
            Some(Call::Press(word))
        }
        _ => named_call(name),
    }
}

/// The calls of words in which figures gather a set of keys, and `-press` presses it.
pub fn set_calls(heap: Global, words: &[Placed]) -> Result<Vec<Exchange<Matched>>, AllocError> {
    let mut exchanges = Vec::new(heap);
    let mut gathered = SymbolSet::empty();
    for word in words {
        if let Piece::Figure(_, key) = word.piece {
            gathered = gathered.with(key);
        } else if let Some(call) = set_call(word, &mut gathered) {
            exchanges.push(exchange_of(call))?;
        }
    }
    Ok(exchanges)
}

// The call that a name stands for, or the press of a word where it stands for none.
fn call_or_press<W: Drop>(name: &Placed, word: W) -> Call<W> {
    named_call(name).unwrap_or(Call::Press(word))
}

/// The calls of words that are pressed as spelled words of a sound book.
pub fn spelled_calls<'t, 'b>(
    heap: Global,
    book: &'b SoundBook,
    words: &[Placed<'t>],
) -> Result<Vec<Exchange<Spelled<'t, 'b>>>, AllocError> {
    let mut exchanges = Vec::new(heap);
    for word in words {
        let call = call_or_press(word, Spelled { word: *word, book });
        exchanges.push(exchange_of(call))?;
    }
    Ok(exchanges)
}
