// The first reading of the words held, written as moves.
ghost use Rattle.std.specs.Prelude.{◌≡◌, ℕ, ◌≤◌, length, Err, MatchResult};
ghost use Rattle.rulebook.specs.declared.faults.Fault.TheVariants.{StripShort};
ghost use Rattle.draft.specs.Law.{IsLawful};
ghost use Rattle.draft.specs.States.{grammar, words};
ghost use Rattle.reading.specs.Written.{ReadingWritten, ReadingRefused, Rooted};

use super::walks::{Open, count, opened, write};
use draft::Draft;
use rulebook::{Book, Fault};

// The answer of a reading: how many moves were written, and how many places replay needs on its second stack at most.
#[derive(Clone, Copy, Debug, PartialEq, Eq)]
pub struct Written {
    pub moves: usize,
    pub depth: usize,
}

// Writes the moves of the first reading, of which the top rule is opened, if the strip has a place for each.
fn write_all(draft: &Draft, top: Open, held: usize, strip: &mut [u8]) -> Result<Written, Fault>
    requires { Rooted (grammar draft.now) (words draft.now) top held }
    ensures read { let g = grammar draft.now in let ws = words draft.now in MatchResult result (ReadingWritten g ws strip.old strip.new) (λ f. ReadingRefused g ws (length strip.old) f × (strip.new ≡ strip.old)) }
    ensures space { (held : ℕ) → 12836 ≤ length strip.old → result ≡ Err (StripShort held) → ⊥ }
{
    let moves = count(draft, top);
    if strip.len() < moves {
        return Err(Fault::StripShort { held });
    }
    write(draft, top, strip, moves);
    // Of 2m + n moves for m rules over n words, 6m are the threefold of those past n.
    Ok(Written {
        moves,
        depth: 1 + 3 * (moves - held),
    })
}

// Writes the moves of the first reading of the words held to the front of the strip. Refused where the words are no
// programme, then where the strip has too few places; then it stays. With 12,836 places it is never refused for space.
pub fn reading(draft: &Draft, strip: &mut [u8]) -> Result<Written, Fault>
    ensures lawful { IsLawful draft.now }
    ensures read { let g = grammar draft.now in let ws = words draft.now in MatchResult result (ReadingWritten g ws strip.old strip.new) (λ f. ReadingRefused g ws (length strip.old) f × (strip.new ≡ strip.old)) }
    ensures space { (held : ℕ) → 12836 ≤ length strip.old → result ≡ Err (StripShort held) → ⊥ }
{
    let book = draft.book();
    let words = draft.held();
    let held = usize::from(words);
    if !draft.whole() {
        return Err(Fault::NotWhole { held });
    }
    let top = opened(draft, book.start(), 0, words);
    write_all(draft, top, held, strip)
}
