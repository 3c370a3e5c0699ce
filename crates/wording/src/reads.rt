// A word of programme text is read as a name or a figure.
ghost use Rattle.std.specs.Prelude.{◌≡◌, ℕ, ◌+◌, ◌^◌, ◌<◌, ◌≤◌, length, IsTrue, ◌↔◌, MatchOption, MatchResult, slice_index};
ghost use Rattle.wording.specs.Pieces.{Figures, written_after, Shows, ByteFits, IsMisfit, WordRefused};

use super::pieces::Piece;
use rulebook::Fault;
use soundbook::is_letter;

// The most bytes of a name.
const LONGEST_NAME: usize = 24;

// The most digits of a figure.
const LONGEST_FIGURE: usize = 4;

// Whether a byte fits the first byte of its word.
fn byte_fits(first: u8, byte: u8) -> bool
    ensures { IsTrue result ↔ ByteFits first byte }
{
    if is_letter(first) {
        is_letter(byte)
    } else {
        byte.is_ascii_digit()
    }
}

// The place of the first byte of a word that does not fit, counted from 0.
fn misfit(first: u8, word: &[u8]) -> Option<usize>
    ensures { MatchOption result ((i : ℕ) → i < length word.now → ByteFits first (slice_index word.now i)) (IsMisfit first word.now) }
{
    word.iter().position(|byte| !byte_fits(first, *byte))
}

// The number that the digits of a figure write.
fn value_of(figures: &[u8]) -> u16
    requires { Figures figures.now }
    ensures { result ≡ written_after 0 figures.now }
{
    // A loop, and no fold: that a value fits rests on how many digits came before, which no closure sees.
    let mut value = 0;
    for byte in figures {
        value = value * 10 + u16::from(*byte - b'0');
    }
    value
}

// The piece that a word is; of no bytes, the end. The word begins after so many bytes.
pub(super) fn piece_of(word: &[u8], from: usize) -> Result<Piece<'_>, Fault>
    requires { from + length word.now < 2 ^ 64 }
    ensures { MatchResult result (λ p. Shows word.now p) (λ f. WordRefused from word.now f) }
{
    let Some(first) = word.first() else {
        return Ok(Piece::End);
    };
    if let Some(at) = misfit(*first, word) {
        return Err(Fault::WordByte {
            byte: from + at + 1,
        });
    }
    match (is_letter(*first), word.len()) {
        (true, ..=LONGEST_NAME) => Ok(Piece::Name(word)),
        (false, ..=LONGEST_FIGURE) => Ok(Piece::Figure(word, value_of(word))),
        _ => Err(Fault::WordLength { byte: from + 1 }),
    }
}
