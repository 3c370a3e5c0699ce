// A text is read, its book checked and written back.
ghost use Rattle.std.specs.Prelude.{◌≡◌, ◌*◌, ◌<◌, ◌⊎◌, length, IsTrue, MatchResult};
ghost use Rattle.soundbook.specs.Sounds.{sound_meaning};
ghost use Rattle.booktext.specs.Text.{text_meaning};
ghost use Rattle.booktext.specs.Written.{lines_in};
ghost use Rattle.bookreport.specs.Findings.{symbols_in, Accepted, TextRefused, RoundTrips, CountsFound, Found, WrittenBack};

use booktext::{TextBook, write};
use rulebook::{Book, Fault};
use soundbook::{SoundBook, check, smallest_book};

// What was found in a text whose book is sound.
#[derive(Clone, Copy, Debug, PartialEq, Eq, Hash)]
pub struct Findings {
    pub parts: u16,
    pub keys: u16,
    pub start: u16,
    pub rules: u16,
    pub symbols: usize,
    // written back byte for byte; proved always to say so, and kept for those who read it
    pub same: bool,
}

// How many symbols the right sides of all rules have.
fn symbols_of<B: Book>(book: &B) -> usize
    ensures { result ≡ symbols_in (B.meaning book.now).grammar.rules }
{
    // From 0, since the library's lemmas on sums are about ranges that leave their end out.
    (0..book.rules())
        .map(|place| usize::from(book.size(place + 1)))
        .sum()
}

// The sound book of a text, or the first question answered no: those of the text, then those of the book.
pub fn sound_book(text: &[u8]) -> Result<SoundBook, Fault>
    ensures { MatchResult result (λ s. Accepted text.now × (sound_meaning s ≡ text_meaning text.now)) (λ f. TextRefused text.now f) }
{
    let book = TextBook::read(text)?;
    let mut place = smallest_book();
    check(&book, &mut place)?;
    Ok(place)
}

// The findings in a book that was written back as it was read, or not.
fn findings_of(book: &SoundBook, same: bool) -> Findings
    ensures counts { CountsFound (sound_meaning book.now) result }
    ensures back { result.same ≡ same }
{
    Findings {
        parts: book.parts(),
        keys: book.keys(),
        start: book.start(),
        rules: book.rules(),
        symbols: symbols_of(book),
        same,
    }
}

// What is found in a text; the space is where its book is written back.
pub fn examine(text: &[u8], space: &mut [u8]) -> Result<Findings, Fault>
    ensures found { MatchResult result (λ d. Accepted text.now × Found text.now d × IsTrue d.same × WrittenBack text.now space.old space.new) (λ f. (space.new ≡ space.old) × (TextRefused text.now f ⊎ ((f ≡ Fault.SpaceShort) × Accepted text.now × (length space.old < 34 * lines_in (text_meaning text.now))))) }
    ensures trips { RoundTrips }
{
    let book = sound_book(text)?;
    let len = write(&book, space)?;
    let same = &space[..len] == text;
    Ok(findings_of(&book, same))
}
