// Words of programme text, matched by the spellings of a sound book.
ghost use Rattle.std.specs.Prelude.{◌≡◌, ℕ, List, ◌++◌, IsTrue, ◌↔◌};
ghost use Rattle.language.specs.Book.{form as form_in, spelling as spelling_of};
ghost use Rattle.soundbook.specs.Sounds.{sound_meaning};
ghost use Rattle.wording.specs.Matching.{NameMatches, PieceMatches, piece_matches};
ghost use Rattle.wording.specs.Sets.{word_of};

use super::pieces::{Piece, Placed};
use super::words::Word;
use rulebook::{Book, KeyKind, UnknownKind, place_of};
use soundbook::SoundBook;

// The fewest bytes to which a key may be shortened.
const SHORTEST: usize = 3;

// A piece of programme text with its place, and the book by whose spellings it is matched.
#[derive(Clone, Copy)]
pub struct Spelled<'t, 'b> {
    pub word: Placed<'t>,
    pub book: &'b SoundBook,
}

// Whether the spelling of a key begins with a name. A book and a key travel together here, but no fact joins them that a
// type could keep.
fn begins_with<B: Book>(book: &B, key: u16, name: &[u8]) -> bool
    ensures { IsTrue result ↔ (rest : List ℕ) × (spelling_of (B.meaning book.now).forms key ≡ name.now ++ rest) }
{
    let len = book.spelling_len(key);
    name.len() <= usize::from(len)
        && (0..len)
            .zip(name)
            .all(|(at, byte)| book.spelling_byte(key, at) == *byte)
}

// Whether a name matches a key by its kind and spelling.
fn name_matches<B: Book>(book: &B, key: u16, name: &[u8]) -> bool
    ensures { IsTrue result ↔ NameMatches name.now (form_in (B.meaning book.now).forms key) }
{
    match KeyKind::try_from(book.kind(key)) {
        Ok(KeyKind::Full) => {
            name.len() == usize::from(book.spelling_len(key)) && begins_with(book, key, name)
        }
        Ok(KeyKind::Shortened) => name.len() >= SHORTEST && begins_with(book, key, name),
        Ok(KeyKind::Figure) | Err(UnknownKind(_)) => false,
    }
}

// Whether a piece matches a key of the book.
fn piece_fits<B: Book>(book: &B, key: u16, piece: &Piece) -> bool
    ensures { IsTrue result ↔ PieceMatches (B.meaning book.now) piece.now key }
{
    if place_of(key, 33, book.keys()).is_none() {
        return false;
    }
    match piece {
        Piece::Name(name) => name_matches(book, key, name),
        Piece::Figure(..) => matches!(KeyKind::try_from(book.kind(key)), Ok(KeyKind::Figure)),
        Piece::End => false,
    }
}

impl Word for Spelled<'_, '_> {
    ghost tells = { λ w. piece_matches (sound_meaning w.book.now) w.word.piece };

    fn matches(&self, key: u16) -> bool
        ensures set { result ≡ word_of (piece_matches (sound_meaning self.now.book.now) self.now.word.piece) key }
        ensures rules { IsTrue result ↔ PieceMatches (sound_meaning self.now.book.now) self.now.word.piece key }
    {
        piece_fits(self.book, key, &self.word.piece)
    }
}
