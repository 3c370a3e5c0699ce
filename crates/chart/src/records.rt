// What is settled before a word is pressed: the book, and a record for each word held.
ghost use Rattle.std.specs.Prelude.{◌≤◌};

use super::indexes::Index;
use super::starts::StartSet;
use rulebook::{Book, SymbolSet};
use soundbook::SoundBook;
use wording::Matched;

// What is kept of a word.
#[derive(Clone, Copy)]
pub(super) struct Record {
    // the keys that the word matches
    pub(super) word: Matched,
    // the symbols that may start after it
    pub(super) wanted: SymbolSet,
    // the starts of its unfinished items
    pub(super) starts: StartSet,
    // its items: the places from the first to before the last; before the middle one stand the unfinished ones
    pub(super) from: usize,
    pub(super) waiting: usize,
    pub(super) past: usize,
}

impl Record {
    // no word
    pub(super) const BLANK: Record = Record {
        word: Matched::NONE,
        wanted: SymbolSet::EMPTY,
        starts: StartSet::EMPTY,
        from: 0,
        waiting: 0,
        past: 0,
    };
}

// The words held, each by its record, and the book by which they are read.
#[derive(Clone, Copy)]
pub(super) struct Settled<'b> {
    pub(super) book: &'b SoundBook,
    pub(super) index: Index,
    pub(super) records: [Record; 100],
    pub(super) held: u16,
    ghost few: { held ≤ 100 },
}

impl<'b> Settled<'b> {
    ghost use Rattle.std.specs.Prelude.{◌≡◌, ℕ, ◌&&◌, replicate};
    ghost use Rattle.rulebook.specs.Sets.{has, key_number};
    ghost use Rattle.soundbook.specs.Sounds.{sound_meaning};
    ghost use Rattle.chart.specs.Indexes.{IndexOf};
    ghost use Rattle.chart.specs.Records.{blank_record, used_of, wanted_in};

    // No word is held.
    pub(super) fn of(book: &'b SoundBook) -> Settled<'b>
        ensures book { result.book ≡ book.entry }
        ensures index { IndexOf (sound_meaning book.now).grammar result.index }
        ensures records { result.records ≡ replicate 100 blank_record }
        ensures held { result.held ≡ 0 }
    {
        Settled {
            book,
            index: Index::of(book),
            records: [Record::BLANK; 100],
            held: 0,
        }
    }

    // The symbols that may start after so many words.
    pub(super) fn wanted(&self, words: u16) -> SymbolSet
        requires { words ≤ 100 }
        ensures { result ≡ wanted_in self.now words }
    {
        match words.checked_sub(1) {
            Some(last) => self.records[usize::from(last)].wanted,
            None => self.index.corners(self.book.start()),
        }
    }

    // How many items there are over the words held.
    pub(super) fn used(&self) -> usize
        ensures { result ≡ used_of self.now }
    {
        match self.held.checked_sub(1) {
            Some(last) => self.records[usize::from(last)].past,
            None => 0,
        }
    }

    // The lit keys: those that may start after the last word.
    pub(super) fn lit(&self) -> SymbolSet
        ensures { (c : ℕ) → has result c ≡ (has (wanted_in self.now self.now.held) c && key_number c) }
    {
        self.wanted(self.held).common(&SymbolSet::keys())
    }
}
