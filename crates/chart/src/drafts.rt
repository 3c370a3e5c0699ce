// The draft: words are pressed and rubbed out, and the chart of the items over them is kept.
ghost use Rattle.std.specs.Prelude.{◌≡◌, ℕ, ◌&&◌, map, MatchResult, IsTrue, ◌↔◌};
ghost use Rattle.language.specs.Chart.{Whole};
ghost use Rattle.chart.specs.Calls.{RubbedOut, NotRubbedOut, ColumnIs};
ghost use Rattle.chart.specs.Takings.{Taken, NotTaken};
ghost use Rattle.chart.specs.Records.{matching};
ghost use Rattle.chart.specs.Items.{told};
ghost use Rattle.chart.specs.States.{Stands, grammar, words, expected, opened};
ghost use Rattle.rulebook.specs.Sets.{has, key_number};

use super::boards::{Board, Full};
use super::items::Item;
use super::presses::Press;
use super::records::{Record, Settled};
use rulebook::{Fault, SymbolSet};
use soundbook::SoundBook;
use std::marker::Model;
use wording::Matched;

/// The most words that a draft holds.
pub const MOST_WORDS: usize = 100;

// A draft over a sound book and a chart. What it means is told by `State`.
#[derive(Drop)]
pub struct Draft<'b> {
    settled: Settled<'b>,
    board: Board,
}

impl<'b> Model for Draft<'b> {
    ghost use Rattle.chart.specs.States.{State};

    ghost Value = { State };

    ghost use Rattle.chart.specs.Views.{state_of, Kept};

    ghost view = { λ d. state_of d.settled d.board };

    ghost invariant = { λ d. Kept d.settled d.board };
}

impl<'b> Draft<'b> {
    // A new draft, which holds no word. Its places are the first 60,000 of the chart, or all if there are fewer.
    pub fn open(book: &'b SoundBook, chart: Vec<Item>) -> Draft<'b>
        ensures stands { Stands result }
        ensures opened { result ≡ opened book.now result.first (map told chart.items) }
    {
        Draft {
            settled: Settled::of(book),
            board: Board::over(chart),
        }
    }

    // The chart, with what stands in it.
    pub fn into_chart(self) -> Vec<Item>
        ensures { map told result.items ≡ self.entry.places }
    {
        let Draft { settled: _, board } = self;
        let Board { chart, .. } = board;
        chart
    }

    // Takes a word behind those held, and answers how many items are in use. Refused where 100 words are held, then where the
    // items do not fit.
    pub fn take(&mut self, word: Matched) -> Result<usize, Fault>
        ensures { MatchResult result (Taken self.old self.new (matching word)) (NotTaken self.old self.new (matching word)) }
    {
        let held = usize::from(self.settled.held);
        if held >= MOST_WORDS {
            return Err(Fault::DraftFull { held });
        }
        let from = self.board.top;
        let press = Press {
            settled: &self.settled,
            word,
        };
        match press.fill(&mut self.board) {
            Ok(record) => {
                self.settled.records[held] = record;
                self.settled.held += 1;
                Ok(self.board.top)
            }
            Err(Full) => {
                self.board.cut(from);
                Err(Fault::ChartFull { held })
            }
        }
    }

    // Removes the last word, and answers how many items are in use. Refused where no word is held.
    pub fn rub_out(&mut self) -> Result<usize, Fault>
        ensures stands { Stands self.new }
        ensures cases { MatchResult result (RubbedOut self.old self.new) (NotRubbedOut self.old self.new) }
    {
        let Some(last) = self.settled.held.checked_sub(1) else {
            return Err(Fault::NothingHeld { held: 0 });
        };
        let place = usize::from(last);
        self.board.cut(self.settled.records[place].from);
        self.settled.records[place] = Record::BLANK;
        self.settled.held = last;
        Ok(self.board.top)
    }

    // The keys that may start after the words held.
    pub fn lit_keys(&self) -> SymbolSet
        ensures stands { Stands self.now }
        ensures keys { (c : ℕ) → has result c ≡ (has (expected self.now) c && key_number c) }
    {
        self.settled.lit()
    }

    // The book by whose rules the words are read.
    pub fn book(&self) -> &'b SoundBook
        ensures { result.now ≡ self.now.book }
    {
        self.settled.book
    }

    // The chart's places, as they stand.
    pub fn places(&self) -> &[Item]
        ensures { map told result.now ≡ self.now.places }
    {
        let Draft { board, .. } = self;
        board.chart.as_slice()
    }

    // How many words are held.
    pub fn held(&self) -> u16
        ensures stands { Stands self.now }
        ensures held { result ≡ self.now.held }
    {
        let Draft { settled, .. } = self;
        settled.held
    }

    // The items that end at a word, which counts from 1: none where no such word is held.
    pub fn column(&self, word: u16) -> &[Item]
        ensures { ColumnIs self.now word (map told result.now) }
    {
        match word.checked_sub(1) {
            Some(place) if place < self.settled.held => {
                let record = self.settled.records[usize::from(place)];
                self.board.items(record.from, record.past)
            }
            _ => &[],
        }
    }

    // Whether the words held are a programme.
    pub fn whole(&self) -> bool
        ensures stands { Stands self.now }
        ensures whole { IsTrue result ↔ Whole (grammar self.now) (words self.now) }
    {
        self.settled.is_whole(&self.board)
    }
}
