// A filled column is settled: what may start after its word, its unfinished items in front, and its record.
ghost use Rattle.std.specs.Prelude.{◌≡◌, ℕ, suc, ◌<◌, ◌≤◌, true, MatchResult, IsTrue, ◌↔◌};
ghost use Rattle.language.specs.Book.{Numbered};
ghost use Rattle.language.specs.Chart.{Wanted};
ghost use Rattle.rulebook.specs.Sets.{has};
ghost use Rattle.chart.specs.Filling.{Complete, NextCorner};
ghost use Rattle.chart.specs.Ready.{Ready};
ghost use Rattle.chart.specs.Records.{grammar_of, words_with, used_of};
ghost use Rattle.chart.specs.Kept.{Kept, Recorded, Crowded};
ghost use Rattle.chart.specs.Sifting.{SplitAt, Sifted};
ghost use Rattle.chart.specs.Starts.{has_start};
ghost use Rattle.chart.specs.Boards.{at_place};

use super::boards::{Board, Full};
use super::items::Item;
use super::presses::Press;
use super::records::Record;
use super::starts::StartSet;
use rulebook::{Book, SymbolSet};

impl Press<'_, '_> {
    // The left corners of the next symbol of an item, if it is unfinished.
    fn next_corners(&self, item: &Item) -> SymbolSet
        requires ready { Ready self.now.settled.now self.now.word }
        requires numbered { Numbered (grammar_of self.now.settled.now) item.now.rule }
        ensures { (Y : ℕ) → IsTrue (has result Y) ↔ NextCorner (grammar_of self.now.settled.now) item.now Y }
    {
        if item.done >= self.settled.book.size(item.rule) {
            return SymbolSet::EMPTY;
        }
        let next = self.settled.book.symbol(item.rule, item.done);
        self.settled.index.corners(next)
    }

    // The symbols that may start after the new word.
    fn gather(&self, board: &Board) -> SymbolSet
        requires ready { Ready self.now.settled.now self.now.word }
        requires complete { Complete self.now.settled.now self.now.word board.now }
        ensures { (Y : ℕ) → IsTrue (has result Y) ↔ Wanted (grammar_of self.now.settled.now) (words_with self.now.settled.now self.now.word) (suc self.now.settled.now.held) Y }
    {
        let mut wanted = SymbolSet::EMPTY;
        for at in self.settled.used()..board.top {
            wanted = wanted.union(&self.next_corners(&board.item(at)));
        }
        wanted
    }

    // Moves an unfinished item in front of the finished ones before it; says where these begin then.
    fn sift_item(&self, board: &mut Board, at: usize, waiting: usize) -> usize
        requires complete { Complete self.now.settled.now self.now.word board.old }
        requires ready { Ready self.now.settled.now self.now.word }
        requires split { SplitAt (grammar_of self.now.settled.now) board.old (used_of self.now.settled.now) waiting at }
        requires inside { at < board.old.top }
        ensures { let s = self.now.settled.now in Sifted s self.now.word board.old board.new result (suc at) }
    {
        let item = board.item(at);
        if item.done == self.settled.book.size(item.rule) {
            return waiting;
        }
        board.swap(waiting, at);
        waiting + 1
    }

    // Puts the unfinished items of the new column in front; says where the finished ones begin.
    fn sift(&self, board: &mut Board) -> usize
        requires complete { Complete self.now.settled.now self.now.word board.old }
        requires ready { Ready self.now.settled.now self.now.word }
        ensures { let s = self.now.settled.now in Sifted s self.now.word board.old board.new result board.old.top }
    {
        let from = self.settled.used();
        let mut waiting = from;
        for at in from..board.top {
            waiting = self.sift_item(board, at, waiting);
        }
        waiting
    }

    // The starts of the new column's items before a place.
    fn starts(&self, board: &Board, waiting: usize) -> StartSet
        requires ready { Ready self.now.settled.now self.now.word }
        requires complete { Complete self.now.settled.now self.now.word board.now }
        requires inside { waiting ≤ board.now.top }
        ensures { (q : ℕ) → used_of self.now.settled.now ≤ q → q < waiting → has_start result (at_place board.now q).start ≡ true }
    {
        let mut starts = StartSet::EMPTY;
        for at in self.settled.used()..waiting {
            starts = starts.with(board.item(at).start);
        }
        starts
    }

    // The record of the new word, once its column is filled.
    fn settle(&self, board: &mut Board) -> Record
        requires ready { Ready self.now.settled.now self.now.word }
        requires complete { Complete self.now.settled.now self.now.word board.old }
        ensures { Recorded self.now.settled.now self.now.word board.old board.new result }
    {
        let wanted = self.gather(board);
        let waiting = self.sift(board);
        Record {
            word: self.word,
            wanted,
            starts: self.starts(board, waiting),
            from: self.settled.used(),
            waiting,
            past: board.top,
        }
    }

    // Fills the column of the new word, and tells its record.
    pub(super) fn fill(&self, board: &mut Board) -> Result<Record, Full>
        requires ready { Ready self.now.settled.now self.now.word }
        requires kept { Kept self.now.settled.now board.old }
        ensures { let s = self.now.settled.now in let w = self.now.word in MatchResult result (Recorded s w board.old board.new) (λ _. Crowded s w board.old board.new) }
    {
        board.unmark();
        self.keys(board)?;
        self.follow(board)?;
        Ok(self.settle(board))
    }
}
