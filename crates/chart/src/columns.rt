// The column of a word: all that follows from the keys that it matches, and what may start after it.
ghost use Rattle.std.specs.Prelude.{◌≡◌, ℕ, suc, ◌+◌, ◌<◌, ◌≤◌, true, MatchResult, IsTrue, ◌↔◌};
ghost use Rattle.language.specs.Book.{Key, Numbered};
ghost use Rattle.language.specs.Chart.{Wanted};
ghost use Rattle.rulebook.specs.Sets.{has};
ghost use Rattle.chart.specs.Boards.{at_place};
ghost use Rattle.chart.specs.Filling.{Filling, Filled, Overfull, KeyDone, KeysDone, PartsDone, FollowedUp, AllStand, Complete};
ghost use Rattle.chart.specs.Ready.{Ready};
ghost use Rattle.chart.specs.Records.{grammar_of, words_with, used_of};

use super::boards::{Board, Full};
use super::marks::Parts;
use super::presses::{Press, Span};
use super::records::Record;
use rulebook::{Book, SymbolSet};

impl Press<'_, '_> {
    // Enters all that follows from a key, if the new word matches it.
    fn key(&self, board: &mut Board, key: u16) -> Result<(), Full>
        requires ready { Ready self.now.settled.now self.now.word }
        requires filling { Filling self.now.settled.now self.now.word board.old }
        requires key { Key (grammar_of self.now.settled.now) key }
        ensures { let s = self.now.settled.now in let w = self.now.word in MatchResult result (λ _. Filled s w board.old board.new × KeyDone s w board.new key) (λ _. Overfull s w board.old board.new) }
    {
        if !self.word.keys().contains(key) {
            return Ok(());
        }
        self.span(
            board,
            Span {
                symbol: key,
                start: self.settled.held,
            },
        )
    }

    // Enters all that follows from the keys that the new word matches.
    pub(super) fn keys(&self, board: &mut Board) -> Result<(), Full>
        requires ready { Ready self.now.settled.now self.now.word }
        requires filling { Filling self.now.settled.now self.now.word board.old }
        ensures { let s = self.now.settled.now in let w = self.now.word in MatchResult result (λ _. Filled s w board.old board.new × KeysDone s w board.new) (λ _. Overfull s w board.old board.new) }
    {
        for place in 0..self.settled.book.keys() {
            self.key(board, 33 + place)?;
        }
        Ok(())
    }

    // Enters all that follows from the item at a place of the new column: if it is finished, its left side spans.
    fn follow_item(&self, board: &mut Board, parts: &mut Parts, at: usize) -> Result<(), Full>
        requires ready { Ready self.now.settled.now self.now.word }
        requires filling { Filling self.now.settled.now self.now.word board.old }
        requires done { PartsDone self.now.settled.now self.now.word board.old parts.old }
        requires from { used_of self.now.settled.now ≤ at }
        requires inside { at < board.old.top }
        ensures { let s = self.now.settled.now in let w = self.now.word in MatchResult result (λ _. Filled s w board.old board.new × FollowedUp s w board.new parts.old parts.new (at_place board.old at)) (λ _. Overfull s w board.old board.new) }
    {
        let item = board.item(at);
        if item.done != self.settled.book.size(item.rule) {
            return Ok(());
        }
        let part = self.settled.book.left(item.rule);
        if parts.contains(part, item.start) {
            return Ok(());
        }
        self.span(
            board,
            Span {
                symbol: part,
                start: item.start,
            },
        )?;
        parts.add(part, item.start);
        Ok(())
    }

    // Enters all that follows from the items of the new column, which grows meanwhile.
    pub(super) fn follow(&self, board: &mut Board) -> Result<(), Full>
        requires ready { Ready self.now.settled.now self.now.word }
        requires filling { Filling self.now.settled.now self.now.word board.old }
        requires keys { KeysDone self.now.settled.now self.now.word board.old }
        ensures { let s = self.now.settled.now in let w = self.now.word in MatchResult result (λ _. Filled s w board.old board.new × AllStand s w board.new) (λ _. Overfull s w board.old board.new) }
    {
        let mut parts = Parts::NONE;
        let mut at = self.settled.used();
        while at < board.top {
            self.follow_item(board, &mut parts, at)?;
            at += 1;
        }
        Ok(())
    }
}
