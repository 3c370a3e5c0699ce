// A word is pressed: the column of the items that end at it is filled.
ghost use Rattle.std.specs.Prelude.{◌≡◌, ℕ, suc, ◌+◌, ◌<◌, ◌≤◌, true, MatchResult};
ghost use Rattle.language.specs.Book.{Numbered, symbol as symbol_of};
ghost use Rattle.chart.specs.Boards.{at_place};
ghost use Rattle.chart.specs.Filling.{SpansHere, Filling, Filled, Overfull, RuleBegun, AllBegun, ItemAdvanced, AdvancedAt, AllAdvanced, SpanDone};
ghost use Rattle.chart.specs.Ready.{Ready};
ghost use Rattle.chart.specs.Records.{grammar_of, record_of};

use super::boards::{Board, Full};
use super::items::Item;
use super::presses::{Press, Span};
use super::starts::StartSet;
use rulebook::Book;

impl Press<'_, '_> {
    // The number of the word that is being pressed.
    pub(super) fn end(&self) -> u16
        ensures { result ≡ suc self.now.settled.now.held }
    {
        self.settled.held + 1
    }

    // Begins a rule whose first symbol spans, if its left side may start there.
    fn begin_rule(&self, board: &mut Board, rule: u16, span: Span) -> Result<(), Full>
        requires ready { Ready self.now.settled.now self.now.word }
        requires filling { Filling self.now.settled.now self.now.word board.old }
        requires spans { SpansHere self.now.settled.now self.now.word span.symbol span.start }
        requires numbered { Numbered (grammar_of self.now.settled.now) rule }
        requires first { symbol_of (grammar_of self.now.settled.now) rule 0 ≡ span.symbol }
        ensures { let s = self.now.settled.now in let w = self.now.word in MatchResult result (λ _. Filled s w board.old board.new × RuleBegun s w board.new rule span.start) (λ _. Overfull s w board.old board.new) }
    {
        if !self
            .settled
            .wanted(span.start)
            .contains(self.settled.book.left(rule))
        {
            return Ok(());
        }
        board.enter(Item {
            rule,
            done: 1,
            start: span.start,
            end: self.end(),
        })
    }

    // Begins every rule whose first symbol spans, where its left side may start there.
    fn begin_all(&self, board: &mut Board, span: Span) -> Result<(), Full>
        requires ready { Ready self.now.settled.now self.now.word }
        requires filling { Filling self.now.settled.now self.now.word board.old }
        requires spans { SpansHere self.now.settled.now self.now.word span.symbol span.start }
        ensures { let s = self.now.settled.now in let w = self.now.word in MatchResult result (λ _. Filled s w board.old board.new × AllBegun s w board.new span.symbol span.start) (λ _. Overfull s w board.old board.new) }
    {
        let mut rule = self.settled.index.last(0, span.symbol);
        while rule != 0 {
            self.begin_rule(board, rule, span)?;
            rule = self.settled.index.before(0, rule);
        }
        Ok(())
    }

    // Advances an item that waits after a word, if the symbol that spans from there is its next.
    fn advance_item(&self, board: &mut Board, at: usize, span: Span) -> Result<(), Full>
        requires ready { Ready self.now.settled.now self.now.word }
        requires filling { Filling self.now.settled.now self.now.word board.old }
        requires spans { SpansHere self.now.settled.now self.now.word span.symbol span.start }
        requires some { 1 ≤ span.start }
        requires from { (record_of self.now.settled.now span.start).from ≤ at }
        requires waiting { at < (record_of self.now.settled.now span.start).waiting }
        ensures { let s = self.now.settled.now in let w = self.now.word in MatchResult result (λ _. Filled s w board.old board.new × ItemAdvanced s w board.new (at_place board.old at) span.symbol) (λ _. Overfull s w board.old board.new) }
    {
        let item = board.item(at);
        if self.settled.book.symbol(item.rule, item.done) != span.symbol {
            return Ok(());
        }
        board.enter(Item {
            rule: item.rule,
            done: item.done + 1,
            start: item.start,
            end: self.end(),
        })
    }

    // Whether all rules with a symbol at a place are advanced past it already, for all of some starts.
    fn is_advanced_at(&self, board: &Board, at: u16, symbol: u16, starts: &StartSet) -> bool
        requires ready { Ready self.now.settled.now self.now.word }
        requires place { at < 6 }
        requires symbol { symbol ≤ 64 }
        ensures { result ≡ true → AdvancedAt self.now.settled.now self.now.word board.now symbol starts.now at }
    {
        let mut rule = self.settled.index.last(at, symbol);
        while rule != 0 {
            if !board.marks.cover(rule, at + 1, starts) {
                return false;
            }
            rule = self.settled.index.before(at, rule);
        }
        true
    }

    // The same for every place but the first.
    fn is_advanced(&self, board: &Board, symbol: u16, starts: &StartSet) -> bool
        requires ready { Ready self.now.settled.now self.now.word }
        requires symbol { symbol ≤ 64 }
        ensures { result ≡ true → (d : ℕ) → 1 ≤ d → d < 6 → AdvancedAt self.now.settled.now self.now.word board.now symbol starts.now d }
    {
        for at in 1..6 {
            if !self.is_advanced_at(board, at, symbol, starts) {
                return false;
            }
        }
        true
    }

    // Advances every item that waits for the symbol that spans.
    fn advance_all(&self, board: &mut Board, span: Span) -> Result<(), Full>
        requires ready { Ready self.now.settled.now self.now.word }
        requires filling { Filling self.now.settled.now self.now.word board.old }
        requires spans { SpansHere self.now.settled.now self.now.word span.symbol span.start }
        ensures { let s = self.now.settled.now in let w = self.now.word in MatchResult result (λ _. Filled s w board.old board.new × AllAdvanced s w board.new span.symbol span.start) (λ _. Overfull s w board.old board.new) }
    {
        let Some(last) = span.start.checked_sub(1) else {
            return Ok(());
        };
        let record = &self.settled.records[usize::from(last)];
        // In a book with many readings most spans add nothing, and this spares a look at each item that waits.
        if self.is_advanced(board, span.symbol, &record.starts) {
            return Ok(());
        }
        for at in record.from..record.waiting {
            self.advance_item(board, at, span)?;
        }
        Ok(())
    }

    // Enters all that follows from a symbol that spans.
    pub(super) fn span(&self, board: &mut Board, span: Span) -> Result<(), Full>
        requires ready { Ready self.now.settled.now self.now.word }
        requires filling { Filling self.now.settled.now self.now.word board.old }
        requires spans { SpansHere self.now.settled.now self.now.word span.symbol span.start }
        ensures { let s = self.now.settled.now in let w = self.now.word in MatchResult result (λ _. Filled s w board.old board.new × SpanDone s w board.new span.symbol span.start) (λ _. Overfull s w board.old board.new) }
    {
        self.begin_all(board, span)?;
        self.advance_all(board, span)
    }
}
