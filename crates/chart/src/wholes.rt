// Whether the words held are a programme.
ghost use Rattle.std.specs.Prelude.{◌≡◌, ℕ, ◌<◌, ◌≤◌, IsTrue, ◌↔◌};
ghost use Rattle.language.specs.Chart.{Whole};
ghost use Rattle.chart.specs.Kept.{Kept};
ghost use Rattle.chart.specs.Records.{grammar_of, words_of};

use super::boards::Board;
use super::records::Settled;
use rulebook::Book;

impl Settled<'_> {
    // Whether a finished item of the start part spans all words held.
    pub(super) fn is_whole(&self, board: &Board) -> bool
        requires { Kept self.now board.now }
        ensures { IsTrue result ↔ Whole (grammar_of self.now) (words_of self.now) }
    {
        let Some(last) = self.held.checked_sub(1) else {
            return false;
        };
        let record = self.records[usize::from(last)];
        for at in record.waiting..record.past {
            let item = board.item(at);
            if item.start == 0 && self.book.left(item.rule) == self.book.start() {
                return true;
            }
        }
        false
    }
}
