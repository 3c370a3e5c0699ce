// The places of the chart, and the marks by which its last column is filled.
ghost use Rattle.std.specs.Prelude.{◌≤◌, vec_len};

use super::items::Item;
use super::marks::Marks;

// The most places of a chart that are used.
const MOST_PLACES: usize = 60000;

// No place is left for an item.
#[derive(Clone, Copy, Debug)]
pub(super) struct Full;

// The chart with the items in use in front, and which of them end at the word that is being pressed.
#[derive(Drop)]
pub(super) struct Board {
    // its length never changes
    pub(super) chart: Vec<Item>,
    // how many of its places may be used
    pub(super) limit: usize,
    // how many are in use
    pub(super) top: usize,
    pub(super) marks: Marks,
    ghost used: { top ≤ limit },
    ghost lent: { limit ≤ vec_len chart },
}

impl Board {
    ghost use Rattle.std.specs.Prelude.{◌≡◌, ◌-◌, ◌<◌, ◌≤◌, MatchResult, take, drop};
    ghost use Rattle.chart.specs.Marks.{Small};
    ghost use Rattle.chart.specs.Boards.{Cut, Entered, Fresh, NoPlace, Swapped, Unmarked, at_place};

    // A chart of which no place is in use: those that may be used are blank.
    pub(super) fn over(chart: Vec<Item>) -> Board
        ensures { Fresh chart.items result }
    {
        // As if all were in use, and are no longer.
        let limit = chart.len().min(MOST_PLACES);
        let mut board = Board {
            chart,
            limit,
            top: limit,
            marks: Marks::NONE,
        };
        board.cut(0);
        board
    }

    // The item at a place in use.
    pub(super) fn item(&self, place: usize) -> Item
        requires { place < self.now.top }
        ensures { result ≡ at_place self.now place }
    {
        self.chart[place]
    }

    // The items at the places in use from one to before another.
    pub(super) fn items(&self, from: usize, past: usize) -> &[Item]
        requires order { from ≤ past }
        requires inside { past ≤ self.now.top }
        ensures { result.now ≡ take (past - from) (drop from self.now.chart.items) }
    {
        &self.chart[from..past]
    }

    // Blanks the places in use from one on: they are in use no longer.
    pub(super) fn cut(&mut self, from: usize)
        requires { from ≤ self.old.top }
        ensures { Cut self.old self.new from }
    {
        self.chart[from..self.top].fill(Item::BLANK);
        self.top = from;
    }

    // Takes off all marks.
    pub(super) fn unmark(&mut self)
        ensures { Unmarked self.old self.new }
    {
        self.marks.clear();
    }

    // Changes over the items at two places in use.
    pub(super) fn swap(&mut self, one: usize, other: usize)
        requires one { one < self.old.top }
        requires other { other < self.old.top }
        ensures { Swapped self.old self.new one other }
    {
        let item = self.chart[one];
        self.chart[one] = self.chart[other];
        self.chart[other] = item;
    }

    // Enters an item, unless it stands there already; refused, and nothing changed, where no place is left.
    pub(super) fn enter(&mut self, item: Item) -> Result<(), Full>
        requires { Small item.rule item.done item.start }
        ensures { MatchResult result (λ _. Entered self.old self.new item) (λ _. (self.new ≡ self.old) × NoPlace self.old item) }
    {
        if self.marks.contains(&item) {
            return Ok(());
        }
        if self.top == self.limit {
            return Err(Full);
        }
        self.marks.add(&item);
        self.chart[self.top] = item;
        self.top += 1;
        Ok(())
    }
}
