// Which items stand in the column that is being filled, so that none is entered twice and no column is searched.
ghost use Rattle.std.specs.Prelude.{ℕ, ◌≤◌};
ghost use Rattle.chart.specs.Rows.{row_at};

use super::items::Item;
use super::starts::StartSet;
use rulebook::SymbolSet;

// The starts of the marked items of one rule with one number of symbols done.
#[derive(Clone, Copy)]
struct Row {
    // in which press they were marked; in a later one they are marked no longer
    press: u64,
    starts: StartSet,
}

impl Row {
    // no item
    const BLANK: Row = Row {
        press: 0,
        starts: StartSet::EMPTY,
    };
}

// The marked items, a row for each rule and number of symbols done.
#[derive(Clone, Copy)]
pub(super) struct Marks {
    rows: [Row; 768],
    // counts the presses, so that no row has to be blanked
    press: u64,
    ghost past: { (k : ℕ) → (row_at rows k).press ≤ press },
}

impl Marks {
    ghost use Rattle.std.specs.Prelude.{◌≡◌, ℕ, ◌-◌, ◌+◌, ◌*◌, ◌<◌, true, false, ◌||◌};
    ghost use Rattle.chart.specs.Starts.{has_start};
    ghost use Rattle.chart.specs.Marks.{Small, marked, is_item, starts_in};

    // no item
    pub(super) const NONE: Marks = Marks {
        rows: [Row::BLANK; 768],
        press: 0,
    };

    // The row of the items of a rule with that many symbols done.
    fn row_of(rule: u16, done: u16) -> usize
        requires { Small rule done 0 }
        ensures { result ≡ 6 * (rule - 1) + (done - 1) }
    {
        6 * usize::from(rule - 1) + usize::from(done - 1)
    }

    // The starts of the items of a row that are marked.
    fn starts(&self, row: usize) -> StartSet
        requires { row < 768 }
        ensures { result ≡ starts_in self.now row }
    {
        let row = self.rows[row];
        if row.press == self.press {
            row.starts
        } else {
            StartSet::EMPTY
        }
    }

    // Whether an item is marked, whatever its end.
    pub(super) fn contains(&self, item: &Item) -> bool
        requires { Small item.now.rule item.now.done item.now.start }
        ensures { result ≡ marked self.now item.now.rule item.now.done item.now.start }
    {
        self.starts(Marks::row_of(item.rule, item.done))
            .contains(item.start)
    }

    // Whether all items of a rule with that many symbols done and those starts are marked.
    pub(super) fn cover(&self, rule: u16, done: u16, starts: &StartSet) -> bool
        requires { Small rule done 0 }
        ensures { result ≡ true → (i : ℕ) → has_start starts.now i ≡ true → marked self.now rule done i ≡ true }
    {
        starts.within(&self.starts(Marks::row_of(rule, done)))
    }

    // Marks an item.
    pub(super) fn add(&mut self, item: &Item)
        requires { Small item.now.rule item.now.done item.now.start }
        ensures { (r d i : ℕ) → Small r d i → marked self.new r d i ≡ (is_item item.now r d i || marked self.old r d i) }
    {
        let row = Marks::row_of(item.rule, item.done);
        self.rows[row] = Row {
            press: self.press,
            starts: self.starts(row).with(item.start),
        };
    }

    // Takes off all marks: the rows of earlier presses count no longer, and are blanked only where the count is at its end.
    pub(super) fn clear(&mut self)
        ensures { (r d i : ℕ) → marked self.new r d i ≡ false }
    {
        match self.press.checked_add(1) {
            Some(press) => self.press = press,
            None => *self = Marks::NONE,
        }
    }
}

// The parts that are known to span to the new word, by start.
#[derive(Clone, Copy)]
pub(super) struct Parts {
    sets: [SymbolSet; 100],
}

impl Parts {
    ghost use Rattle.std.specs.Prelude.{◌≡◌, ℕ, ◌<◌, ◌||◌};
    ghost use Rattle.rulebook.specs.Sets.{has, is_symbol};
    ghost use Rattle.chart.specs.Marks.{parts_at};

    // no part
    pub(super) const NONE: Parts = Parts {
        sets: [SymbolSet::EMPTY; 100],
    };

    pub(super) fn contains(&self, part: u16, start: u16) -> bool
        requires { start < 100 }
        ensures { result ≡ has (parts_at self.now start) part }
    {
        self.sets[usize::from(start)].contains(part)
    }

    // One part more.
    pub(super) fn add(&mut self, part: u16, start: u16)
        requires { start < 100 }
        ensures here { (X : ℕ) → has (parts_at self.new start) X ≡ (is_symbol part X || has (parts_at self.old start) X) }
        ensures others { (i : ℕ) → (i ≡ start → ⊥) → parts_at self.new i ≡ parts_at self.old i }
    {
        let place = usize::from(start);
        self.sets[place] = self.sets[place].with(part);
    }
}
