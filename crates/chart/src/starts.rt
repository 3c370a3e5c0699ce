// Sets of starts: after how many words an item begins.
ghost use Rattle.std.specs.Prelude.{◌≡◌, ℕ, ◌<◌, true, ◌||◌, ◌==◌};
ghost use Rattle.chart.specs.Starts.{has_start};

// Starts from 0 to 99 as a mask: start i stands at bit i.
#[derive(Clone, Copy)]
pub(super) struct StartSet {
    mask: u128,
}

impl StartSet {
    // no start
    pub(super) const EMPTY: StartSet = StartSet { mask: 0 };

    pub(super) fn contains(&self, start: u16) -> bool
        requires { start < 100 }
        ensures { result ≡ has_start self.now start }
    {
        (self.mask >> start) % 2 == 1
    }

    // The set with one start more.
    pub(super) fn with(&self, start: u16) -> StartSet
        requires { start < 100 }
        ensures { (i : ℕ) → has_start result i ≡ (start == i || has_start self.now i) }
    {
        StartSet {
            mask: self.mask | 1 << start,
        }
    }

    // Whether the other set has every start of this one.
    pub(super) fn within(&self, other: &StartSet) -> bool
        ensures { result ≡ true → (i : ℕ) → has_start self.now i ≡ true → has_start other.now i ≡ true }
    {
        self.mask | other.mask == other.mask
    }
}
