// Small sets of small numbers.

// The numbers that a set can hold are below this.
const BOUND: usize = 32;

// A set of numbers below 32, as a mask: each stands at its own bit.
#[derive(Clone, Copy, PartialEq, Eq)]
pub struct SmallSet {
    mask: u32,
}

impl SmallSet {
    pub const EMPTY: SmallSet = SmallSet { mask: 0 };

    // The set of one number, or the empty set where the number is too large.
    pub fn only(number: usize) -> SmallSet {
        SmallSet {
            mask: if number < BOUND { 1 << number } else { 0 },
        }
    }

    pub fn contains(self, number: usize) -> bool {
        number < BOUND && (self.mask >> number) % 2 == 1
    }

    pub fn union(self, other: SmallSet) -> SmallSet {
        SmallSet {
            mask: self.mask | other.mask,
        }
    }

    // Adds numbers, and answers whether any of them is new.
    pub fn add(&mut self, more: SmallSet) -> bool {
        let before = *self;
        *self = before.union(more);
        *self != before
    }
}
