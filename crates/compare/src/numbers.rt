// Numbers that look random and are the same in every run.

// Makes one number after the other from a state.
#[derive(Drop)]
pub struct Numbers {
    state: u64,
}

impl Numbers {
    pub fn from_state(state: u64) -> Numbers {
        Numbers { state }
    }

    // The next number: the state moves on by a fixed odd step, and its bits are mixed.
    fn next(&mut self) -> u64 {
        self.state = self.state.wrapping_add(0x9e37_79b9_7f4a_7c15);
        let mixed = (self.state ^ self.state >> 30).wrapping_mul(0xbf58_476d_1ce4_e5b9);
        let mixed = (mixed ^ mixed >> 27).wrapping_mul(0x94d0_49bb_1331_11eb);
        mixed ^ mixed >> 31
    }

    // A number from 0 up to, but not, the bound; 0 where the bound is 0.
    pub fn below(&mut self, bound: u16) -> u16 {
        let rest = (self.next() >> 32).checked_rem(u64::from(bound));
        u16::try_from(rest.unwrap_or(0)).unwrap_or(0)
    }

    // A number from the low one to the high one, both included.
    pub fn between(&mut self, low: u16, high: u16) -> u16 {
        let choices = high.saturating_sub(low).saturating_add(1);
        low.saturating_add(self.below(choices))
    }

    // Yes in one case of so many.
    pub fn one_in(&mut self, many: u16) -> bool {
        self.below(many) == 0
    }
}
