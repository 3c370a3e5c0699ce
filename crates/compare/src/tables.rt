// The tables of the recogniser: where each symbol may start and end in a row of words.
use super::sets::SmallSet;

// The places in a row of up to 12 words: before the first word, and behind each word.
const PLACES: usize = 13;

// One more than the highest number of a symbol.
const SYMBOLS: usize = 65;

#[derive(Drop)]
pub struct Tables {
    // by symbol and the place where it starts: the places where it may end
    ends: [[SmallSet; PLACES]; SYMBOLS],
    // by symbol: the places where it may start in a programme that begins with the words in front
    starts: [SmallSet; SYMBOLS],
}

impl Tables {
    pub fn empty() -> Tables {
        Tables {
            ends: [[SmallSet::EMPTY; PLACES]; SYMBOLS],
            starts: [SmallSet::EMPTY; SYMBOLS],
        }
    }

    // The places where a symbol that starts at this place may end.
    pub fn ends_of(&self, symbol: u16, start: usize) -> SmallSet {
        let rows = self.ends.get(usize::from(symbol));
        rows.and_then(|row| row.get(start))
            .map_or(SmallSet::EMPTY, |ends| *ends)
    }

    // The places where a symbol may start.
    pub fn starts_of(&self, symbol: u16) -> SmallSet {
        self.starts
            .get(usize::from(symbol))
            .map_or(SmallSet::EMPTY, |starts| *starts)
    }

    // Notes where a symbol that starts at this place may end, and answers whether that is new.
    pub fn add_ends(&mut self, symbol: u16, start: usize, ends: SmallSet) -> bool {
        let row = self.ends.get_mut(usize::from(symbol));
        match row.and_then(|row| row.get_mut(start)) {
            Some(cell) => cell.add(ends),
            None => false,
        }
    }

    // Notes where a symbol may start, and answers whether that is new.
    pub fn add_starts(&mut self, symbol: u16, starts: SmallSet) -> bool {
        match self.starts.get_mut(usize::from(symbol)) {
            Some(cell) => cell.add(starts),
            None => false,
        }
    }
}
