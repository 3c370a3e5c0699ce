// A recogniser by tables that are filled from the rules, bottom up and then top down, as long as anything is added. It
// shares nothing with the chart: it is slow, keeps nothing from one row of words to the next, and is meant to be plain.
use super::books::{FIRST_KEY, Made, Rule};
use super::sets::SmallSet;
use super::tables::Tables;
use rulebook::SymbolSet;
use std::alloc::{AllocError, Global};
use wording::{Matched, Word};

// The most words of a row.
pub const MOST_WORDS: usize = 12;

// More passes than there are: each but the last adds a place to a set.
const MOST_PASSES: usize = 20_000;

// An item: the word at which the symbols done end, after how many words it starts, the rule, and how many symbols are done.
pub type Listed = (usize, usize, usize, usize);

// Symbols of a rule that are done, wherever they end.
#[derive(Clone, Copy)]
struct Begun {
    start: usize,
    rule: usize,
    done: usize,
}

// What is known of a row of words.
#[derive(Drop)]
pub struct Known<'m> {
    made: &'m Made,
    // how many words there are
    words: usize,
    tables: Tables,
}

impl<'m> Known<'m> {
    pub fn rules(&self) -> &'m [Rule] {
        self.made.rules.as_slice()
    }

    pub fn start(&self) -> u16 {
        self.made.start
    }

    pub fn words(&self) -> usize {
        self.words
    }

    // The places where a symbol may end that starts at one of these.
    fn behind(&self, symbol: u16, starts: SmallSet) -> SmallSet {
        let mut ends = SmallSet::EMPTY;
        for start in 0..self.words {
            if starts.contains(start) {
                ends = ends.union(self.tables.ends_of(symbol, start));
            }
        }
        ends
    }

    // The places where the first so many symbols may end, one behind the other, which begin at this place.
    pub fn behind_first(&self, symbols: &[u16], many: usize, start: usize) -> SmallSet {
        let mut ends = SmallSet::only(start);
        for symbol in symbols.iter().take(many) {
            ends = self.behind(*symbol, ends);
        }
        ends
    }

    // The same for all symbols.
    pub fn behind_all(&self, symbols: &[u16], start: usize) -> SmallSet {
        self.behind_first(symbols, symbols.len(), start)
    }

    // Notes over which words a key spans.
    fn read_key(&mut self, key: u16, words: &[Matched]) {
        for (place, word) in words.iter().enumerate() {
            if word.matches(key) {
                self.tables.add_ends(key, place, SmallSet::only(place + 1));
            }
        }
    }

    fn read_keys(&mut self, words: &[Matched]) {
        for key in FIRST_KEY..=self.made.last_key() {
            self.read_key(key, words);
        }
    }

    // Notes where the left side of a rule may end by it.
    fn span_by(&mut self, rule: &Rule) -> bool {
        let mut new = false;
        for start in 0..self.words {
            let ends = self.behind_all(rule.body.as_slice(), start);
            new |= self.tables.add_ends(rule.left, start, ends);
        }
        new
    }

    // One pass over the rules, from the right sides to the left ones.
    fn span_once(&mut self) -> bool {
        let mut new = false;
        for rule in &self.made.rules {
            new |= self.span_by(rule);
        }
        new
    }

    fn span_all(&mut self) {
        for _ in 0..MOST_PASSES {
            if !self.span_once() {
                break;
            }
        }
    }

    // Notes where the symbols of a rule may start by it.
    fn start_by(&mut self, rule: &Rule) -> bool {
        let mut places = self.tables.starts_of(rule.left);
        let mut new = false;
        for symbol in &rule.body {
            new |= self.tables.add_starts(*symbol, places);
            places = self.behind(*symbol, places);
        }
        new
    }

    // One pass over the rules, from the left sides to the right ones.
    fn start_once(&mut self) -> bool {
        let mut new = false;
        for rule in &self.made.rules {
            new |= self.start_by(rule);
        }
        new
    }

    fn start_all(&mut self) {
        for _ in 0..MOST_PASSES {
            if !self.start_once() {
                break;
            }
        }
    }

    // Lists an item for each of these ends.
    fn list_ends(
        &self,
        part: Begun,
        ends: SmallSet,
        items: &mut Vec<Listed>,
    ) -> Result<(), AllocError> {
        for end in 0..=self.words {
            if ends.contains(end) {
                items.push((end, part.start, part.rule, part.done))?;
            }
        }
        Ok(())
    }

    // Lists the items of a rule that starts at this place.
    fn list_rule(
        &self,
        rule: usize,
        body: &[u16],
        start: usize,
        items: &mut Vec<Listed>,
    ) -> Result<(), AllocError> {
        let mut ends = SmallSet::only(start);
        for (place, symbol) in body.iter().enumerate() {
            ends = self.behind(*symbol, ends);
            self.list_ends(
                Begun {
                    start,
                    rule,
                    done: place + 1,
                },
                ends,
                items,
            )?;
        }
        Ok(())
    }

    // Lists the items that start at this place.
    fn list_start(&self, start: usize, items: &mut Vec<Listed>) -> Result<(), AllocError> {
        for (place, rule) in self.made.rules.iter().enumerate() {
            if self.tables.starts_of(rule.left).contains(start) {
                self.list_rule(place + 1, rule.body.as_slice(), start, items)?;
            }
        }
        Ok(())
    }

    // The items over the words, each once.
    pub fn items(&self, heap: Global) -> Result<Vec<Listed>, AllocError> {
        let mut items = Vec::new(heap);
        for start in 0..self.words {
            self.list_start(start, &mut items)?;
        }
        Ok(items)
    }

    // Whether some programme begins with the words and then has this key.
    fn is_lit(&self, key: u16) -> bool {
        self.tables.starts_of(key).contains(self.words)
    }

    // The keys that may come next.
    pub fn lit(&self) -> SymbolSet {
        let mut lit = SymbolSet::empty();
        for key in FIRST_KEY..=self.made.last_key() {
            if self.is_lit(key) {
                lit = lit.with(key);
            }
        }
        lit
    }

    // Whether a word matches a key that may come next.
    pub fn takes(&self, word: &Matched) -> bool {
        (FIRST_KEY..=self.made.last_key()).any(|key| word.matches(key) && self.is_lit(key))
    }

    // Whether a symbol spans from one place to another.
    pub fn spans(&self, symbol: u16, start: usize, end: usize) -> bool {
        self.tables.ends_of(symbol, start).contains(end)
    }

    // Whether the words are a programme.
    pub fn is_whole(&self) -> bool {
        self.spans(self.made.start, 0, self.words)
    }
}

// What is known of a row of words by the rules of a book.
pub fn recognise<'m>(made: &'m Made, words: &[Matched]) -> Known<'m> {
    let mut known = Known {
        made,
        words: words.len(),
        tables: Tables::empty(),
    };
    known.read_keys(words);
    known.span_all();
    known.tables.add_starts(made.start, SmallSet::only(0));
    known.start_all();
    known
}
