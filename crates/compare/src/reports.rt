// What is counted, and what is told of answers that differ.
use super::books::Made;
use std::alloc::{AllocError, Global};
use std::fmt;
use wording::{Matched, Word};

// The most differences that are told.
const MOST_TOLD: u32 = 10;

// What is compared, in the order of the tallies. Calls are told apart by what they must answer.
#[derive(Clone, Copy)]
pub enum Kind {
    // a book that the check must take, or refuse
    Sound,
    Unsound,
    // a press or a rub out that must be taken
    Taken,
    RubbedOut,
    // a press or a rub out that must be refused
    Dark,
    ChartFull,
    NothingHeld,
    // how many items a call answers that is taken
    Items,
    // the lit keys
    Lit,
    // whether the words are a programme
    Whole,
    // the reading of a programme: the moves, and that replay accepts them
    Read,
    Replayed,
    // the depth that comes with it
    Depth,
    // the same reading with a strip that is one byte too short: refused
    StripShort,
    // the reading of other words: refused
    NotRead,
    // the items in the chart, one by one
    Chart,
}

impl Kind {
    // all kinds, in the order of the tallies
    const ALL: [Kind; 16] = [
        Kind::Sound,
        Kind::Unsound,
        Kind::Taken,
        Kind::RubbedOut,
        Kind::Dark,
        Kind::ChartFull,
        Kind::NothingHeld,
        Kind::Items,
        Kind::Lit,
        Kind::Whole,
        Kind::Read,
        Kind::Replayed,
        Kind::Depth,
        Kind::StripShort,
        Kind::NotRead,
        Kind::Chart,
    ];
}

impl fmt::Display for Kind {
    fn fmt<W: fmt::Write>(&self, f: &mut fmt::Formatter<W>) -> fmt::Result {
        match self {
            Kind::Sound => write!(f, "books found sound"),
            Kind::Unsound => write!(f, "books refused as unsound"),
            Kind::Taken => write!(f, "words taken"),
            Kind::RubbedOut => write!(f, "words rubbed out"),
            Kind::Dark => write!(f, "words refused as dark"),
            Kind::ChartFull => write!(f, "words refused for want of places"),
            Kind::NothingHeld => write!(f, "rub outs refused"),
            Kind::Items => write!(f, "numbers of items"),
            Kind::Lit => write!(f, "sets of lit keys"),
            Kind::Whole => write!(f, "whole or short"),
            Kind::Read => write!(f, "readings written"),
            Kind::Replayed => write!(f, "readings replayed"),
            Kind::Depth => write!(f, "depths within their bounds"),
            Kind::StripShort => write!(f, "readings refused for want of strip"),
            Kind::NotRead => write!(f, "readings refused"),
            Kind::Chart => write!(f, "charts item by item"),
        }
    }
}

// How many cases of a kind were compared, and how many of them differ.
#[derive(Clone, Copy)]
struct Tally {
    cases: u64,
    differ: u64,
}

impl Tally {
    const NONE: Tally = Tally {
        cases: 0,
        differ: 0,
    };

    fn count(&mut self, same: bool) {
        self.cases = self.cases.saturating_add(1);
        self.differ = self.differ.saturating_add(u64::from(!same));
    }
}

// All that is counted of the comparisons, and the differences that are told.
#[derive(Drop)]
pub struct Report {
    tallies: [Tally; 16],
    told: u32,
    text: String,
}

// Tells of a word by its keys.
fn tell_word(word: &Matched, text: &mut String) -> Result<(), AllocError> {
    let mut mark = ' ';
    for key in 33..=64 {
        if word.matches(key) {
            write!(text, "{mark}{key}")?;
            mark = '+';
        }
    }
    Ok(())
}

// Tells of words.
fn tell_words(words: &[Matched], text: &mut String) -> Result<(), AllocError> {
    text.push_str(" words")?;
    for word in words {
        tell_word(word, text)?;
    }
    text.push_str("\n")
}

impl Report {
    pub fn new(heap: Global) -> Report {
        Report {
            tallies: [Tally::NONE; 16],
            told: 0,
            text: String::new(heap),
        }
    }

    // Counts a case of a kind, and tells of it where the answers differ.
    pub fn count(
        &mut self,
        kind: Kind,
        same: bool,
        made: &Made,
        words: &[Matched],
    ) -> Result<(), AllocError> {
        if let Some(tally) = self.tallies.get_mut(kind as usize) {
            tally.count(same);
        }
        if same || self.told >= MOST_TOLD {
            return Ok(());
        }
        self.told += 1;
        write!(self.text, "differs in {kind}: ")?;
        made.tell(&mut self.text)?;
        tell_words(words, &mut self.text)
    }

    // The lines that tell how many cases were compared and how many differ, and then what differs.
    pub fn text(&self, heap: Global) -> Result<String, AllocError> {
        let mut text = String::new(heap);
        for (kind, tally) in Kind::ALL.iter().zip(self.tallies.iter()) {
            let Tally { cases, differ } = tally;
            writeln!(text, "{cases:>7} {kind}, {differ} differ")?;
        }
        text.push_str(self.text.as_str())?;
        Ok(text)
    }
}
