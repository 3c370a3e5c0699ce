//! What is told of a run: its answers, and what it leaves.

use dialogue::{Answer, Exchange};
use draft::{Item, LitSet};
use lines::fault_line;
use rulebook::Book;
use soundbook::SoundBook;
use std::alloc::{AllocError, Global};

/// What stands in a place of the chart before a run.
pub const BEFORE: Item = Item {
    rule: 9,
    done: 9,
    start: 9,
    end: 9,
};

/// What stands in a byte of the strip before a run.
pub const UNWRITTEN: u8 = 99;

// More items than are told one by one.
const MANY_ITEMS: usize = 50;

// More bytes of the strip than are told one by one.
const MANY_BYTES: usize = 60;

// How many keys are lit, and which.
fn lit_line(heap: Global, lit: &LitSet) -> Result<String, AllocError> {
    let mut said = format!(in heap; "{} lit:", lit.count)?;
    for key in 33..=64u16 {
        if lit.keys.contains(key) {
            write!(said, " {key}")?;
        }
    }
    said.push_str("\n")?;
    Ok(said)
}

// Whether the words held are a programme.
fn whole_words(whole: bool) -> &'static str {
    if whole { "whole\n" } else { "short\n" }
}

// An answer.
fn answer_line(heap: Global, answer: &Answer) -> Result<String, AllocError> {
    match answer {
        Answer::Items(items) => format!(in heap; "{items} items\n"),
        Answer::Keys(lit) => lit_line(heap, lit),
        Answer::Yes(whole) => String::from_str(heap, whole_words(*whole)),
        Answer::Moves(written) => format!(in heap;
            "{} moves, depth {}\n",
            written.moves, written.depth
        ),
        Answer::Refused(fault) => fault_line(heap, fault),
    }
}

/// The answers, in the order of their calls.
pub fn answer_lines<W>(heap: Global, exchanges: &[Exchange<W>]) -> Result<String, AllocError> {
    let mut said = String::new(heap);
    for exchange in exchanges {
        said.push_str(answer_line(heap, &exchange.answer)?.as_str())?;
    }
    Ok(said)
}

// The items that stand in a chart, in the order of their numbers, since theirs inside a column is open.
fn items_of(heap: Global, chart: &[Item]) -> Result<Vec<(u16, u16, u16, u16)>, AllocError> {
    let mut items = Vec::new(heap);
    for item in chart {
        if *item != Item::BLANK && *item != BEFORE {
            items.push((item.end, item.start, item.rule, item.done))?;
        }
    }
    items.sort_unstable();
    Ok(items)
}

// How many places of a chart hold an item.
fn count_of(chart: &[Item], item: Item) -> usize {
    chart.iter().filter(|place| **place == item).count()
}

/// What stands in a chart: its items, and how many of the other places are blank and how many as before the run.
pub fn chart_lines(heap: Global, chart: &[Item]) -> Result<String, AllocError> {
    let mut said = String::new(heap);
    for (end, start, rule, done) in items_of(heap, chart)?.iter().take(MANY_ITEMS) {
        writeln!(said, "     item {rule} {done} {start} {end}")?;
    }
    let blank = count_of(chart, Item::BLANK);
    let before = count_of(chart, BEFORE);
    writeln!(said, "     {blank} blank, {before} as before")?;
    Ok(said)
}

// How many bytes stand in front of the last one that a run wrote, it among them.
fn written_len(strip: &[u8]) -> usize {
    strip
        .iter()
        .rposition(|byte| *byte != UNWRITTEN)
        .map_or(0, |last| last + 1)
}

/// What stands in a strip: how many of its bytes are as before the run, and those up to the last that is not.
pub fn strip_line(heap: Global, strip: &[u8]) -> Result<String, AllocError> {
    let before = strip.iter().filter(|byte| **byte == UNWRITTEN).count();
    let mut said = format!(in heap; "     {before} of {} bytes as before:", strip.len())?;
    for byte in strip.iter().take(written_len(strip).min(MANY_BYTES)) {
        write!(said, " {byte}")?;
    }
    said.push_str("\n")?;
    Ok(said)
}

/// The counts of the book in the place that a run was handed.
pub fn place_line(heap: Global, place: &SoundBook) -> Result<String, AllocError> {
    let (parts, keys) = (place.parts(), place.keys());
    let (start, rules) = (place.start(), place.rules());
    format!(in heap; "     place: parts {parts}, keys {keys}, start {start}, rules {rules}\n")
}
