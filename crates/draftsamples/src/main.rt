// draftsamples: what a draft does in each of many sample runs, 001.steps and on, by the rules of 001.book and on. A run
// names the places of its chart in hundreds and the rest, and then its steps: a key that is pressed, or a name where the
// last word is rubbed out. The first runs tell the reading of the words held too.
#![tactic(auto)]

use bookreport::sound_book;
use draft::{Draft, Item};
use files::if_present;
use lines::fault_line;
use reading::reading;
use rulebook::Fault;
use soundbook::SoundBook;
use std::alloc::{AllocError, Global};
use std::fs;
use wording::{Piece, Placed, Pressed, cut};

// More samples than there ever are.
const MOST: u16 = 999;

// How many runs tell the reading too.
const READ: u16 = 40;

// How many bytes the strip has, too few for the moves of some.
const STRIP: usize = 40;

// What stands in a chart before a draft is made of it.
const BEFORE: Item = Item {
    rule: 9,
    done: 9,
    start: 9,
    end: 9,
};

// More items than are told one by one.
const MANY: usize = 50;

// Presses a key or rubs out a word.
fn step(draft: &mut Draft, piece: &Piece) -> Result<usize, Fault> {
    match piece {
        Piece::Figure(_, key) => draft.press(&Pressed { key: *key }),
        Piece::Name(_) | Piece::End => draft.rub_out(),
    }
}

// What a call answers.
fn answer_line(heap: Global, answer: Result<usize, Fault>) -> Result<String, AllocError> {
    match answer {
        Ok(items) => format!(in heap; "{items} items\n"),
        Err(fault) => fault_line(heap, &fault),
    }
}

// The lit keys, and whether the words held are a programme.
fn state_line(heap: Global, draft: &Draft) -> Result<String, AllocError> {
    let lit = draft.lit();
    let mut said = format!(in heap; "     {} lit:", lit.count)?;
    for key in 33..=64u16 {
        if lit.keys.contains(key) {
            write!(said, " {key}")?;
        }
    }
    said.push_str(if draft.whole() {
        ", whole\n"
    } else {
        ", short\n"
    })?;
    Ok(said)
}

// The moves of the first reading of the words held, or why none are written.
fn reading_line(heap: Global, draft: &Draft) -> Result<String, AllocError> {
    let mut strip = [0u8; STRIP];
    match reading(draft, &mut strip) {
        Ok(written) => {
            let mut said = format!(in heap;
                "     {} moves, depth {}:",
                written.moves, written.depth
            )?;
            for number in strip.iter().take(written.moves) {
                write!(said, " {number}")?;
            }
            said.push_str("\n")?;
            Ok(said)
        }
        Err(fault) => fault_line(heap, &fault),
    }
}

// The items that stand in a chart, in the order of their numbers, since theirs inside a column is open.
fn items_lines(heap: Global, chart: &[Item]) -> Result<String, AllocError> {
    let mut items = Vec::new(heap);
    for item in chart {
        if *item != Item::BLANK && *item != BEFORE {
            items.push((item.end, item.start, item.rule, item.done))?;
        }
    }
    items.sort_unstable();
    let mut said = String::new(heap);
    for (end, start, rule, done) in items.iter().take(MANY) {
        writeln!(said, "     item {rule} {done} {start} {end}")?;
    }
    Ok(said)
}

// How many places of a chart hold an item.
fn count_of(chart: &[Item], item: Item) -> usize {
    chart.iter().filter(|place| **place == item).count()
}

// The figure at a place of a run, 0 where none stands there.
fn figure(run: &[Placed], place: usize) -> u16 {
    match run.get(place).map(|placed| placed.piece) {
        Some(Piece::Figure(_, value)) => value,
        Some(Piece::Name(_) | Piece::End) | None => 0,
    }
}

// Tells in what state a draft is, and in the first runs the reading of a whole one.
fn tell_state(rt: &HostRuntime, number: u16, draft: &Draft) -> anyhow::Result<()> {
    rt.print(state_line(rt.alloc(), draft)?)?;
    if number <= READ && draft.whole() {
        rt.print(reading_line(rt.alloc(), draft)?)?;
    }
    Ok(())
}

// Tells of the run of this number over a sound book.
fn tell(rt: &HostRuntime, number: u16, book: &SoundBook, run: &[Placed]) -> anyhow::Result<()> {
    let places = usize::from(figure(run, 0)) * 100 + usize::from(figure(run, 1));
    let mut draft = Draft::open(book, vec![in rt.alloc(); BEFORE; places]?);
    tell_state(rt, number, &draft)?;
    for placed in run.iter().skip(2) {
        let answer = step(&mut draft, &placed.piece);
        rt.print(answer_line(rt.alloc(), answer)?)?;
        tell_state(rt, number, &draft)?;
    }
    if number <= READ && !draft.whole() {
        rt.print(reading_line(rt.alloc(), &draft)?)?;
    }
    let chart = draft.into_chart();
    rt.print(items_lines(rt.alloc(), chart.as_slice())?)?;
    let blank = count_of(chart.as_slice(), Item::BLANK);
    let before = count_of(chart.as_slice(), BEFORE);
    println!(rt; "     {blank} blank, {before} as before")?;
    Ok(())
}

fn main(rt: HostRuntime) -> anyhow::Result<()> {
    for number in 1..=MOST {
        let name = format!(in rt.alloc(); "{number:03}.steps")?;
        let Some(text) = if_present(fs::read(&rt, name.as_str()))? else {
            break;
        };
        println!(rt; "{name}")?;
        let run = cut(rt.alloc(), text.as_slice())?;
        let book_name = format!(in rt.alloc(); "{number:03}.book")?;
        match sound_book(fs::read(&rt, book_name.as_str())?.as_slice()) {
            Ok(book) => tell(&rt, number, &book, run.words.as_slice())?,
            Err(fault) => rt.print(fault_line(rt.alloc(), &fault)?)?,
        }
    }
    Ok(())
}
