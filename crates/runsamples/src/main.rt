//! runsamples: what whole runs of calls answer and leave, in each of many samples, 001.calls and on, by the rules of 001.book
//! and on. A sample names the make of its book and by which call of `dialogue` the run is made, the kind of its words, the
//! places of its chart and its strip, and its calls.
#![tactic(auto)]

mod calls;
mod printouts;
mod samples;

use bookreport::sound_book;
use booktext::TextBook;
use calls::{pressed_calls, set_calls, spelled_calls};
use dialogue::{Exchange, RunResult, check_and_run, run};
use draft::Item;
use files::if_present;
use lines::fault_line;
use printouts::{BEFORE, UNWRITTEN, answer_lines, chart_lines, place_line, strip_line};
use rulebook::Fault;
use samples::{Kind, Make, Sample};
use soundbook::{SoundBook, WorksBook, check, smallest_book};
use std::fs;
use wording::{Word, cut};

// More samples than there ever are.
const MOST: u16 = 999;

// The text of the book that stands in the place before a run: not the smallest, as in a new place, nor that of any sample.
const BEFORE_BOOK: &[u8] = b"\
H   1   3   1   3                \n\
R   1   1  33                    \n\
R   1   1  34                    \n\
R   1   2   1  33                \n\
K  33   0a                       \n\
K  34   0b                       \n\
K  35   0c                       \n";

// The book that a run is made by, of each make.
#[derive(Clone, Copy)]
enum Source<'t> {
    Text(TextBook<'t>),
    Works,
    // to be checked once more
    Sound(SoundBook),
    // to be run as it is
    Run(SoundBook),
}

// The book of a make, out of a text; the works book has none.
fn source_of(make: Make, text: &[u8]) -> Result<Source<'_>, Fault> {
    Ok(match make {
        Make::Text => Source::Text(TextBook::read(text)?),
        Make::Works => Source::Works,
        Make::Sound => Source::Sound(sound_book(text)?),
        Make::Run => Source::Run(sound_book(text)?),
    })
}

// The sound book by whose spellings words are matched: the smallest where the check refuses the book, since then no call is
// made.
fn spellings_of(source: &Source) -> SoundBook {
    let mut book = smallest_book();
    let _ = match source {
        Source::Text(text) => check(text, &mut book),
        Source::Works => check(&WorksBook, &mut book),
        Source::Sound(sound) | Source::Run(sound) => check(sound, &mut book),
    };
    book
}

// Makes the run of a book by the call of its make.
fn run_by<W: Word>(
    source: &Source,
    place: &mut SoundBook,
    chart: Vec<Item>,
    exchanges: &mut [Exchange<W>],
    strip: &mut [u8],
) -> RunResult {
    match source {
        Source::Text(book) => check_and_run(book, place, chart, exchanges, strip),
        Source::Works => check_and_run(&WorksBook, place, chart, exchanges, strip),
        Source::Sound(book) => check_and_run(book, place, chart, exchanges, strip),
        Source::Run(book) => RunResult {
            chart: run(book, chart, exchanges, strip),
            checked: Ok(()),
        },
    }
}

// Makes a run, and tells what it answers and leaves.
fn tell_run<W: Word + Drop>(
    rt: &HostRuntime,
    sample: &Sample,
    source: &Source,
    mut exchanges: Vec<Exchange<W>>,
) -> anyhow::Result<()> {
    let mut place = sound_book(BEFORE_BOOK)?;
    let chart = vec![in rt.alloc(); BEFORE; sample.chart]?;
    let mut strip = vec![in rt.alloc(); UNWRITTEN; sample.strip]?;
    let RunResult { chart, checked } = run_by(
        source,
        &mut place,
        chart,
        exchanges.as_mut_slice(),
        strip.as_mut_slice(),
    );
    if let Err(fault) = checked {
        rt.print(fault_line(rt.alloc(), &fault)?)?;
    }
    rt.print(answer_lines(rt.alloc(), exchanges.as_slice())?)?;
    rt.print(chart_lines(rt.alloc(), chart.as_slice())?)?;
    rt.print(strip_line(rt.alloc(), strip.as_slice())?)?;
    rt.print(place_line(rt.alloc(), &place)?)?;
    Ok(())
}

// Tells of a sample by its book, in words of its kind.
fn tell_calls(rt: &HostRuntime, sample: &Sample, source: &Source) -> anyhow::Result<()> {
    let heap = rt.alloc();
    match sample.kind {
        Kind::Pressed => tell_run(rt, sample, source, pressed_calls(heap, sample.calls)?),
        Kind::Sets => tell_run(rt, sample, source, set_calls(heap, sample.calls)?),
        Kind::Spelled => {
            let spellings = spellings_of(source);
            let exchanges = spelled_calls(heap, &spellings, sample.calls)?;
            tell_run(rt, sample, source, exchanges)
        }
    }
}

// Tells of a sample and the text of its book.
fn tell(rt: &HostRuntime, sample: &Sample, text: &[u8]) -> anyhow::Result<()> {
    match source_of(sample.make, text) {
        Ok(source) => tell_calls(rt, sample, &source),
        Err(fault) => {
            rt.print(fault_line(rt.alloc(), &fault)?)?;
            Ok(())
        }
    }
}

// The text of the book of this number; a missing one counts as empty.
fn book_text(rt: &HostRuntime, number: u16) -> anyhow::Result<Vec<u8>> {
    let name = format!(in rt.alloc(); "{number:03}.book")?;
    match if_present(fs::read(rt, name.as_str()))? {
        Some(text) => Ok(text),
        None => Ok(Vec::new(rt.alloc())),
    }
}

fn main(rt: HostRuntime) -> anyhow::Result<()> {
    for number in 1..=MOST {
        let name = format!(in rt.alloc(); "{number:03}.calls")?;
        let Some(text) = if_present(fs::read(&rt, name.as_str()))? else {
            break;
        };
        println!(rt; "{name}")?;
        let words = cut(rt.alloc(), text.as_slice())?;
        if let Some(sample) = Sample::of(words.words.as_slice()) {
            tell(&rt, &sample, book_text(&rt, number)?.as_slice())?;
        }
    }
    Ok(())
}
