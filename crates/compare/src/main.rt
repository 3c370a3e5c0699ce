// compare: holds the product against a plain recogniser of another method, over many books and rows of words by chance.
#![tactic(auto)]

mod books;
mod makers;
mod numbers;
mod readings;
mod recogniser;
mod reports;
mod sets;
mod soundness;
mod tables;
mod walks;
mod words;

use bookreport::sound_book;
use books::Made;
use makers::some_book;
use numbers::Numbers;
use reports::{Kind, Report};
use rulebook::Fault;
use soundbook::SoundBook;
use soundness::wanted_check;
use std::alloc::{AllocError, Global};
use walks::compare_walk;

// How many books are made, sound or not.
const BOOKS: u32 = 8000;

// How many walks are made by the rules of each sound book.
const WALKS: u32 = 6;

// By what kind of answer a check is counted that must answer this.
fn check_kind(wanted: Result<(), Fault>) -> Kind {
    match wanted {
        Ok(()) => Kind::Sound,
        Err(_) => Kind::Unsound,
    }
}

// Walks by the rules of a sound book.
fn walk_by(
    heap: Global,
    numbers: &mut Numbers,
    made: &Made,
    book: &SoundBook,
    report: &mut Report,
) -> Result<(), AllocError> {
    for _ in 0..WALKS {
        compare_walk(heap, numbers, made, book, report)?;
    }
    Ok(())
}

// Makes a book, compares what the check answers, and walks by its rules if it is sound.
fn compare_book(
    heap: Global,
    numbers: &mut Numbers,
    report: &mut Report,
) -> Result<(), AllocError> {
    let made = some_book(heap, numbers)?;
    let text = made.text(heap)?;
    let wanted = wanted_check(&made);
    let found = sound_book(text.as_bytes());
    let same = found.map(|_| ()) == wanted;
    report.count(check_kind(wanted), same, &made, &[])?;
    match found {
        Ok(book) if same => walk_by(heap, numbers, &made, &book, report),
        _ => Ok(()),
    }
}

fn main(rt: HostRuntime) -> anyhow::Result<()> {
    let mut numbers = Numbers::from_state(1);
    let mut report = Report::new(rt.alloc());
    for _ in 0..BOOKS {
        compare_book(rt.alloc(), &mut numbers, &mut report)?;
    }
    println!(rt; "{BOOKS:>7} books made")?;
    rt.print(report.text(rt.alloc())?)?;
    Ok(())
}
