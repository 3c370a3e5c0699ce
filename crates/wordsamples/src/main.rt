// wordsamples: how each of many sample programmes, 001.text and on, is cut into words, and which keys of press.book
// each word matches.
#![tactic(auto)]

use bookreport::sound_book;
use files::if_present;
use lines::fault_line;
use rulebook::Fault;
use soundbook::SoundBook;
use std::alloc::{AllocError, Global};
use std::fs;
use wording::{Matched, Piece, Placed, Pressed, Spelled, Word, cut};

// More samples than there ever are.
const MOST: u16 = 999;

// The numbers from 0 to 99 that a word matches.
fn keys_of<W: Word>(heap: Global, word: &W) -> Result<String, AllocError> {
    let mut said = String::new(heap);
    for key in 0..100u16 {
        if word.matches(key) {
            write!(said, " {key}")?;
        }
    }
    Ok(said)
}

// The keys that a word matches, asked of the word and of its set.
fn matches_of<W: Word>(heap: Global, word: &W) -> Result<String, AllocError> {
    let keys = keys_of(heap, word)?;
    let set = keys_of(heap, &Matched::of(word))?;
    format!(in heap; "{keys} |{set}")
}

// A word: its first byte, counted from 1, what it is, and the keys that it matches.
fn word_line(heap: Global, book: &SoundBook, word: Placed) -> Result<String, AllocError> {
    let place = word.place.saturating_add(1);
    let text = String::from_utf8_lossy(heap, word.piece.bytes())?;
    let keys = matches_of(heap, &Spelled { word, book })?;
    match word.piece {
        Piece::Name(_) => format!(in heap; "{place:5} name {text}:{keys}\n"),
        Piece::Figure(_, value) => format!(in heap; "{place:5} figure {text} is {value}:{keys}\n"),
        Piece::End => format!(in heap; "{place:5} end:{keys}\n"),
    }
}

// How the words end.
fn last_line(heap: Global, fault: Option<Fault>) -> Result<String, AllocError> {
    match fault {
        None => String::from_str(heap, "all words\n"),
        Some(fault) => fault_line(heap, &fault),
    }
}

// Tells of one programme text.
fn tell(rt: &HostRuntime, book: &SoundBook, text: &[u8]) -> anyhow::Result<()> {
    let programme = cut(rt.alloc(), text)?;
    for word in programme.words.iter() {
        rt.print(word_line(rt.alloc(), book, *word)?)?;
    }
    rt.print(last_line(rt.alloc(), programme.fault)?)?;
    Ok(())
}

// Tells of all samples that there are.
fn tell_samples(rt: &HostRuntime, book: &SoundBook) -> anyhow::Result<()> {
    for number in 1..=MOST {
        let name = format!(in rt.alloc(); "{number:03}.text")?;
        let Some(text) = if_present(fs::read(rt, name.as_str()))? else {
            break;
        };
        println!(rt; "{name}")?;
        tell(rt, book, text.as_slice())?;
    }
    Ok(())
}

// The keys that some pressed words match.
fn tell_pressed(rt: &HostRuntime) -> anyhow::Result<()> {
    for key in [0u16, 1, 32, 33, 48, 64, 65, 65535] {
        let keys = matches_of(rt.alloc(), &Pressed { key })?;
        println!(rt; "pressed {key}:{keys}")?;
    }
    Ok(())
}

fn main(rt: HostRuntime) -> anyhow::Result<()> {
    let text = fs::read(&rt, "press.book")?;
    match sound_book(text.as_slice()) {
        Ok(book) => {
            tell_samples(&rt, &book)?;
            tell_pressed(&rt)
        }
        Err(fault) => {
            rt.print(fault_line(rt.alloc(), &fault)?)?;
            Ok(())
        }
    }
}
