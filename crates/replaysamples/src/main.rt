// replaysamples: what replay answers to each of many samples, 001.moves and on, by the rules of 001.book and on. A sample
// names the places for the second and the third stack and how many words there are, then the words, each by a key that is
// pressed or by a name that is spelled, and then the moves.
#![tactic(auto)]

use bookreport::sound_book;
use files::if_present;
use lines::fault_line;
use reading::replay;
use rulebook::Fault;
use soundbook::SoundBook;
use std::alloc::{AllocError, Global};
use std::fs;
use wording::{Matched, Piece, Placed, Pressed, Spelled, cut};

// More samples than there ever are.
const MOST: u16 = 999;

// What stands in the spaces before a replay.
const BEFORE: u8 = 9;

// The figure that a piece is, 0 for any other.
fn figure(piece: &Piece) -> u16 {
    match piece {
        Piece::Figure(_, value) => *value,
        Piece::Name(_) | Piece::End => 0,
    }
}

// The word that a piece names.
fn word_of(book: &SoundBook, word: &Placed) -> Matched {
    match word.piece {
        Piece::Figure(_, key) => Matched::of(&Pressed { key }),
        Piece::Name(_) | Piece::End => Matched::of(&Spelled { word: *word, book }),
    }
}

// The words that pieces name.
fn words_of(heap: Global, book: &SoundBook, run: &[Placed]) -> Result<Vec<Matched>, AllocError> {
    let mut words = Vec::new(heap);
    for word in run {
        words.push(word_of(book, word))?;
    }
    Ok(words)
}

// The moves that pieces name; none has a number past 255.
fn moves_of(heap: Global, run: &[Placed]) -> Result<Vec<u8>, AllocError> {
    let mut moves = Vec::new(heap);
    for placed in run {
        moves.push(u8::try_from(figure(&placed.piece)).unwrap_or(u8::MAX))?;
    }
    Ok(moves)
}

// What replay answers.
fn answer_line(heap: Global, answer: Result<(), Fault>) -> Result<String, AllocError> {
    match answer {
        Ok(()) => format!(in heap; "accepted\n"),
        Err(fault) => fault_line(heap, &fault),
    }
}

// How many places hold 0.
fn zeros(space: &[u8]) -> usize {
    space.iter().filter(|place| **place == 0).count()
}

// Tells of one sample over a sound book.
fn tell(rt: &HostRuntime, book: &SoundBook, run: &[Placed]) -> anyhow::Result<()> {
    let [second, third, count, rest @ ..] = run else {
        return Ok(());
    };
    let (words, moves) = rest.split_at(usize::from(figure(&count.piece)).min(rest.len()));
    let words = words_of(rt.alloc(), book, words)?;
    let moves = moves_of(rt.alloc(), moves)?;
    let mut second = vec![in rt.alloc(); BEFORE; usize::from(figure(&second.piece))]?;
    let mut third = vec![in rt.alloc(); BEFORE; usize::from(figure(&third.piece))]?;
    let answer = replay(
        book,
        words.as_slice(),
        moves.as_slice(),
        second.as_mut_slice(),
        third.as_mut_slice(),
    );
    rt.print(answer_line(rt.alloc(), answer)?)?;
    let (in_second, in_third) = (zeros(second.as_slice()), zeros(third.as_slice()));
    println!(rt; "     {in_second} and {in_third} places zeroed")?;
    Ok(())
}

fn main(rt: HostRuntime) -> anyhow::Result<()> {
    for number in 1..=MOST {
        let name = format!(in rt.alloc(); "{number:03}.moves")?;
        let Some(text) = if_present(fs::read(&rt, name.as_str()))? else {
            break;
        };
        println!(rt; "{name}")?;
        let run = cut(rt.alloc(), text.as_slice())?;
        let book_name = format!(in rt.alloc(); "{number:03}.book")?;
        match sound_book(fs::read(&rt, book_name.as_str())?.as_slice()) {
            Ok(book) => tell(&rt, &book, run.words.as_slice())?,
            Err(fault) => rt.print(fault_line(rt.alloc(), &fault)?)?,
        }
    }
    Ok(())
}
