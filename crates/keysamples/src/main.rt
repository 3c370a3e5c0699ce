//! keysamples: what keyin says of each of many sample programmes, 001.text and on, by the rules of 001.book and on. A book that
//! is refused is told with standard input unreadable.
#![tactic(auto)]

use files::if_present;
use keying::keyed;
use std::io::{ErrorKind, Read};
use std::{fs, io};

// More samples than there ever are.
const MOST: u16 = 999;

// A standard input of which each read fails.
#[derive(Drop)]
struct Unreadable;

impl Read for Unreadable {
    fn read(&mut self, _bytes: &mut [u8]) -> io::Result<usize> {
        Err(io::Error::from(ErrorKind::PermissionDenied))
    }
}

// What is said of a programme: with no input that can be read, where the book is refused.
fn said_of(rt: &HostRuntime, book: &[u8], programme: &[u8]) -> io::Result<String> {
    match keyed(rt.alloc(), book, &mut Unreadable) {
        Ok(said) => Ok(said),
        Err(_) => keyed(rt.alloc(), book, &mut &*programme),
    }
}

fn main(rt: HostRuntime) -> anyhow::Result<()> {
    for number in 1..=MOST {
        let name = format!(in rt.alloc(); "{number:03}.text")?;
        let Some(programme) = if_present(fs::read(&rt, name.as_str()))? else {
            break;
        };
        let book = fs::read(&rt, format!(in rt.alloc(); "{number:03}.book")?.as_str())?;
        let said = said_of(&rt, book.as_slice(), programme.as_slice())?;
        print!(rt; "{name}\n{said}")?;
    }
    Ok(())
}
