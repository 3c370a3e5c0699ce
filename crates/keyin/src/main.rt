//! keyin: keys in the programme on standard input, word by word, by the rules of press.book. The book is read and checked
//! first: where it is refused, standard input is not read.
#![tactic(auto)]

use bookreport::read_book;
use keying::keyed;
use std::fs;

fn main(rt: HostRuntime) -> anyhow::Result<()> {
    let book = read_book(rt.alloc(), fs::open(&rt, "press.book"))?;
    rt.print(keyed(rt.alloc(), book.as_slice(), &mut rt.reader())?)?;
    Ok(())
}
