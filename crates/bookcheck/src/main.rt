// bookcheck: reads press.book, checks it, writes it back, and says what it found.
#![tactic(auto)]

use bookreport::{read_book, report_of};
use std::fs;

fn main(rt: HostRuntime) -> anyhow::Result<()> {
    let text = read_book(rt.alloc(), fs::open(&rt, "press.book"))?;
    rt.print(report_of(rt.alloc(), text.as_slice())?)?;
    Ok(())
}
