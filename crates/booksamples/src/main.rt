// booksamples: tells what bookcheck says of each of many sample books, 001.book and on.
#![tactic(auto)]

use bookreport::report_of;
use files::if_present;
use std::fs;

// More samples than there ever are.
const MOST: u16 = 999;

// The loop stands in wordsamples too: one for both would have to ask of its caller that the closure may be called.
fn main(rt: HostRuntime) -> anyhow::Result<()> {
    for number in 1..=MOST {
        let name = format!(in rt.alloc(); "{number:03}.book")?;
        let Some(text) = if_present(fs::read(&rt, name.as_str()))? else {
            break;
        };
        let said = report_of(rt.alloc(), text.as_slice())?;
        print!(rt; "{name}\n{said}")?;
    }
    Ok(())
}
