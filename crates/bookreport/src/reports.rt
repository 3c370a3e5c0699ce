// What bookcheck says, in words that a rule writer understands.
ghost use Rattle.std.specs.Prelude.{◌≡◌, Some, IfOk, string_bytes};
ghost use Rattle.bookreport.specs.Findings.{told_back, told_findings, ToldRefusal, RoundTrips, Told};

use super::examination::{Findings, examine};
use lines::fault_line;
use rulebook::Fault;
use std::alloc::{AllocError, Global};
use std::fmt;

// How the book was written back.
fn back_words(same: bool) -> &'static str
    ensures { result.now ≡ told_back same }
{
    if same {
        "written back byte for byte\n"
    } else {
        "written back otherwise than it was read\n"
    }
}

impl fmt::Display for Findings {
    ghost output = { λ d. Some (told_findings d) };

    fn fmt<W: fmt::Write>(&self, f: &mut fmt::Formatter<W>) -> fmt::Result {
        let Findings {
            parts,
            keys,
            start,
            rules,
            symbols,
            same,
        } = *self;
        let back = back_words(same);
        write!(
            f,
            "sound book\nparts {parts}, keys {keys}, start {start}\nrules {rules}, symbols {symbols}\n{back}"
        )
    }
}

// The refusal: the line of its four numbers, then a sentence.
fn refusal(heap: Global, fault: Fault) -> Result<String, AllocError>
    ensures { IfOk result (λ s. ToldRefusal fault (string_bytes s)) }
{
    let line = fault_line(heap, &fault)?;
    format!(in heap; "{line}{fault}\n")
}

// What is said of a text.
pub fn report_of(heap: Global, text: &[u8]) -> Result<String, AllocError>
    ensures said { IfOk result (λ s. Told text.now (string_bytes s)) }
    ensures trips { RoundTrips }
{
    let mut space = vec![in heap; 0u8; text.len()]?;
    match examine(text, space.as_mut_slice()) {
        Ok(found) => format!(in heap; "{found}"),
        Err(fault) => refusal(heap, fault),
    }
}
