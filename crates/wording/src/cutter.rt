// Programme text is cut into its words, one at a call.
ghost use Rattle.std.specs.Prelude.{◌≡◌, ◌<◌, ◌≤◌, true, length, IfErr, IfOk, MatchResult, OnErr, OnOk, slice_index};
ghost use Rattle.rulebook.specs.declared.faults.Fault.TheVariants.{ProgrammeLength};
ghost use Rattle.wording.specs.Pieces.{PieceTaken, PieceRefused};
ghost use Rattle.wording.specs.Runs.{separates as separates_at, RunTo, NextWord};

use super::pieces::Placed;
use super::reads::piece_of;
use rulebook::Fault;
use std::ops::Range;

// The most bytes of a programme text.
const MOST_BYTES: usize = 4096;

/// The words of a programme text from a place on; places count from 0. The text has at most 4,096 bytes, and no word goes on
/// across that place.
#[derive(Debug, Drop)]
pub struct Cutter<'t> {
    text: &'t [u8],
    at: usize,
    ghost short: { length text.now ≤ 4096 },
    ghost within: { at ≤ length text.now },
    ghost edge: { (0 < at → at < length text.now → separates_at (slice_index text.now at) ≡ true) },
}

// Whether a byte stands between words.
fn separates(byte: u8) -> bool
    ensures { result ≡ separates_at byte }
{
    matches!(byte, b' ' | b'\n')
}

// The place of the first byte, from a place on, of which a test says yes, or the end of the text.
fn run_end<F: Fn(u8) -> bool>(text: &[u8], from: usize, ends: F) -> usize
    requires within { from ≤ length text.now }
    requires callable { F.IsAlwaysCallable ends }
    ensures { RunTo (F.post ends) text.now from result }
{
    // By place: what is asked for is a place of the whole text.
    (from..text.len())
        .find(|at| ends(text[*at]))
        .unwrap_or(text.len())
}

impl<'t> Cutter<'t> {
    /// The words of a whole programme text. A text of more than 4,096 bytes is refused, with `Fault::ProgrammeLength`, and no
    /// other text is.
    pub fn new(text: &'t [u8]) -> Result<Cutter<'t>, Fault>
        ensures text { IfOk result (λ c. c.text ≡ text.entry) }
        ensures front { IfOk result (λ c. c.at ≡ 0) }
        ensures short { OnOk result (length text.now ≤ 4096) }
        ensures fault { IfErr result (λ f. f ≡ ProgrammeLength) }
        ensures long { OnErr result (4096 < length text.now) }
    {
        if text.len() <= MOST_BYTES {
            Ok(Cutter { text, at: 0 })
        } else {
            Err(Fault::ProgrammeLength)
        }
    }

    // The places of the next word, or an empty range at the end of the text.
    fn next_range(&self) -> Range<usize>
        ensures { NextWord self.now.text.now self.now.at result.start result.end }
    {
        let from = run_end(self.text, self.at, |byte| !separates(byte));
        from..run_end(self.text, from, separates)
    }

    /// The next word, or the end, which is given again and again. A word that is refused stays the next: with
    /// `Fault::WordByte` for its first byte that does not fit the byte it begins with, else with `Fault::WordLength` where it
    /// is a name of more than 24 bytes or a figure of more than 4.
    pub fn next_piece(&mut self) -> Result<Placed<'t>, Fault>
        ensures text { self.new.text ≡ self.old.text }
        ensures piece { MatchResult result (λ p. PieceTaken self.old.text.now self.old.at self.new.at p) (λ f. (self.new.at ≡ self.old.at) × PieceRefused self.old.text.now self.old.at f) }
    {
        let text = self.text;
        let Range {
            start: from,
            end: past,
        } = self.next_range();
        let piece = piece_of(&text[from..past], from)?;
        self.at = past;
        Ok(Placed { piece, place: from })
    }
}
