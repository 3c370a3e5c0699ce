//! How a sample is written.

use wording::{Piece, Placed};

/// Of which make the book of a run is, and by which call the run is made.
#[derive(Clone, Copy)]
pub enum Make {
    /// the text of a book, checked and run
    Text,
    /// the works book, checked and run
    Works,
    /// the sound book that the check makes of a text, checked once more and run
    Sound,
    /// that sound book, run as it is
    Run,
}

/// Of which kind the words of a run are.
#[derive(Clone, Copy)]
pub enum Kind {
    /// a figure presses the key of that number
    Pressed,
    /// figures gather a set of keys, and `-press` presses it
    Sets,
    /// a name or a figure is pressed as a spelled word
    Spelled,
}

/// A sample.
#[derive(Clone, Copy)]
pub struct Sample<'s, 't> {
    pub make: Make,
    pub kind: Kind,
    /// how many places the chart has
    pub chart: usize,
    /// how many bytes the strip has
    pub strip: usize,
    /// the words that name the calls
    pub calls: &'s [Placed<'t>],
}

impl Make {
    // The make of a name.
    fn named(name: &Placed) -> Option<Make> {
        match name.piece.bytes() {
            b"text" => Some(Make::Text),
            b"works" => Some(Make::Works),
            b"sound" => Some(Make::Sound),
            b"run" => Some(Make::Run),
            _ => None,
        }
    }
}

impl Kind {
    // The kind of a name.
    fn named(name: &Placed) -> Option<Kind> {
        match name.piece.bytes() {
            b"pressed" => Some(Kind::Pressed),
            b"sets" => Some(Kind::Sets),
            b"spelled" => Some(Kind::Spelled),
            _ => None,
        }
    }
}

// The figure that a word is, 0 for any other.
fn figure(word: &Placed) -> u16 {
    match word.piece {
        Piece::Figure(_, value) => value,
        Piece::Name(_) | Piece::End => 0,
    }
}

// The number that two figures write, its hundreds and its rest.
fn number(hundreds: &Placed, rest: &Placed) -> usize {
    usize::from(figure(hundreds)) * 100 + usize::from(figure(rest))
}

impl<'s, 't> Sample<'s, 't> {
    /// The sample that words write: names of its make and its kind, the places of the chart and of the strip in hundreds and
    /// the rest, and its calls. None where they write no sample.
    pub fn of(words: &'s [Placed<'t>]) -> Option<Sample<'s, 't>> {
        let [make, kind, chart, chart_rest, strip, strip_rest, calls @ ..] = words else {
            return None;
        };
        Some(Sample {
            make: Make::named(make)?,
            kind: Kind::named(kind)?,
            chart: number(chart, chart_rest),
            strip: number(strip, strip_rest),
            calls,
        })
    }
}
