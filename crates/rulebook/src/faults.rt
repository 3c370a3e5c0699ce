// The refusals. Each variant is one answer of the product, named by what went wrong, and holds its places.
ghost use Rattle.std.specs.Prelude.{◌≡◌, Some};
ghost use Rattle.rulebook.specs.Fault.{number_of, layer_of, first_of, second_of};
ghost use Rattle.rulebook.specs.Sentences.{mark_words, sentence_of};

use std::error::Error;
use std::fmt;

// Lines, columns, rules, parts, places of symbols, moves and bytes count from 1, keys by symbol number from 33.
#[derive(Clone, Copy, Debug, PartialEq, Eq, Hash)]
pub enum Fault {
    // the text of a book
    TextLength,
    LineMark { line: usize, column: usize },
    FieldForm { line: usize, column: usize },
    KeyNumber { line: usize },
    LineCount,
    SpaceShort,
    // the programme text
    ProgrammeLength,
    WordByte { byte: usize },
    WordLength { byte: usize },
    // the book
    Counts,
    LeftSide { rule: usize },
    EmptyRule { rule: usize },
    LongRule { rule: usize },
    UnknownSymbol { rule: usize, place: usize },
    KeyForm { key: usize },
    Unproductive { part: usize },
    UnitCycle { part: usize },
    // the draft; held is the number of words held
    DraftFull { held: usize },
    DarkWord { held: usize },
    ChartFull { held: usize },
    NothingHeld { held: usize },
    NotWhole { held: usize },
    StripShort { held: usize },
    // the replay
    MoveRefused { at: usize },
    StacksLeft { moves: usize },
    StackFull { at: usize },
}

impl Fault {
    // The number by which the refusal is known: no enum, since it is what programs print.
    pub fn number(&self) -> u16
        ensures { result ≡ number_of self.now }
    {
        match self {
            Fault::TextLength => 1,
            Fault::LineMark { .. } => 2,
            Fault::FieldForm { .. } => 3,
            Fault::KeyNumber { .. } => 4,
            Fault::LineCount => 5,
            Fault::SpaceShort => 6,
            Fault::ProgrammeLength => 41,
            Fault::WordByte { .. } => 42,
            Fault::WordLength { .. } => 43,
            Fault::Counts => 11,
            Fault::LeftSide { .. } => 12,
            Fault::EmptyRule { .. } => 13,
            Fault::LongRule { .. } => 14,
            Fault::UnknownSymbol { .. } => 15,
            Fault::KeyForm { .. } => 16,
            Fault::Unproductive { .. } => 17,
            Fault::UnitCycle { .. } => 18,
            Fault::DraftFull { .. } => 21,
            Fault::DarkWord { .. } => 22,
            Fault::ChartFull { .. } => 23,
            Fault::NothingHeld { .. } => 24,
            Fault::NotWhole { .. } => 25,
            Fault::StripShort { .. } => 26,
            Fault::MoveRefused { .. } => 31,
            Fault::StacksLeft { .. } => 32,
            Fault::StackFull { .. } => 33,
        }
    }

    // The layer that refused: 1 text, 2 book, 3 draft, 4 replay.
    pub fn layer(&self) -> u16
        ensures { result ≡ layer_of self.now }
    {
        // By ranges of numbers: a list of all the variants says the same at greater length.
        match self.number() {
            1..=6 | 41..=43 => 1,
            11..=18 => 2,
            21..=26 => 3,
            _ => 4,
        }
    }

    // The first place number.
    pub fn first(&self) -> usize
        ensures { result ≡ first_of self.now }
    {
        match self {
            Fault::TextLength | Fault::SpaceShort | Fault::ProgrammeLength | Fault::Counts => 0,
            Fault::LineCount => 1,
            Fault::LineMark { line, .. }
            | Fault::FieldForm { line, .. }
            | Fault::KeyNumber { line } => *line,
            Fault::WordByte { byte } | Fault::WordLength { byte } => *byte,
            Fault::LeftSide { rule } | Fault::EmptyRule { rule } | Fault::LongRule { rule } =>
                *rule,
            Fault::UnknownSymbol { rule, .. } => *rule,
            Fault::KeyForm { key } => *key,
            Fault::Unproductive { part } | Fault::UnitCycle { part } => *part,
            Fault::DraftFull { held } | Fault::DarkWord { held } | Fault::ChartFull { held } =>
                *held,
            Fault::NothingHeld { held } | Fault::NotWhole { held } | Fault::StripShort { held } =>
                *held,
            Fault::MoveRefused { at } | Fault::StackFull { at } => *at,
            Fault::StacksLeft { moves } => *moves,
        }
    }

    // The second place number.
    pub fn second(&self) -> usize
        ensures { result ≡ second_of self.now }
    {
        match self {
            Fault::LineMark { column, .. } | Fault::FieldForm { column, .. } => *column,
            Fault::KeyNumber { .. } => 2,
            Fault::UnknownSymbol { place, .. } => *place,
            _ => 0,
        }
    }
}

// What a line holds in a column that is no part of its fields.
fn mark_words(column: usize) -> &'static str
    ensures { result.now ≡ mark_words column }
{
    if column == 1 {
        "the letter of the line"
    } else {
        "a newline"
    }
}

// The refusal as a sentence.
impl fmt::Display for Fault {
    ghost output = { λ f. Some (sentence_of f) };

    fn fmt<W: fmt::Write>(&self, f: &mut fmt::Formatter<W>) -> fmt::Result {
        match self {
            Fault::TextLength => write!(
                f,
                "the text is empty, too long, or not 34 bytes for each line"
            ),
            Fault::LineMark { line, column } => {
                let wanted = mark_words(*column);
                write!(f, "line {line}: column {column} does not hold {wanted}")
            }
            Fault::FieldForm { line, column } => write!(
                f,
                "line {line}: the field at column {column} is out of form"
            ),
            Fault::KeyNumber { line } => write!(
                f,
                "line {line}: the key number is not 32 plus the place of the line among the key lines"
            ),
            Fault::LineCount => write!(f, "line 1: the number of lines is not 1 + rules + keys"),
            Fault::SpaceShort => write!(f, "the text cannot be written back"),
            Fault::ProgrammeLength => write!(f, "the programme is too long"),
            Fault::WordByte { byte } => write!(
                f,
                "byte {byte} does not fit the first byte of its word"
            ),
            Fault::WordLength { byte } => write!(f, "byte {byte}: the word is too long"),
            Fault::Counts => write!(
                f,
                "a book has 1 to 32 parts, 1 to 32 keys, a start among its parts and 1 to 128 rules"
            ),
            Fault::LeftSide { rule } => write!(f, "rule {rule}: the left side is not a part"),
            Fault::EmptyRule { rule } => write!(f, "rule {rule}: the right side is empty"),
            Fault::LongRule { rule } => write!(
                f,
                "rule {rule}: the right side has more than 6 symbols"
            ),
            Fault::UnknownSymbol { rule, place } => write!(
                f,
                "rule {rule}: symbol {place} is neither a part nor a key"
            ),
            Fault::KeyForm { key } => write!(
                f,
                "key {key}: the kind and the spelling do not go together"
            ),
            Fault::Unproductive { part } => write!(
                f,
                "part {part} cannot be turned into keys alone"
            ),
            Fault::UnitCycle { part } => write!(
                f,
                "part {part} is turned into itself alone by rules of length 1"
            ),
            Fault::DraftFull { held } => write!(f, "{held} words are held, and no more fit"),
            Fault::DarkWord { held } => write!(
                f,
                "after {held} words: the word matches no lit key"
            ),
            Fault::ChartFull { held } => write!(
                f,
                "after {held} words: the chart has too few places"
            ),
            Fault::NothingHeld { .. } => write!(f, "no word is held"),
            Fault::NotWhole { held } => write!(f, "the {held} words held are not a programme"),
            Fault::StripShort { held } => write!(
                f,
                "the strip is too short for a reading of the {held} words held"
            ),
            Fault::MoveRefused { at } => write!(f, "move {at} is not allowed"),
            Fault::StacksLeft { moves } => write!(
                f,
                "after {moves} moves the stacks are not empty"
            ),
            Fault::StackFull { at } => write!(f, "move {at}: a stack is full"),
        }
    }
}

impl Error for Fault {}
