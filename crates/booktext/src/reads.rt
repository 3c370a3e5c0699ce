// Reading: the questions that are asked of a text, in their order; the first that is answered no is the refusal.
ghost use Rattle.std.specs.Prelude.{◌≡◌, ◌+◌, ◌-◌, ◌*◌, ◌↔◌, ◌++◌, [], ◌∷◌, length, take, IsTrue, IfOk, IfErr, slice_index};
ghost use Rattle.std.specs.List.{range_with_len, flat_map};
ghost use Rattle.rulebook.specs.Fault.{layer_of};
ghost use Rattle.booktext.specs.Columns.{value};
ghost use Rattle.booktext.specs.Text.{field_of, number_at};
ghost use Rattle.booktext.specs.Form.{Asked, Sized, Spelling, asks_length, asks_mark, asks_number, asks_blank, asks_lines, numbers, blanks, rule_fields, key_fields, head_questions, rule_questions, key_questions, lines_of, questions};

use super::fields::{is_blank, number};
use super::lines::{columns_of, field, spelled, spelling_field};
use super::texts::TextBook;
use super::writes::written_len;
use rulebook::{Book, Fault};

// A line between its letter and its newline, and its number, counted from 0.
#[derive(Clone, Copy)]
struct Line<'t> {
    number: u32,
    middle: &'t [u8],
}

// The number of a line as refusals tell it, counted from 1.
fn told_number(line: u32) -> usize
    ensures { result ≡ line + 1 }
{
    // `as`: no From leads from u32 to usize.
    line as usize + 1
}

// The refusal of another byte in a column of a line; columns count from 1.
fn line_mark(line: u32, column: usize) -> Fault
    ensures { result ≡ Fault.LineMark (line + 1) column }
{
    Fault::LineMark {
        line: told_number(line),
        column,
    }
}

// Whether columns hold a spelling with only spaces after it.
fn is_spelling(columns: &[u8]) -> bool
    ensures { IsTrue result ↔ Spelling columns.now }
{
    let spelling = spelled(columns);
    let (_, rest) = columns.split_at(spelling.len());
    !spelling.contains(&b'\n') && is_blank(rest)
}

impl<'t> Line<'t> {
    // The line of a number, by the columns after its letter, if its newline is there.
    fn read(number: u32, rest: &'t [u8]) -> Result<Line<'t>, Fault>
        ensures asked { Asked (asks_mark number 34 10 (slice_index rest.now 32) ∷ []) result }
        ensures is { IfOk result (λ l. (l.number ≡ number) × (l.middle.now ≡ take 32 rest.now)) }
    {
        match rest.split_at_checked(32) {
            Some((middle, [b'\n', ..])) => Ok(Line { number, middle }),
            _ => Err(line_mark(number, 34)),
        }
    }

    // The refusal of a field.
    fn field_form(&self, place: u16) -> Fault
        ensures { result ≡ Fault.FieldForm (self.now.number + 1) (2 + 4 * place) }
    {
        Fault::FieldForm {
            line: told_number(self.number),
            column: 2 + 4 * usize::from(place),
        }
    }

    // A field that must be a number.
    fn number_at(&self, place: u16) -> Result<u16, Fault>
        ensures asked { Asked (asks_number self.now.number place (field_of self.now.middle.now place) ∷ []) result }
        ensures is { IfOk result (λ v. v ≡ value (field_of self.now.middle.now place)) }
    {
        number(field(self.middle, place)).ok_or(self.field_form(place))
    }

    // The fields from one to before another must be numbers.
    fn numbers(&self, from: u16, past: u16) -> Result<(), Fault>
        ensures { Asked (numbers self.now.number self.now.middle.now from (past - from)) result }
    {
        for place in from..past {
            self.number_at(place)?;
        }
        Ok(())
    }

    // A field that must be blank.
    fn blank_at(&self, place: u16) -> Result<(), Fault>
        ensures { Asked (asks_blank self.now.number place (field_of self.now.middle.now place) ∷ []) result }
    {
        if is_blank(field(self.middle, place)) {
            Ok(())
        } else {
            Err(self.field_form(place))
        }
    }

    // The fields from one on must be blank.
    fn blanks(&self, from: u16) -> Result<(), Fault>
        ensures { Asked (blanks self.now.number self.now.middle.now from (8 - from)) result }
    {
        for place in from..8 {
            self.blank_at(place)?;
        }
        Ok(())
    }

    // The fields of the first line.
    fn head_fields(&self) -> Result<(), Fault>
        ensures { Asked (numbers self.now.number self.now.middle.now 0 4 ++ blanks self.now.number self.now.middle.now 4 4) result }
    {
        self.numbers(0, 4)?;
        self.blanks(4)
    }

    // The fields of a rule.
    fn rule_fields(&self) -> Result<(), Fault>
        ensures { Asked (rule_fields self.now.number self.now.middle.now) result }
    {
        self.number_at(0)?;
        let size = self.number_at(1)?;
        let past = 2 + size.min(6);
        self.numbers(2, past)?;
        self.blanks(past)
    }

    // The fields of the key at a place, counted from 0.
    fn key_fields(&self, place: u16) -> Result<(), Fault>
        ensures { Asked (key_fields self.now.number self.now.middle.now place) result }
    {
        let key = self.number_at(0)?;
        self.number_at(1)?;
        if !is_spelling(spelling_field(self.middle)) {
            // The spelling begins where a third number would.
            return Err(self.field_form(2));
        }
        if u32::from(key) == 33 + u32::from(place) {
            Ok(())
        } else {
            Err(Fault::KeyNumber {
                line: told_number(self.number),
            })
        }
    }
}

// The length must be a multiple of 34 in bounds.
fn whole(text: &[u8]) -> Result<(), Fault>
    ensures { Asked (asks_length (length text.now) ∷ []) result }
{
    if text.len() % 34 == 0 && (34..=5474).contains(&text.len()) {
        Ok(())
    } else {
        Err(Fault::TextLength)
    }
}

// The first line. Each kind of line has its function: the letter is part of the pattern, and the fields differ.
fn head_line(text: &[u8]) -> Result<(), Fault>
    ensures { Asked (head_questions text.now) result }
{
    match columns_of(text, 0) {
        [b'H', rest @ ..] => Line::read(0, rest)?.head_fields(),
        _ => Err(line_mark(0, 1)),
    }
}

// The line of a rule.
fn rule_line(text: &[u8], line: u32) -> Result<(), Fault>
    ensures { Asked (rule_questions text.now line) result }
{
    match columns_of(text, line) {
        [b'R', rest @ ..] => Line::read(line, rest)?.rule_fields(),
        _ => Err(line_mark(line, 1)),
    }
}

// The line of the key at a place, counted from 0, after the lines of the rules.
fn key_line(text: &[u8], rules: u16, place: u16) -> Result<(), Fault>
    ensures { Asked (key_questions text.now (1 + rules) place) result }
{
    let line = 1 + u32::from(rules) + u32::from(place);
    match columns_of(text, line) {
        [b'K', rest @ ..] => Line::read(line, rest)?.key_fields(place),
        _ => Err(line_mark(line, 1)),
    }
}

// The text must have a line for each rule and key after the first.
fn counted(book: &TextBook) -> Result<(), Fault>
    ensures { Asked (asks_lines (length book.now.text.now) (lines_of book.now.text.now) ∷ []) result }
{
    if book.text.len() == written_len(book) {
        Ok(())
    } else {
        Err(Fault::LineCount)
    }
}

// The lines of the rules. The lines of the keys have a function of their own, since a key is read by its place as well.
fn rule_lines(book: &TextBook) -> Result<(), Fault>
    ensures { Asked (flat_map (rule_questions book.now.text.now) (range_with_len 1 (number_at book.now.text.now 0 3))) result }
{
    for line in 1..1 + u32::from(book.rules()) {
        rule_line(book.text, line)?;
    }
    Ok(())
}

// The lines of the keys.
fn key_lines(book: &TextBook) -> Result<(), Fault>
    ensures { Asked (flat_map (key_questions book.now.text.now (1 + number_at book.now.text.now 0 3)) (range_with_len 0 (number_at book.now.text.now 0 1))) result }
{
    let rules = book.rules();
    for place in 0..book.keys() {
        key_line(book.text, rules, place)?;
    }
    Ok(())
}

impl<'a> TextBook<'a> {
    // The book in a text, if the text is in form.
    pub fn read(text: &'a [u8]) -> Result<TextBook<'a>, Fault>
        ensures asked { Asked (questions text.now) result }
        ensures is { IfOk result (λ b. (b.text.now ≡ text.now) × Sized text.now) }
        ensures layer { IfErr result (λ e. layer_of e ≡ 1) }
    {
        whole(text)?;
        head_line(text)?;
        let book = TextBook { text };
        counted(&book)?;
        rule_lines(&book)?;
        key_lines(&book)?;
        Ok(book)
    }
}
