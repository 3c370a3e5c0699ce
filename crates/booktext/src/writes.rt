// Writing: each line of a book is made by itself and then set in its place.
ghost use Rattle.std.specs.Prelude.{◌≡◌, ℕ, ◌+◌, ◌-◌, ◌*◌, ◌<◌, ◌≤◌, List, [], ◌∷◌, length, MatchResult};
ghost use Rattle.std.specs.List.{range_with_len, flat_map};
ghost use Rattle.soundbook.specs.Sounds.{sound_meaning};
ghost use Rattle.booktext.specs.Written.{put, boxed, blank, line_of, head_line, rule_line, key_line, rules_text, keys_text, lines_in, Makes, Stands};

use super::fields::set_right;
use rulebook::{Book, Fault};
use soundbook::SoundBook;
use std::ops::Range;

// The field of a number, or a blank one if the number has more than four digits.
fn field_of(number: u16) -> [u8; 4]
    ensures { result ≡ boxed number }
{
    let mut field = [b' '; 4];
    // What is too wide leaves the field blank.
    let _ = set_right(&mut field, number);
    field
}

// A line without fields.
fn blank_line(letter: u8) -> [u8; 34]
    ensures { result ≡ line_of letter (blank ∷ blank ∷ blank ∷ blank ∷ blank ∷ blank ∷ blank ∷ blank ∷ []) }
{
    let mut line = [b' '; 34];
    line[0] = letter;
    line[33] = b'\n';
    line
}

// Puts bytes in place of those from a place on.
fn put(space: &mut [u8], from: usize, bytes: &[u8])
    requires { from + length bytes.now ≤ length space.old }
    ensures { space.new ≡ put space.old from bytes.now }
{
    space[from..from + bytes.len()].copy_from_slice(bytes);
}

// Sets a number into a field of a line; fields count from 0.
fn set_field(line: &mut [u8; 34], place: u16, number: u16)
    requires { place < 8 }
    ensures { line.new ≡ put line.old (1 + 4 * place) (boxed number) }
{
    put(line, 1 + 4 * usize::from(place), &field_of(number));
}

// The first line.
fn head_line<B: Book>(book: &B) -> [u8; 34]
    ensures { result ≡ head_line (B.meaning book.now) }
{
    let mut line = blank_line(b'H');
    set_field(&mut line, 0, book.parts());
    set_field(&mut line, 1, book.keys());
    set_field(&mut line, 2, book.start());
    set_field(&mut line, 3, book.rules());
    line
}

// The line of a rule.
fn rule_line<B: Book>(book: &B, rule: u16) -> [u8; 34]
    ensures { result ≡ rule_line (B.meaning book.now).grammar rule }
{
    let size = book.size(rule);
    let mut line = blank_line(b'R');
    set_field(&mut line, 0, book.left(rule));
    set_field(&mut line, 1, size);
    // By place: a book tells the symbols of a rule one at a time.
    for at in 0..size.min(6) {
        set_field(&mut line, 2 + at, book.symbol(rule, at));
    }
    line
}

// The line of a key.
fn key_line<B: Book>(book: &B, key: u16) -> [u8; 34]
    ensures { result ≡ key_line (B.meaning book.now).forms key }
{
    let mut line = blank_line(b'K');
    set_field(&mut line, 0, key);
    set_field(&mut line, 1, book.kind(key));
    // By place: a book tells the bytes of a spelling one at a time.
    for at in 0..book.spelling_len(key).min(24) {
        line[9 + usize::from(at)] = book.spelling_byte(key, at);
    }
    line
}

// Sets the lines that are made of some numbers, one after another from a line of the space on.
fn set_lines<B: Book, F: Fn(&B, u16) -> [u8; 34]>(
    book: &B,
    space: &mut [u8],
    top: usize,
    numbers: Range<u16>,
    line: F,
)
    requires callable { F.IsAlwaysCallable line }
    requires upward { numbers.start ≤ numbers.end }
    requires room { 34 * (top + (numbers.end - numbers.start)) ≤ length space.old }
    ensures { (f : ℕ → List ℕ)
        → Makes (λ n l. (b : _) × F.post line b n l × (b.now ≡ book.now)) f
        → space.new ≡ put space.old (34 * top) (flat_map f (range_with_len numbers.start (numbers.end - numbers.start))) }
{
    // By number, from which both the line and its place in the space follow.
    for number in numbers.start..numbers.end {
        let place = top + usize::from(number - numbers.start);
        put(space, 34 * place, &line(book, number));
    }
}

// How many bytes the text of a book has.
pub fn written_len<B: Book>(book: &B) -> usize
    ensures { result ≡ 34 * lines_in (B.meaning book.now) }
{
    34 * (1 + usize::from(book.rules()) + usize::from(book.keys()))
}

// Writes the text of a book at the front of the space; the bytes past it stay.
pub fn write(book: &SoundBook, space: &mut [u8]) -> Result<usize, Fault>
    ensures { MatchResult result (λ n. Stands (sound_meaning book.now) space.old space.new n) (λ e. (space.new ≡ space.old) × (e ≡ Fault.SpaceShort) × (length space.old < 34 * lines_in (sound_meaning book.now))) }
{
    let len = written_len(book);
    if space.len() < len {
        return Err(Fault::SpaceShort);
    }
    put(space, 0, &head_line(book));
    set_lines(book, space, 1, 1..1 + book.rules(), rule_line);
    let top = 1 + usize::from(book.rules());
    set_lines(book, space, top, 33..33 + book.keys(), key_line);
    Ok(len)
}
