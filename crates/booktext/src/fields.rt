// Numbers in columns: right-justified, with blanks before the first digit and no leading zero.
ghost use Rattle.std.specs.Prelude.{◌≡◌, ℕ, ◌+◌, ◌*◌, ◌/◌, ◌%◌, ◌^◌, ◌<◌, ◌≤◌, ◌↔◌, length, IsTrue, IsOk, OnOk, OnErr, MatchOption, ◌≢◌};
ghost use Rattle.booktext.specs.Columns.{Blank, mark as mark_of, shown};

// A number has more digits than there are columns.
#[derive(Clone, Copy, Debug, PartialEq, Eq)]
pub struct TooWide;

// The number up to a column that must hold a digit, after the number up to the column before it.
fn figure(before: u16, byte: u8) -> Option<u16>
    requires { before < 1000 }
    ensures { MatchOption result ((m : ℕ) → 48 + m % 10 ≢ byte) (λ m. (m / 10 ≡ before) × (48 + m % 10 ≡ byte)) }
{
    match byte {
        b'0'..=b'9' => Some(before * 10 + u16::from(byte - b'0')),
        _ => None,
    }
}

// The number up to a column that may be blank before the first digit.
fn column(before: u16, byte: u8) -> Option<u16>
    requires { before < 1000 }
    ensures { MatchOption result ((m : ℕ) → m / 10 ≡ before → mark_of m ≢ byte) (λ m. (m / 10 ≡ before) × (mark_of m ≡ byte)) }
{
    if byte == b' ' {
        return (before == 0).then_some(0);
    }
    figure(before, byte).filter(|number| *number != 0)
}

// The number that four columns show.
pub fn number(field: &[u8]) -> Option<u16>
    ensures { MatchOption result ((v : ℕ) → v < 10000 → shown 4 v ≢ field.now) (λ v. (v < 10000) × (shown 4 v ≡ field.now)) }
{
    let [a, b, c, d] = field else {
        return None;
    };
    let thousands = column(0, *a)?;
    let hundreds = column(thousands, *b)?;
    let tens = column(hundreds, *c)?;
    figure(tens, *d)
}

// Whether the columns are all blank.
pub(super) fn is_blank(columns: &[u8]) -> bool
    ensures { IsTrue result ↔ Blank columns.now }
{
    columns.iter().all(|byte| *byte == b' ')
}

// Whether so many columns hold all the digits of a number, one more than its logarithm.
fn fits(number: u16, columns: usize) -> bool
    ensures { IsTrue result ↔ ((1 ≤ columns) × (number < 10 ^ columns)) }
{
    // `as`: no From leads from u32 to usize.
    (number.max(1).ilog10() as usize) < columns
}

// The last digit of a number.
fn last_figure(number: u16) -> u8
    ensures { result ≡ 48 + number % 10 }
{
    // `as`: below 10 it loses nothing, as is proved, and a `try_from` would have to be unwrapped.
    b'0' + (number % 10) as u8
}

// The column up to which the number is this: blank before the first digit.
fn mark(up_to: u16) -> u8
    ensures { result ≡ mark_of up_to }
{
    if up_to == 0 { b' ' } else { last_figure(up_to) }
}

// Sets a number right-justified into the columns; one with more digits than columns is refused, and the columns stay.
pub fn set_right(columns: &mut [u8], number: u16) -> Result<(), TooWide>
    ensures fitting { IsOk result ↔ ((1 ≤ length columns.old) × (number < 10 ^ length columns.old)) }
    ensures set { OnOk result (columns.new ≡ shown (length columns.old) number) }
    ensures kept { OnErr result (columns.new ≡ columns.old) }
{
    if !fits(number, columns.len()) {
        return Err(TooWide);
    }
    let last = columns.len() - 1;
    columns[last] = last_figure(number);
    let mut rest = number / 10;
    // By index: after `iter_mut` and `rev` a proof does not know what the columns hold.
    for i in (0..last).rev() {
        columns[i] = mark(rest);
        rest /= 10;
    }
    Ok(())
}
