// Columns of a text, where they stand.
ghost use Rattle.std.specs.Prelude.{◌≡◌, ◌+◌, ◌*◌, take, drop};
ghost use Rattle.booktext.specs.Text.{middle_of, field_of, spelling_field, spelled as spelled_in};

// The columns from a place on: so many, or as many as the text has.
fn columns(text: &[u8], from: usize, count: usize) -> &[u8]
    ensures { result.now ≡ take count (drop from text.now) }
{
    let rest = text.get(from..).unwrap_or(&[]);
    &rest[..count.min(rest.len())]
}

// The columns of a line; lines count from 0.
pub(super) fn columns_of(text: &[u8], line: u32) -> &[u8]
    ensures { result.now ≡ take 34 (drop (34 * line) text.now) }
{
    // `as`: no From leads from u32 to usize.
    columns(text, 34 * line as usize, 34)
}

// The columns between the letter and the newline of a line.
pub(super) fn middle(text: &[u8], line: u32) -> &[u8]
    ensures { result.now ≡ middle_of text.now line }
{
    // `as`: no From leads from u32 to usize.
    columns(text, 34 * line as usize + 1, 32)
}

// A field of four of those; fields count from 0.
pub(super) fn field(middle: &[u8], place: u16) -> &[u8]
    ensures { result.now ≡ field_of middle.now place }
{
    columns(middle, 4 * usize::from(place), 4)
}

// The field of a spelling among those.
pub(super) fn spelling_field(middle: &[u8]) -> &[u8]
    ensures { result.now ≡ spelling_field middle.now }
{
    columns(middle, 8, 24)
}

// The bytes before the first space.
pub(super) fn spelled(columns: &[u8]) -> &[u8]
    ensures { result.now ≡ spelled_in columns.now }
{
    let space = columns.iter().position(|byte| *byte == b' ');
    &columns[..space.unwrap_or(columns.len())]
}
