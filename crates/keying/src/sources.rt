//! Where the text of a programme comes from, and all that keyin prints.
ghost use Rattle.std.specs.Prelude.{◌≡◌, ◌≢◌, ◌≤◌, ◌⊎◌, take, vec_len, string_bytes, IfOk, IfErr, IfSome};
ghost use Rattle.std.specs.IoError.{error_kind};
ghost use Rattle.std.specs.declared.io.ErrorKind.TheVariants.{Interrupted};
ghost use Rattle.keying.specs.Keyed.{Keyed};
ghost use Rattle.keying.specs.Sources.{BookRefused, BookAccepted};

use super::programmes::programme_lines;
use bookreport::sound_book;
use files::front_of;
use lines::fault_line;
use std::alloc::Global;
use std::io;
use std::io::Read;

// The longest text of a programme, and one byte more: a longer one is refused without reading it all.
const MOST: usize = 4097;

/// The text that a reader has left, 4,097 bytes of it at most. An error is the reader's, or want of memory; one that only
/// interrupts is none.
pub fn read_programme<R: Read + Drop>(heap: Global, reader: R) -> io::Result<Vec<u8>>
    ensures few { IfOk result (λ v. vec_len v ≤ 4097) }
    ensures bytes { IfSome (R.remaining reader) (λ xs. IfOk result (λ v. v.items ≡ take 4097 xs)) }
    ensures retried { IfErr result (λ e. error_kind e ≢ Interrupted) }
{
    front_of(heap, reader, MOST)
}

/// All that keyin prints, of the text of a book and of the programme that a reader has left. The book is read and checked
/// first: where it is refused, its fault is told, and nothing is read.
pub fn keyed<R: Read>(heap: Global, book: &[u8], programme: &mut R) -> io::Result<String>
    ensures cases { BookRefused book.now programme.old programme.new result ⊎ BookAccepted book.now result }
    ensures bytes { IfSome (R.remaining programme.old) (λ xs. IfOk result (λ s. Keyed book.now (take 4097 xs) (string_bytes s))) }
    ensures retried { IfErr result (λ e. error_kind e ≢ Interrupted) }
{
    match sound_book(book) {
        Ok(book) => {
            let text = read_programme(heap, programme)?;
            Ok(programme_lines(heap, &book, text.as_slice())?)
        }
        Err(fault) => Ok(fault_line(heap, &fault)?),
    }
}
