// Where the text of a book comes from.
ghost use Rattle.std.specs.Prelude.{◌≡◌, ◌≢◌, ◌≤◌, [], take, vec_len, Err, IfOk, IfErr, IfSome, IsOkAnd};
ghost use Rattle.std.specs.IoError.{error_kind};
ghost use Rattle.std.specs.declared.io.ErrorKind.TheVariants.{NotFound, Interrupted};

use files::{front_of, if_present};
use std::alloc::Global;
use std::io;
use std::io::Read;

// The longest text of a book, and one byte more: a longer one is refused without reading it all.
const MOST: usize = 5475;

// The text in a file that was to be opened; a missing file counts as empty.
pub fn read_book<R: Read + Drop>(heap: Global, opened: io::Result<R>) -> io::Result<Vec<u8>>
    ensures few { IfOk result (λ v. vec_len v ≤ 5475) }
    ensures bytes { IfOk opened (λ file. IfSome (R.remaining file) (λ xs. IfOk result (λ v. v.items ≡ take 5475 xs))) }
    ensures missing { IfErr opened (λ error. error_kind error ≡ NotFound → IsOkAnd result (λ v. v.items ≡ [])) }
    ensures retried { IfOk opened (λ _. IfErr result (λ error. error_kind error ≢ Interrupted)) }
    ensures other { IfErr opened (λ error. (error_kind error ≡ NotFound → ⊥) → result ≡ Err error) }
{
    match if_present(opened)? {
        Some(file) => front_of(heap, file, MOST),
        None => Ok(Vec::new(heap)),
    }
}
