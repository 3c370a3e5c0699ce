// Files that may be missing, and the front of what a reader has left.
#![tactic(auto)]

#[cfg(test)]
mod tests;

ghost use Rattle.std.specs.Prelude.{◌≡◌, ◌≢◌, ◌≤◌, take, vec_len, IfOk, IfErr, IfSome};
ghost use Rattle.std.specs.IoError.{error_kind};
ghost use Rattle.std.specs.declared.io.ErrorKind.TheVariants.{Interrupted};
ghost use Rattle.files.specs.Present.{Present};

use std::alloc::Global;
use std::io;
use std::io::{ErrorKind, Read};

// What was opened or read, or none where there is no such file; every other error stays.
pub fn if_present<T: Drop>(opened: io::Result<T>) -> io::Result<Option<T>>
    ensures { Present opened result }
{
    match opened {
        Ok(value) => Ok(Some(value)),
        Err(error) if error.kind() == ErrorKind::NotFound => Ok(None),
        Err(error) => Err(error),
    }
}

// The first bytes that a reader has left, at most so many. A read that is interrupted is made again.
pub fn front_of<R: Read + Drop>(heap: Global, reader: R, most: usize) -> io::Result<Vec<u8>>
    ensures few { IfOk result (λ v. vec_len v ≤ most) }
    ensures bytes { IfSome (R.remaining reader) (λ xs. IfOk result (λ v. v.items ≡ take most xs)) }
    ensures retried { IfErr result (λ e. error_kind e ≢ Interrupted) }
{
    let mut bytes = Vec::new(heap);
    reader.take(most as u64).read_to_end(&mut bytes)?;
    // A reader that says nothing of its bytes is not known to stop there.
    bytes.truncate(most);
    Ok(bytes)
}
