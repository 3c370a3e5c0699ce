//! What bench/ measures, as a static library for C and Rust: keys pressed on one draft and rubbed out again, round after
//! round, and first readings written. A slice crosses as a pointer and a length, and the heap's handle has no bytes.
#![tactic(auto)]

ghost use Rattle.std.specs.Prelude.{◌≡◌, ◌≢◌};
ghost use Rattle.rulebook.specs.Fault.{number_of};
ghost use Rattle.rulebook.specs.declared.faults.Fault.{Fault};
ghost use Rattle.bookreport.specs.Findings.{Accepted};
ghost use Rattle.unit.specs.Readings.{ReadingsSucceed, ReadingsRefuse};
ghost use Rattle.unit.specs.Rounds.{RoundsSucceed, RoundsRefuse};

mod failures;
mod presses;
mod readings;
#[cfg(test)]
mod tests;

pub use failures::OUT_OF_MEMORY;
use failures::number;
pub use presses::PressAnswer;
use presses::rounds;
pub use readings::ReadingSize;
use readings::readings;
use std::alloc::Global;

/// Presses the keys on a new draft of the book of a text, with 60,000 places, and rubs them out again, `count` times. The place
/// of each key that is accepted holds what the draft answers to it, and all others stay as they were; a key past the last place
/// is pressed as well. Answers 0; or the number of the fault that refuses the text, its book, or a key; or `OUT_OF_MEMORY`.
#[unsafe(no_mangle)]
pub extern "C" fn unit_rounds(
    heap: Global,
    text: &[u8],
    keys: &[u16],
    count: u32,
    answers: &mut [PressAnswer],
) -> u16
    ensures success { result ≡ 0 → RoundsSucceed text.now keys.now count answers.old answers.new }
    ensures refusal { result ≢ 0 → result ≢ OUT_OF_MEMORY → (f : Fault) × RoundsRefuse text.now keys.now count answers.old answers.new f × (result ≡ number_of f) }
    ensures out_of_memory { result ≡ OUT_OF_MEMORY → Accepted text.now × (answers.new ≡ answers.old) }
{
    number(rounds(heap, text, keys, count, answers))
}

/// Presses the keys on such a draft, rubs out to the longest prefix of them that is a programme, and writes its first reading
/// `count` times. `size` says how many words and moves the reading has; where `count` is 0, its moves are as they were. Answers
/// 0; or the number of the fault that refuses the text, its book, or a key, or 25 where no prefix is a programme; or
/// `OUT_OF_MEMORY`. Where it does not answer 0, `size` is as it was.
#[unsafe(no_mangle)]
pub extern "C" fn unit_readings(
    heap: Global,
    text: &[u8],
    keys: &[u16],
    count: u32,
    size: &mut ReadingSize,
) -> u16
    ensures success { result ≡ 0 → ReadingsSucceed text.now keys.now count size.old size.new }
    ensures refusal { result ≢ 0 → result ≢ OUT_OF_MEMORY → (f : Fault) × ReadingsRefuse text.now keys.now f × (result ≡ number_of f) }
    ensures out_of_memory { result ≡ OUT_OF_MEMORY → Accepted text.now }
    ensures unchanged { result ≢ 0 → size.new ≡ size.old }
{
    number(readings(heap, text, keys, count, size))
}
