// Lines in which numbers stand in columns.
#![tactic(auto, using(crate::proofs::Padding::padded_right))]

ghost use Rattle.std.specs.Prelude.{◌≡◌, IfOk, string_bytes};
ghost use Rattle.lines.specs.Columns.{right_in, told_fault, told_word, told_whole};

use rulebook::Fault;
use std::alloc::{AllocError, Global};

// A number right-justified in so many columns; one that has more digits takes a column for each. This makes text of any
// length, while the fields of a book's text are columns that are lent, and refuse such a number.
pub fn right(heap: Global, number: usize, width: usize) -> Result<String, AllocError>
    ensures { IfOk result (λ s. string_bytes s ≡ right_in width number) }
{
    format!(in heap; "{number:width$}")
}

// The line by which a refusal is told: its four numbers in widths 4, 4, 6 and 6.
pub fn fault_line(heap: Global, fault: &Fault) -> Result<String, AllocError>
    ensures { IfOk result (λ s. string_bytes s ≡ told_fault fault.now) }
{
    let number = fault.number();
    let layer = fault.layer();
    let first = fault.first();
    let second = fault.second();
    format!(in heap; "fault{number:4}{layer:4}{first:6}{second:6}\n")
}

// The line by which an accepted word is told: its number, how many items there are then, and how many keys are lit, in
// widths 4, 6 and 4.
pub fn word_line(heap: Global, number: usize, items: usize, lit: u32) -> Result<String, AllocError>
    ensures { IfOk result (λ s. string_bytes s ≡ told_word number items lit) }
{
    format!(in heap; "{number:4}{items:6}{lit:4}\n")
}

// The line by which a programme is told to be whole: how many moves its first reading has, in width 6.
pub fn whole_line(heap: Global, moves: usize) -> Result<String, AllocError>
    ensures { IfOk result (λ s. string_bytes s ≡ told_whole moves) }
{
    format!(in heap; "whole{moves:6}\n")
}
