// Makes books by chance, many of them sound, recursive and ambiguous.
use super::books::{FIRST_KEY, Made, Rule};
use super::numbers::Numbers;
use std::alloc::{AllocError, Global};

// How many parts or keys a book has: 1 to 6, and now and then more.
fn some_count(numbers: &mut Numbers) -> u16 {
    if numbers.one_in(20) {
        numbers.between(7, 9)
    } else {
        numbers.between(1, 6)
    }
}

// The length of a right side: 1 to 6, mostly 1 to 3.
fn some_length(numbers: &mut Numbers) -> u16 {
    match numbers.below(16) {
        0..=4 => 1,
        5..=10 => 2,
        11..=13 => 3,
        _ => numbers.between(4, 6),
    }
}

// A symbol of a plain rule: mostly a key, since a book is sound only if every part comes to an end.
fn plain_symbol(numbers: &mut Numbers, made: &Made) -> u16 {
    if numbers.one_in(8) {
        numbers.between(1, made.parts)
    } else {
        numbers.between(FIRST_KEY, made.last_key())
    }
}

// A symbol of another rule: mostly a part, and often that of the left side.
fn other_symbol(numbers: &mut Numbers, made: &Made, left: u16) -> u16 {
    match numbers.below(8) {
        0..=2 => numbers.between(FIRST_KEY, made.last_key()),
        3..=4 => left,
        _ => numbers.between(1, made.parts),
    }
}

// A plain rule for a part.
fn plain_rule(
    heap: Global,
    numbers: &mut Numbers,
    made: &Made,
    left: u16,
) -> Result<Rule, AllocError> {
    let mut body = Vec::new(heap);
    for _ in 0..some_length(numbers) {
        body.push(plain_symbol(numbers, made))?;
    }
    Ok(Rule { left, body })
}

// Another rule, for any part.
fn other_rule(heap: Global, numbers: &mut Numbers, made: &Made) -> Result<Rule, AllocError> {
    let left = numbers.between(1, made.parts);
    let mut body = Vec::new(heap);
    for _ in 0..some_length(numbers) {
        body.push(other_symbol(numbers, made, left))?;
    }
    Ok(Rule { left, body })
}

// Adds up to two rules that are not plain.
fn add_others(heap: Global, numbers: &mut Numbers, made: &mut Made) -> Result<(), AllocError> {
    for _ in 0..numbers.below(3) {
        let rule = other_rule(heap, numbers, made)?;
        made.rules.push(rule)?;
    }
    Ok(())
}

// A book: a plain rule for each part, and some others between them.
pub fn some_book(heap: Global, numbers: &mut Numbers) -> Result<Made, AllocError> {
    let parts = some_count(numbers);
    let mut made = Made {
        parts,
        keys: some_count(numbers),
        start: numbers.between(1, parts),
        rules: Vec::new(heap),
    };
    for part in 1..=parts {
        add_others(heap, numbers, &mut made)?;
        let rule = plain_rule(heap, numbers, &made, part)?;
        made.rules.push(rule)?;
    }
    add_others(heap, numbers, &mut made)?;
    Ok(made)
}
