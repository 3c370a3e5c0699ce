//! Both calls, on the book 1 → 33, 1 → 1 1.
use super::{PressAnswer, ReadingSize, unit_readings, unit_rounds};
use std::test::Fail;

const BOOK: &[u8] =
    b"H   1   1   1   2                \nR   1   1  33                    \nR   1   2   1   1                \nK  33   0a                       \n";

#[test]
fn rounds_answer_each_key(rt: HostRuntime) -> Result<(), Fail> {
    let mut answers = [PressAnswer { items: 0, lit: 0 }; 3];
    let number = unit_rounds(rt.alloc(), BOOK, &[33, 33], 2, &mut answers);
    assert_eq!(rt; number, 0);
    assert_eq!(rt; answers[1].items, 6);
    assert_eq!(rt; answers[1].lit, 1);
    assert_eq!(rt; answers[2].items, 0);
    Ok(())
}

#[test]
fn readings_count_words_and_moves(rt: HostRuntime) -> Result<(), Fail> {
    let mut size = ReadingSize { words: 0, moves: 0 };
    let number = unit_readings(rt.alloc(), BOOK, &[33, 33, 33], 1, &mut size);
    assert_eq!(rt; number, 0);
    assert_eq!(rt; size.words, 3);
    assert_eq!(rt; size.moves, 13);
    Ok(())
}
