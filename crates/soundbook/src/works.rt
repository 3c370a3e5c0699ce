// The works book: the book that the unit carries as a constant table.
ghost use Rattle.soundbook.specs.Works.{works};

use super::rows::{KeyRow, RuleRow};
use super::shorts::Short;
use super::tables::TableOf;
use rulebook::{Book, KeyKind};

// Each length is written beside its array: a constant may call no function.
const RULES: [RuleRow; 5] = [
    RuleRow {
        left: 1,
        body: Short {
            len: 1,
            items: [2, 0, 0, 0, 0, 0],
        },
    },
    RuleRow {
        left: 1,
        body: Short {
            len: 2,
            items: [1, 2, 0, 0, 0, 0],
        },
    },
    RuleRow {
        left: 2,
        body: Short {
            len: 2,
            items: [33, 35, 0, 0, 0, 0],
        },
    },
    RuleRow {
        left: 2,
        body: Short {
            len: 2,
            items: [34, 35, 0, 0, 0, 0],
        },
    },
    RuleRow {
        left: 2,
        body: Short {
            len: 4,
            items: [36, 35, 1, 37, 0, 0],
        },
    },
];

const KEYS: [KeyRow; 5] = [
    KeyRow {
        kind: KeyKind::Full,
        spelling: Short {
            len: 5,
            items: *b"press\0\0\0\0\0\0\0\0\0\0\0\0\0\0\0\0\0\0\0",
        },
    },
    KeyRow {
        kind: KeyKind::Full,
        spelling: Short {
            len: 4,
            items: *b"hold\0\0\0\0\0\0\0\0\0\0\0\0\0\0\0\0\0\0\0\0",
        },
    },
    KeyRow {
        kind: KeyKind::Figure,
        spelling: Short {
            len: 0,
            items: [0; 24],
        },
    },
    KeyRow {
        kind: KeyKind::Full,
        spelling: Short {
            len: 6,
            items: *b"repeat\0\0\0\0\0\0\0\0\0\0\0\0\0\0\0\0\0\0",
        },
    },
    KeyRow {
        kind: KeyKind::Full,
        spelling: Short {
            len: 3,
            items: *b"end\0\0\0\0\0\0\0\0\0\0\0\0\0\0\0\0\0\0\0\0\0",
        },
    },
];

const WORKS: TableOf<5, 5> = TableOf {
    parts: 2,
    start: 1,
    rules: Short {
        len: 5,
        items: RULES,
    },
    keys: Short {
        len: 5,
        items: KEYS,
    },
};

// The works book as a make of book.
#[derive(Clone, Copy)]
pub struct WorksBook;

// Each question is passed on to the table, since no derive does that.
#[tactic(auto, unfolding(crate::specs::Tables::meaning_of))]
impl Book for WorksBook {
    ghost meaning = { λ _. works };

    fn parts(&self) -> u16 {
        WORKS.parts()
    }

    fn keys(&self) -> u16 {
        WORKS.keys()
    }

    fn start(&self) -> u16 {
        WORKS.start()
    }

    fn rules(&self) -> u16 {
        WORKS.rules()
    }

    fn left(&self, rule: u16) -> u16 {
        WORKS.left(rule)
    }

    fn size(&self, rule: u16) -> u16 {
        WORKS.size(rule)
    }

    fn symbol(&self, rule: u16, at: u16) -> u16 {
        WORKS.symbol(rule, at)
    }

    fn kind(&self, key: u16) -> u16 {
        WORKS.kind(key)
    }

    fn spelling_len(&self, key: u16) -> u16 {
        WORKS.spelling_len(key)
    }

    fn spelling_byte(&self, key: u16, at: u16) -> u8 {
        WORKS.spelling_byte(key, at)
    }
}
