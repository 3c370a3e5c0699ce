// Rows of fixed memory: a rule, and the form of a key.
use super::shorts::Short;
use rulebook::KeyKind;

// A rule of at most six symbols.
#[derive(Clone, Copy)]
pub struct RuleRow {
    pub left: u16,
    pub body: Short<u16, 6>,
}

impl RuleRow {
    // no rule
    pub const BLANK: RuleRow = RuleRow {
        left: 0,
        body: Short {
            len: 0,
            items: [0; 6],
        },
    };
}

// The form of a key, spelled by at most twenty-four bytes.
#[derive(Clone, Copy)]
pub struct KeyRow {
    pub kind: KeyKind,
    pub spelling: Short<u8, 24>,
}

impl KeyRow {
    // no key
    pub const BLANK: KeyRow = KeyRow {
        kind: KeyKind::Full,
        spelling: Short {
            len: 0,
            items: [0; 24],
        },
    };
}
