// A book held in fixed memory.
ghost use Rattle.std.specs.Prelude.{◌≡◌};
ghost use Rattle.language.specs.Book.{rule as rule_in, form as form_in};
ghost use Rattle.soundbook.specs.Rows.{rule_of, form_of};
ghost use Rattle.soundbook.specs.Tables.{meaning_of};

use super::rows::{KeyRow, RuleRow};
use super::shorts::Short;
use rulebook::Book;

// A book of at most R rules and K keys.
#[derive(Clone, Copy)]
pub struct TableOf<const R: usize, const K: usize> {
    pub parts: u16,
    pub start: u16,
    pub rules: Short<RuleRow, R>,
    pub keys: Short<KeyRow, K>,
}

// A book of at most 128 rules and 32 keys.
pub type Table = TableOf<128, 32>;

impl<const R: usize, const K: usize> TableOf<R, K> {
    // A rule, or the blank row.
    fn rule(&self, rule: u16) -> RuleRow
        ensures { rule_of result ≡ rule_in (meaning_of self.now).grammar.rules rule }
    {
        self.rules.numbered(rule, 1, RuleRow::BLANK)
    }

    // The form of a key, or the blank row.
    fn key(&self, key: u16) -> KeyRow
        ensures { form_of result ≡ form_in (meaning_of self.now).forms key }
    {
        self.keys.numbered(key, 33, KeyRow::BLANK)
    }
}

#[tactic(auto, using(crate::proofs::Listing::items_long, crate::proofs::Listing::read_long), unfolding(crate::specs::Tables::meaning_of))]
impl<const R: usize, const K: usize> Book for TableOf<R, K> {
    ghost meaning = { meaning_of };

    fn parts(&self) -> u16 {
        self.parts
    }

    fn keys(&self) -> u16 {
        self.keys.len
    }

    fn start(&self) -> u16 {
        self.start
    }

    fn rules(&self) -> u16 {
        self.rules.len
    }

    fn left(&self, rule: u16) -> u16 {
        self.rule(rule).left
    }

    fn size(&self, rule: u16) -> u16 {
        self.rule(rule).body.len
    }

    fn symbol(&self, rule: u16, at: u16) -> u16 {
        self.rule(rule).body.item(at, 0)
    }

    fn kind(&self, key: u16) -> u16 {
        u16::from(self.key(key).kind)
    }

    fn spelling_len(&self, key: u16) -> u16 {
        self.key(key).spelling.len
    }

    fn spelling_byte(&self, key: u16, at: u16) -> u8 {
        self.key(key).spelling.item(at, 0)
    }
}
