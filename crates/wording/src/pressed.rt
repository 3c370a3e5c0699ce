// Words that hold numbers of keys: one pressed key, or a set.
ghost use Rattle.std.specs.Prelude.{◌≡◌, ℕ, ◌&&◌, ◌||◌, ◌==◌};
ghost use Rattle.language.specs.Words.{only};
ghost use Rattle.rulebook.specs.Sets.{has};
ghost use Rattle.wording.specs.Sets.{word_of};

use super::words::{Word, is_key_number};
use rulebook::SymbolSet;

// A pressed key: it matches that key alone.
#[derive(Clone, Copy, Debug, PartialEq, Eq)]
pub struct Pressed {
    pub key: u16,
}

impl Word for Pressed {
    ghost tells = { λ w. only w.key };

    fn matches(&self, key: u16) -> bool {
        is_key_number(key) && key == self.key
    }
}

// The set of keys that some word matches, in which form lists hold their words.
#[derive(Clone, Copy, Debug, PartialEq, Eq)]
pub struct Matched {
    keys: SymbolSet,
}

impl Matched {
    // no key
    pub const NONE: Matched = Matched {
        keys: SymbolSet::EMPTY,
    };

    // The keys of the set.
    pub fn keys(&self) -> SymbolSet
        ensures { result ≡ self.now.keys }
    {
        self.keys
    }

    // The set of keys that a word matches.
    pub fn of<W: Word>(word: &W) -> Matched
        ensures { (c : ℕ) → has result.keys c ≡ word_of (W.tells word.now) c }
    {
        // A loop: a fold over the keys needs a lemma about lists, and is no plainer.
        let mut keys = SymbolSet::empty();
        for key in 33..=64 {
            if word.matches(key) {
                keys = keys.with(key);
            }
        }
        Matched { keys }
    }
}

impl Word for Matched {
    ghost tells = { λ w. has w.keys };

    fn matches(&self, key: u16) -> bool {
        is_key_number(key) && self.keys.contains(key)
    }
}
