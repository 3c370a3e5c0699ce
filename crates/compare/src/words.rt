// Words that match several keys.
ghost use Rattle.rulebook.specs.Sets.{has};

use rulebook::SymbolSet;
use wording::Word;

// A word that matches the keys of a set.
#[derive(Clone, Copy)]
pub struct Several {
    pub keys: SymbolSet,
}

impl Word for Several {
    ghost tells = { λ w. has w.keys };

    fn matches(&self, key: u16) -> bool {
        matches!(key, 33..=64) && self.keys.contains(key)
    }
}
