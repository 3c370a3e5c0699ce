// The sound book: a book that passed the check.
ghost use Rattle.language.specs.Sound.{Sound};
ghost use Rattle.soundbook.specs.Tables.{meaning_of};

use super::tables::Table;
use rulebook::Book;

// Every value of this type is a book that passed the check, or the smallest book.
#[derive(Clone, Copy)]
pub struct SoundBook {
    pub(crate) table: Table,
    ghost sound: { ∥ Sound (meaning_of table) ∥₁ },
}

// Each question is the table's; nothing forwards a trait by itself.
impl Book for SoundBook {
    ghost meaning = { λ s. meaning_of s.table };

    fn parts(&self) -> u16 {
        self.table.parts()
    }

    fn keys(&self) -> u16 {
        self.table.keys()
    }

    fn start(&self) -> u16 {
        self.table.start()
    }

    fn rules(&self) -> u16 {
        self.table.rules()
    }

    fn left(&self, rule: u16) -> u16 {
        self.table.left(rule)
    }

    fn size(&self, rule: u16) -> u16 {
        self.table.size(rule)
    }

    fn symbol(&self, rule: u16, at: u16) -> u16 {
        self.table.symbol(rule, at)
    }

    fn kind(&self, key: u16) -> u16 {
        self.table.kind(key)
    }

    fn spelling_len(&self, key: u16) -> u16 {
        self.table.spelling_len(key)
    }

    fn spelling_byte(&self, key: u16, at: u16) -> u8 {
        self.table.spelling_byte(key, at)
    }
}
