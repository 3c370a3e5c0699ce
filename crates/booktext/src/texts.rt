// The text of a book as a make of book: each question is answered out of the text itself.
ghost use Rattle.std.specs.Prelude.{◌≡◌, ◌+◌, ◌≤◌, length};
ghost use Rattle.language.specs.Book.{spelling as spelling_in};
ghost use Rattle.booktext.specs.Text.{Lined, number_on, number_at, text_meaning};

use super::fields::number;
use super::lines::{field, middle, spelled, spelling_field};
use rulebook::{Book, item_or, place_of};

// A text; where nothing stands, or no number, the answer is 0.
#[derive(Clone, Copy)]
pub struct TextBook<'a> {
    pub(super) text: &'a [u8],
}

impl TextBook<'_> {
    // The number in a field of a line, both counted from 0.
    fn number_at(&self, line: u32, place: u16) -> u16
        ensures { result ≡ number_at self.now.text.now line place }
    {
        number(field(middle(self.text, line), place)).unwrap_or(0)
    }

    // The number in a field of a line, if there is one.
    fn number_on(&self, line: Option<u32>, place: u16) -> u16
        ensures { result ≡ number_on self.now.text.now line place }
    {
        // Not `map_or`: tried, and the contract that is read off its closure says nothing of the number.
        match line {
            Some(line) => self.number_at(line, place),
            None => 0,
        }
    }

    // The line of a rule. One function for rules and keys would take four numbers to save two lines.
    #[tactic(auto, using(crate::proofs::Meant::text_rules))]
    fn rule_line(&self, rule: u16) -> Option<u32>
        ensures { Lined rule 1 (number_at self.now.text.now 0 3) 1 result }
    {
        let place = place_of(rule, 1, self.rules())?;
        Some(1 + u32::from(place))
    }

    // The line of a key.
    #[tactic(auto, using(crate::proofs::Meant::text_rules, crate::proofs::Meant::text_keys))]
    fn key_line(&self, key: u16) -> Option<u32>
        ensures { Lined key 33 (number_at self.now.text.now 0 1) (1 + number_at self.now.text.now 0 3) result }
    {
        let place = place_of(key, 33, self.keys())?;
        Some(1 + u32::from(self.rules()) + u32::from(place))
    }

    // The spelling of a key.
    fn spelling(&self, key: u16) -> &[u8]
        ensures is { result.now ≡ spelling_in (text_meaning self.now.text.now).forms key }
        ensures short { length result.now ≤ 24 }
    {
        match self.key_line(key) {
            Some(line) => spelled(spelling_field(middle(self.text, line))),
            None => &[],
        }
    }
}

impl Book for TextBook<'_> {
    ghost meaning = { λ s. text_meaning s.text.now };

    fn parts(&self) -> u16 {
        self.number_at(0, 0)
    }

    fn keys(&self) -> u16 {
        self.number_at(0, 1)
    }

    fn start(&self) -> u16 {
        self.number_at(0, 2)
    }

    fn rules(&self) -> u16 {
        self.number_at(0, 3)
    }

    fn left(&self, rule: u16) -> u16 {
        self.number_on(self.rule_line(rule), 0)
    }

    fn size(&self, rule: u16) -> u16 {
        self.number_on(self.rule_line(rule), 1)
    }

    fn symbol(&self, rule: u16, at: u16) -> u16 {
        let line = self.rule_line(rule);
        if at < self.number_on(line, 1).min(6) {
            self.number_on(line, 2 + at)
        } else {
            0
        }
    }

    fn kind(&self, key: u16) -> u16 {
        self.number_on(self.key_line(key), 1)
    }

    fn spelling_len(&self, key: u16) -> u16 {
        // `as`: at most 24, as is proved.
        self.spelling(key).len() as u16
    }

    fn spelling_byte(&self, key: u16, at: u16) -> u8 {
        item_or(self.spelling(key), at, 0)
    }
}
