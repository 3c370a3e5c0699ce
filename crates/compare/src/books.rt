// Books as the comparison holds them, and their text.
use std::alloc::{AllocError, Global};

// The first number of a key.
pub const FIRST_KEY: u16 = 33;

// The most symbols that a right side has in a text.
const FIELDS: usize = 6;

// A rule: its left part and the symbols of its right side.
#[derive(Drop)]
pub struct Rule {
    pub left: u16,
    pub body: Vec<u16>,
}

impl Rule {
    // A field of the rule's line: the symbol at this place, or four spaces.
    fn write_field(&self, place: usize, text: &mut String) -> Result<(), AllocError> {
        match self.body.get(place) {
            Some(symbol) => write!(text, "{symbol:>4}"),
            None => text.push_str("    "),
        }
    }

    // The line of the rule in the text of a book.
    fn write_line(&self, text: &mut String) -> Result<(), AllocError> {
        write!(text, "R{:>4}{:>4}", self.left, self.body.len())?;
        for place in 0..FIELDS {
            self.write_field(place, text)?;
        }
        text.push_str("\n")
    }

    // The rule as it is told where an answer differs.
    fn tell(&self, text: &mut String) -> Result<(), AllocError> {
        write!(text, " {}:", self.left)?;
        for symbol in &self.body {
            write!(text, " {symbol}")?;
        }
        text.push_str(";")
    }
}

// A book that was made, sound or not. Its keys are figures, all of them: words are not spelled here.
#[derive(Drop)]
pub struct Made {
    pub parts: u16,
    pub keys: u16,
    pub start: u16,
    pub rules: Vec<Rule>,
}

impl Made {
    // The number of the last key.
    pub fn last_key(&self) -> u16 {
        self.keys.saturating_add(32)
    }

    // The lines of the keys.
    fn write_keys(&self, text: &mut String) -> Result<(), AllocError> {
        for key in FIRST_KEY..=self.last_key() {
            writeln!(text, "K{key:>4}   1{:24}", "")?;
        }
        Ok(())
    }

    // The text of the book.
    pub fn text(&self, heap: Global) -> Result<String, AllocError> {
        let rules = self.rules.len();
        let mut text = format!(in heap;
            "H{:>4}{:>4}{:>4}{rules:>4}{:16}\n",
            self.parts, self.keys, self.start, ""
        )?;
        for rule in &self.rules {
            rule.write_line(&mut text)?;
        }
        self.write_keys(&mut text)?;
        Ok(text)
    }

    // Tells of the book where an answer differs.
    pub fn tell(&self, text: &mut String) -> Result<(), AllocError> {
        write!(
            text,
            "parts {}, keys {}, start {}, rules",
            self.parts, self.keys, self.start
        )?;
        for rule in &self.rules {
            rule.tell(text)?;
        }
        Ok(())
    }
}
