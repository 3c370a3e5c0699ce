// The first half of the check: a book's counts, rules and keys are asked one by one and copied to fixed memory.
ghost use Rattle.std.specs.Prelude.{◌≡◌, ℕ, ◌+◌, ◌<◌, ◌≤◌, ◌⊎◌, ◌↔◌, IsTrue, MatchResult, map, slice_index};
ghost use Rattle.language.specs.Book.{rule as rule_in, form as form_in, symbol as symbol_of, spelling as spelling_of, Part, Key, Numbered};
ghost use Rattle.language.specs.Sound.{CountsFit, RuleFits, Letter, FormFits, WellFormed};
ghost use Rattle.soundbook.specs.Rows.{items_of, rule_of, form_of};
ghost use Rattle.soundbook.specs.Tables.{meaning_of};
ghost use Rattle.soundbook.specs.Refusals.{RuleRefused, RulesRefused, KeysRefused, CopyRefused};
ghost use Rattle.soundbook.specs.Copies.{Counted, Made, FirstRefused, LengthFits};
ghost use Rattle.rulebook.specs.declared.faults.Fault.TheVariants.{Counts as CountsFault, UnknownSymbol, KeyForm};

use super::derivations::FormedTable;
use super::rows::{KeyRow, RuleRow};
use super::shorts::Short;
use super::tables::Table;
use rulebook::{Book, Fault, KeyKind};

// Items that are made one by one, or the first refusal of one. The library's array::try_from_fn does not say that it is
// the first.
fn filled<T: Copy, E, const N: usize, F: Fn(u16) -> Result<T, E>>(
    blank: T,
    count: u16,
    item: F,
) -> Result<Short<T, N>, E>
    requires room { count ≤ N }
    requires callable { (i : ℕ) → i < count → F.pre item i }
    ensures { MatchResult result (Made (F.post item) blank count) (FirstRefused (F.post item) count) }
{
    let mut items = [blank; N];
    // By place, of which an item is made; beside an adapter of `iter_mut` a proof does not know what the array holds.
    for place in 0..count {
        items[usize::from(place)] = item(place)?;
    }
    Ok(Short { len: count, items })
}

// How many parts, keys and rules there are, and which part is the start.
#[derive(Clone, Copy)]
struct Counts {
    parts: u16,
    keys: u16,
    start: u16,
    rules: u16,
}

impl Counts {
    fn in_bounds(&self) -> bool
        ensures { let c = self.now in IsTrue result ↔ ((1 ≤ c.parts) × (c.parts ≤ 32) × (1 ≤ c.keys) × (c.keys ≤ 32) × (1 ≤ c.start) × (c.start ≤ c.parts) × (1 ≤ c.rules) × (c.rules ≤ 128)) }
    {
        (1..=32).contains(&self.parts)
            && (1..=32).contains(&self.keys)
            && (1..=self.parts).contains(&self.start)
            && (1..=128).contains(&self.rules)
    }
}

// A book of any make with its counts, which are in bounds.
#[derive(Drop)]
struct Source<'b, B: Book> {
    book: &'b B,
    counts: Counts,
    ghost counted: { Counted (B.meaning book.now) counts },
    ghost fit: { CountsFit (B.meaning book.now).grammar },
}

impl<'b, B: Book> Source<'b, B> {
    // The book, if its counts are in bounds.
    fn of(book: &'b B) -> Result<Source<'b, B>, Fault>
        ensures { MatchResult result (λ s. s.book.now ≡ book.now) (λ f. (f ≡ CountsFault) × (CountsFit (B.meaning book.now).grammar → ⊥)) }
    {
        let counts = Counts {
            parts: book.parts(),
            keys: book.keys(),
            start: book.start(),
            rules: book.rules(),
        };
        if counts.in_bounds() {
            Ok(Source { book, counts })
        } else {
            Err(Fault::Counts)
        }
    }
}

impl<B: Book> Source<'_, B> {
    fn is_part(&self, symbol: u16) -> bool
        ensures { IsTrue result ↔ Part (B.meaning self.now.book.now).grammar symbol }
    {
        (1..=self.counts.parts).contains(&symbol)
    }

    fn is_key(&self, symbol: u16) -> bool
        ensures { IsTrue result ↔ Key (B.meaning self.now.book.now).grammar symbol }
    {
        (33..=32 + self.counts.keys).contains(&symbol)
    }

    // The symbol at a place of a rule, if it is a part or a key.
    fn symbol(&self, rule: u16, at: u16) -> Result<u16, Fault>
        ensures { let g = (B.meaning self.now.book.now).grammar in let x = symbol_of g rule at in MatchResult result (λ s. (s ≡ x) × (Part g x ⊎ Key g x)) (λ f. (f ≡ UnknownSymbol rule (at + 1)) × ((Part g x ⊎ Key g x) → ⊥)) }
    {
        let symbol = self.book.symbol(rule, at);
        if self.is_part(symbol) || self.is_key(symbol) {
            Ok(symbol)
        } else {
            Err(Fault::UnknownSymbol {
                rule: usize::from(rule),
                place: usize::from(at) + 1,
            })
        }
    }

    // A rule, if it turns a part into 1 to 6 symbols of the book.
    fn rule(&self, rule: u16) -> Result<RuleRow, Fault>
        ensures { let g = (B.meaning self.now.book.now).grammar in let w = rule_in g.rules rule in MatchResult result (λ row. (rule_of row ≡ w) × RuleFits g w) (RuleRefused g rule w) }
    {
        let number = usize::from(rule);
        let left = self.book.left(rule);
        if !self.is_part(left) {
            return Err(Fault::LeftSide { rule: number });
        }
        let size = self.book.size(rule);
        if size == 0 {
            return Err(Fault::EmptyRule { rule: number });
        }
        if size > 6 {
            return Err(Fault::LongRule { rule: number });
        }
        let body = filled(0, size, |at| self.symbol(rule, at))?;
        Ok(RuleRow { left, body })
    }

    // All rules, if each fits.
    fn rules(&self) -> Result<Short<RuleRow, 128>, Fault>
        ensures { let g = (B.meaning self.now.book.now).grammar in MatchResult result (λ s. (map rule_of (items_of s) ≡ g.rules) × ((r : ℕ) → Numbered g r → RuleFits g (rule_in g.rules r))) (RulesRefused g) }
    {
        filled(
            RuleRow::BLANK,
            self.counts.rules,
            |place| self.rule(place + 1),
        )
    }

    // The byte at a place of a key's spelling, if it is a letter.
    fn letter(&self, key: u16, at: u16) -> Result<u8, Fault>
        ensures { let x = slice_index (spelling_of (B.meaning self.now.book.now).forms key) at in MatchResult result (λ b. (b ≡ x) × Letter x) (λ f. (f ≡ KeyForm key) × (Letter x → ⊥)) }
    {
        let byte = self.book.spelling_byte(key, at);
        if is_letter(byte) {
            Ok(byte)
        } else {
            Err(Fault::KeyForm {
                key: usize::from(key),
            })
        }
    }

    // The form of a key, if its kind and its spelling go together.
    fn key(&self, key: u16) -> Result<KeyRow, Fault>
        ensures { let w = form_in (B.meaning self.now.book.now).forms key in MatchResult result (λ row. (form_of row ≡ w) × FormFits w) (λ f. (f ≡ KeyForm key) × (FormFits w → ⊥)) }
    {
        let refusal = Fault::KeyForm {
            key: usize::from(key),
        };
        let kind = KeyKind::try_from(self.book.kind(key)).map_err(|_| refusal)?;
        let len = self.book.spelling_len(key);
        if !length_fits(kind, len) {
            return Err(refusal);
        }
        let spelling = filled(0, len, |at| self.letter(key, at))?;
        Ok(KeyRow { kind, spelling })
    }

    // The forms of all keys, if each fits.
    fn keys(&self) -> Result<Short<KeyRow, 32>, Fault>
        ensures { let m = B.meaning self.now.book.now in MatchResult result (λ s. (map form_of (items_of s) ≡ m.forms) × ((c : ℕ) → Key m.grammar c → FormFits (form_in m.forms c))) (KeysRefused m) }
    {
        filled(
            KeyRow::BLANK,
            self.counts.keys,
            |place| self.key(33 + place),
        )
    }
}

// Whether a byte is a letter a to z or a hyphen.
pub fn is_letter(byte: u8) -> bool
    ensures { IsTrue result ↔ Letter byte }
{
    matches!(byte, b'a'..=b'z' | b'-')
}

// Whether a key of that kind may have a spelling of that length.
fn length_fits(kind: KeyKind, len: u16) -> bool
    ensures { IsTrue result ↔ LengthFits kind len }
{
    match kind {
        KeyKind::Full => (1..=24).contains(&len),
        KeyKind::Figure => len == 0,
        KeyKind::Shortened => (3..=24).contains(&len),
    }
}

// A book in fixed memory, if its counts, rules and keys are in form, asked in that order.
pub(super) fn table_of<B: Book>(book: &B) -> Result<FormedTable, Fault>
    ensures { MatchResult result (λ t. (meaning_of t.table ≡ B.meaning book.now) × WellFormed (B.meaning book.now)) (λ f. CopyRefused (B.meaning book.now) f) }
{
    let source = Source::of(book)?;
    let rules = source.rules()?;
    let keys = source.keys()?;
    let table = Table {
        parts: source.counts.parts,
        start: source.counts.start,
        rules,
        keys,
    };
    Ok(FormedTable { table })
}
