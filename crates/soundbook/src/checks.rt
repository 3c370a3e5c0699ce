// The check: a book of any make becomes a sound book, or the first question answered no is named.
ghost use Rattle.std.specs.Prelude.{◌≡◌, [], ◌∷◌, codes, MatchResult};
ghost use Rattle.language.specs.Sound.{Sound};
ghost use Rattle.soundbook.specs.Refusals.{CheckRefuses};
ghost use Rattle.soundbook.specs.Rows.{rule_of, form_of};
ghost use Rattle.soundbook.specs.Sounds.{sound_meaning, smallest};

use super::copies::table_of;
use super::rows::{KeyRow, RuleRow};
use super::shorts::Short;
use super::sounds::SoundBook;
use super::tables::Table;
use rulebook::{Book, Fault, KeyKind};

// The sound book that means the same as the book read, or the first question answered no.
fn sound_book<B: Book>(book: &B) -> Result<SoundBook, Fault>
    ensures { MatchResult result (λ s. (sound_meaning s ≡ B.meaning book.now) × Sound (B.meaning book.now)) (λ f. CheckRefuses (B.meaning book.now) f) }
{
    let formed = table_of(book)?;
    if let Some(part) = formed.unproductive() {
        return Err(Fault::Unproductive {
            part: usize::from(part),
        });
    }
    if let Some(part) = formed.cyclic() {
        return Err(Fault::UnitCycle {
            part: usize::from(part),
        });
    }
    Ok(SoundBook {
        table: formed.table,
    })
}

// Fills the place with a sound book that means the same as the book read; a refused check leaves the place.
pub fn check<B: Book>(book: &B, place: &mut SoundBook) -> Result<(), Fault>
    ensures { MatchResult result (λ _. (sound_meaning place.new ≡ B.meaning book.now) × Sound (B.meaning book.now)) (λ f. (place.new ≡ place.old) × CheckRefuses (B.meaning book.now) f) }
{
    *place = sound_book(book)?;
    Ok(())
}

// The rule 1 → 33.
fn smallest_rule() -> RuleRow
    ensures { rule_of result ≡ record { head = 1; body = 33 ∷ [] } }
{
    RuleRow {
        left: 1,
        body: Short::single(33, 0),
    }
}

// The form of a key that is spelled a.
fn smallest_key() -> KeyRow
    ensures { form_of result ≡ record { kind = 0; spelling = codes "a" } }
{
    KeyRow {
        kind: KeyKind::Full,
        spelling: Short::single(b'a', 0),
    }
}

// A new place: the smallest book, 1 → 33 with key 33 spelled a.
pub fn smallest_book() -> SoundBook
    ensures { sound_meaning result ≡ smallest }
{
    SoundBook {
        table: Table {
            parts: 1,
            start: 1,
            rules: Short::single(smallest_rule(), RuleRow::BLANK),
            keys: Short::single(smallest_key(), KeyRow::BLANK),
        },
    }
}
