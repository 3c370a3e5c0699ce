// The choice that gives the first reading, told by the items of the chart.
ghost use Rattle.std.specs.Prelude.{◌≡◌, ℕ, ◌≤◌, IsTrue, ◌↔◌, MatchOption};
ghost use Rattle.language.specs.Chart.{Held};
ghost use Rattle.draft.specs.States.{grammar, words};
ghost use Rattle.reading.specs.Choices.{BeginFirst, ChoosesFirst, EarliestBegin, Finishes, LowestRule, PartBegins};

use draft::{Draft, Item};
use rulebook::Book;

// The last symbol that can be a part: those past it are keys.
pub(super) const LAST_PART: u16 = 32;

// The most symbols of a rule.
const MOST_SYMBOLS: usize = 6;

// By which rule a part is read, and after which word each child of that rule begins.
#[derive(Clone, Copy)]
pub(super) struct Choice {
    pub(super) rule: u16,
    pub(super) begins: [u16; MOST_SYMBOLS],
}

impl Choice {
    // no choice
    pub(super) const BLANK: Choice = Choice {
        rule: 0,
        begins: [0; MOST_SYMBOLS],
    };
}

// Whether an item stands in the chart.
fn stands(draft: &Draft, item: Item) -> bool
    ensures { IsTrue result ↔ Held (grammar draft.now) (words draft.now) item.rule item.done item.start item.end }
{
    draft.column(item.end).contains(&item)
}

// Whether a rule of a part has a finished item over the words from start to end.
fn finishes(draft: &Draft, part: u16, start: u16, end: u16, rule: u16) -> bool
    ensures { IsTrue result ↔ Finishes (grammar draft.now) (words draft.now) part start end rule }
{
    let book = draft.book();
    let finished = Item {
        rule,
        done: book.size(rule),
        start,
        end,
    };
    book.left(rule) == part && stands(draft, finished)
}

// The lowest rule that does.
fn lowest_rule(draft: &Draft, part: u16, start: u16, end: u16) -> Option<u16>
    ensures { let g = grammar draft.now in let ws = words draft.now in MatchOption result ((q : ℕ) → Finishes g ws part start end q → ⊥) (LowestRule g ws part start end) }
{
    for rule in 1..=draft.book().rules() {
        if finishes(draft, part, start, end, rule) {
            return Some(rule);
        }
    }
    None
}

// Whether the child at a place of a rule that starts after start, a part that ends at end, may begin after begin.
fn begins(draft: &Draft, rule: u16, place: u16, start: u16, end: u16, begin: u16) -> bool
    ensures { IsTrue result ↔ PartBegins (grammar draft.now) (words draft.now) rule place start end begin }
{
    let before = Item {
        rule,
        done: place,
        start,
        end: begin,
    };
    let part = draft.book().symbol(rule, place);
    stands(draft, before) && lowest_rule(draft, part, begin, end).is_some()
}

// Where that child begins earliest; a key begins one word before its end.
fn earliest_begin(draft: &Draft, rule: u16, place: u16, start: u16, end: u16) -> u16
    ensures { (b : ℕ) → EarliestBegin (grammar draft.now) (words draft.now) rule place start end b → result ≡ b }
{
    if draft.book().symbol(rule, place) > LAST_PART {
        return end.saturating_sub(1);
    }
    for begin in start..end {
        if begins(draft, rule, place, start, end, begin) {
            return begin;
        }
    }
    end
}

// Where the children of a rule begin, from the last leftwards each as early as it can, if the rule starts after start and its
// children end at end.
fn beginnings(draft: &Draft, rule: u16, start: u16, end: u16) -> [u16; MOST_SYMBOLS]
    ensures { BeginFirst (grammar draft.now) (words draft.now) rule start end result }
{
    let mut begins = [start; MOST_SYMBOLS];
    let mut until = end;
    for place in (1..draft.book().size(rule)).rev() {
        until = earliest_begin(draft, rule, place, start, until);
        begins[usize::from(place)] = until;
    }
    begins
}

// The choice of the first reading of a part over the words from start to end, if it may start there and reads them.
pub(super) fn choose(draft: &Draft, part: u16, start: u16, end: u16) -> Choice
    ensures { ChoosesFirst (grammar draft.now) (words draft.now) part start end result }
{
    let rule = lowest_rule(draft, part, start, end).unwrap_or(0);
    Choice {
        rule,
        begins: beginnings(draft, rule, start, end),
    }
}
