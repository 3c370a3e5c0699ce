// The walk that tells the moves of the first reading, the last first.
ghost use Rattle.std.specs.Prelude.{◌≡◌, ℕ, ◌+◌, ◌<◌, ◌≤◌, List, [], ◌∷◌, ◌++◌, length, take, drop, MatchOption};
ghost use Rattle.language.specs.Moves.{behind};
ghost use Rattle.draft.specs.States.{grammar, words};
ghost use Rattle.reading.specs.Stacks.{places, stacked, SameRoom};
ghost use Rattle.reading.specs.Walks.{behind_moves, shortened, OpensFirst, Owed};

use super::choices::{Choice, LAST_PART, choose};
use super::machines::{MOVE, REMOVE};
use super::stacks::{Blank, Stack};
use draft::Draft;
use rulebook::Book;

// The most rules that are open at a time: each has a word of its own that is still to come.
const MOST_OPEN: usize = 100;

// A rule of the reading of which the last children are told: so many of its first children are still to come, and they end
// at that word.
#[derive(Clone, Copy)]
pub(super) struct Open {
    pub(super) choice: Choice,
    pub(super) done: u16,
    pub(super) end: u16,
}

impl Open {
    pub(super) const BLANK: Open = Open {
        choice: Choice::BLANK,
        done: 0,
        end: 0,
    };
}

impl Blank for Open {
    ghost use Rattle.reading.specs.Walks.{blank_open};

    ghost blank = { blank_open };

    fn blank() -> Open {
        Open::BLANK
    }
}

// What stands behind the moves of a child: the mark that joins it to its rule, and before it the end of a part.
#[derive(Clone, Copy)]
pub(super) enum Behind {
    Key(u8),
    Part(u8),
}

impl Behind {
    // How many moves they are.
    fn many(self) -> usize
        ensures { result ≡ length (behind_moves self) }
    {
        match self {
            Behind::Key(_) => 1,
            Behind::Part(_) => 2,
        }
    }

    // Writes them before a place of the strip, and answers where they begin.
    fn put(self, strip: &mut [u8], at: usize) -> usize
        requires some { length (behind_moves self) ≤ at }
        requires inside { at ≤ length strip.old }
        ensures begins { result + length (behind_moves self) ≡ at }
        ensures written { strip.new ≡ take result strip.old ++ (behind_moves self ++ drop at strip.old) }
    {
        match self {
            Behind::Key(mark) => {
                strip[at - 1] = mark;
                at - 1
            }
            Behind::Part(mark) => {
                strip[at - 1] = mark;
                strip[at - 2] = MOVE;
                at - 2
            }
        }
    }
}

// What stands behind the whole reading.
const LAST: Behind = Behind::Part(REMOVE);

// Puts an open rule on the stack, which has room for it.
fn keep(stack: &mut Stack<Open>, span: Open)
    ensures room { SameRoom stack.old stack.new }
    ensures kept { length (stacked stack.old) < places stack.old → stacked stack.new ≡ span ∷ stacked stack.old }
{
    let _kept = stack.push(span);
}

// Puts an open rule back without its last child, if others are still to come.
fn shorten(stack: &mut Stack<Open>, span: Open, place: u16, begin: u16)
    ensures room { SameRoom stack.old stack.new }
    ensures kept { length (stacked stack.old) < places stack.old → stacked stack.new ≡ shortened span place begin (stacked stack.old) }
{
    if place > 0 {
        keep(
            stack,
            Open {
                choice: span.choice,
                done: place,
                end: begin,
            },
        );
    }
}

// Opens the rule of the first reading of a part over the words from start to end.
pub(super) fn opened(draft: &Draft, part: u16, start: u16, end: u16) -> Open
    ensures { OpensFirst (grammar draft.now) (words draft.now) part start end result }
{
    let choice = choose(draft, part, start, end);
    Open {
        choice,
        done: draft.book().size(choice.rule),
        end,
    }
}

// What joins a child to its rule: the number of the rule behind the first child, and 129 behind the others.
fn mark(rule: u16, place: u16) -> u8
    requires { rule < 256 }
    ensures { result ≡ behind rule place }
{
    if place == 0 { rule as u8 } else { REMOVE }
}

// Tells what stands behind the last child that is still to come, which is then come: of a part the rule is opened.
fn next(draft: &Draft, stack: &mut Stack<Open>) -> Option<Behind>
    requires owed { (ns : List ℕ) × Owed (grammar draft.now) (words draft.now) (stacked stack.old) ns }
    requires few { length (words draft.now) ≤ 100 }
    requires places { places stack.old ≡ 100 }
    ensures room { SameRoom stack.old stack.new }
    ensures told { let g = grammar draft.now in let ws = words draft.now in (ns : List ℕ) → Owed g ws (stacked stack.old) ns → MatchOption result (ns ≡ []) (λ b. (before : List ℕ) × Owed g ws (stacked stack.new) before × (ns ≡ before ++ behind_moves b)) }
{
    let book = draft.book();
    let span = stack.pop()?;
    let rule = span.choice.rule;
    let place = span.done - 1;
    let begin = span.choice.begins[usize::from(place)];
    shorten(stack, span, place, begin);
    let symbol = book.symbol(rule, place);
    if symbol > LAST_PART {
        return Some(Behind::Key(mark(rule, place)));
    }
    keep(stack, opened(draft, symbol, begin, span.end));
    Some(Behind::Part(mark(rule, place)))
}

// How many moves a reading has, of which the top rule is opened.
pub(super) fn count(draft: &Draft, top: Open) -> usize
    requires owed { (ns : List ℕ) × Owed (grammar draft.now) (words draft.now) (top ∷ []) ns × (length ns + 2 ≤ 12836) }
    requires few { length (words draft.now) ≤ 100 }
    ensures { (ns : List ℕ) → Owed (grammar draft.now) (words draft.now) (top ∷ []) ns → result ≡ length ns + 2 }
{
    let mut room = [Open::BLANK; MOST_OPEN];
    let mut stack = Stack::over(&mut room);
    keep(&mut stack, top);
    let mut moves = LAST.many();
    while let Some(behind) = next(draft, &mut stack) {
        moves += behind.many();
    }
    moves
}

// Writes them, as many as there are, to the front of the strip, the last first.
pub(super) fn write(draft: &Draft, top: Open, strip: &mut [u8], moves: usize)
    requires owed { (ns : List ℕ) × Owed (grammar draft.now) (words draft.now) (top ∷ []) ns × (moves ≡ length ns + 2) }
    requires few { length (words draft.now) ≤ 100 }
    requires room { moves ≤ length strip.old }
    ensures { (ns : List ℕ) → Owed (grammar draft.now) (words draft.now) (top ∷ []) ns → moves ≡ length ns + 2 → strip.new ≡ ns ++ (0 ∷ 129 ∷ drop moves strip.old) }
{
    let mut room = [Open::BLANK; MOST_OPEN];
    let mut stack = Stack::over(&mut room);
    keep(&mut stack, top);
    let mut at = LAST.put(strip, moves);
    while let Some(behind) = next(draft, &mut stack) {
        at = behind.put(strip, at);
    }
}
