// The machine of three stacks, move by move.
ghost use Rattle.std.specs.Prelude.{◌≡◌, ℕ, ◌+◌, ◌-◌, ◌<◌, ◌≤◌, List, [], true, ◌&&◌, ◌∷◌, ◌++◌, map, drop, length, IsTrue, ◌↔◌, MatchResult};
ghost use Rattle.std.proofs.Math.Option.{some};
ghost use Rattle.language.specs.Book.{Numbered, left as left_of, right, size as size_of, symbol as symbol_of};
ghost use Rattle.language.specs.Machine.{initial, is_rule, next, stacks, step};
ghost use Rattle.rulebook.specs.declared.faults.Fault.TheVariants.{StackFull};
ghost use Rattle.soundbook.specs.Sounds.{sound_meaning};
ghost use Rattle.reading.specs.Machines.{awaited, grammar_of, first_of, state_of, rooms_of, symbol_on_top, sets_of, top_agrees, Barred, RuleBegun, RuleShort};
ghost use Rattle.reading.specs.Replays.{Leads, ReplayRefused, Rooms};
ghost use Rattle.reading.specs.Stacks.{places, stacked, SameRoom};

use super::stacks::Stack;
use rulebook::{Book, Fault, place_of};
use soundbook::SoundBook;
use wording::Word;

// The number of Move, which takes off an end mark.
pub(super) const MOVE: u8 = 0;

// The number of Remove, which takes off tops that agree.
pub(super) const REMOVE: u8 = 129;

// How an end mark stands on the second stack, among symbols, which count from 1.
const END_MARK: u8 = 0;

// The machine but for the rooms of its second and third stack, which are lent to each move. The first stack is the words
// that are not yet read, and at most one part done above them, so it needs no room.
#[derive(Drop)]
pub(super) struct Machine<'b, 'w, W: Word> {
    book: &'b SoundBook,
    unread: &'w [W],
    done: Option<u8>,
}

// Puts a symbol or an end mark on a stack.
fn put(stack: &mut Stack<u8>, item: u8, at: usize) -> Result<(), Fault>
    ensures room { SameRoom stack.old stack.new }
    ensures pushed { MatchResult result (λ _. stacked stack.new ≡ item ∷ stacked stack.old) (λ f. (f ≡ StackFull at) × (places stack.old ≤ length (stacked stack.old))) }
{
    stack.push(item).map_err(|_| Fault::StackFull { at })
}

impl<'b, 'w, W: Word> Machine<'b, 'w, W> {
    // The machine before its first move.
    pub(super) fn over(book: &'b SoundBook, words: &'w [W]) -> Machine<'b, 'w, W>
        ensures book { result.book ≡ book.entry }
        ensures unread { result.unread ≡ words.entry }
        ensures first { result.done ≡ None }
    {
        Machine {
            book,
            unread: words,
            done: None,
        }
    }
}

impl<W: Word> Machine<'_, '_, W> {
    // Puts the start symbol on the second stack.
    pub(super) fn start(&self, second: &mut Stack<u8>) -> Result<(), Fault>
        ensures room { SameRoom second.old second.new }
        ensures pushed { MatchResult result (λ _. map awaited (stacked second.new) ≡ next (grammar_of self.now).start ∷ map awaited (stacked second.old)) (λ f. (f ≡ StackFull 0) × (places second.old ≤ length (stacked second.old))) }
    {
        put(second, self.book.start() as u8, 0)
    }

    // Whether all stacks are empty.
    pub(super) fn is_empty(&self, second: &Stack<u8>, third: &Stack<u8>) -> bool
        ensures { IsTrue result ↔ (state_of W.tells self.now second.now third.now ≡ stacks [] [] []) }
    {
        self.done.is_none()
            && self.unread.is_empty()
            && second.top().is_none()
            && third.top().is_none()
    }

    // Whether the top of the first stack agrees with a symbol: a word with each key that it matches, a part with itself.
    fn agrees(&self, symbol: u16) -> bool
        ensures { result ≡ top_agrees (grammar_of self.now) (first_of W.tells self.now) symbol }
    {
        match (self.done, self.unread) {
            (Some(part), _) => u16::from(part) == symbol,
            (None, [word, ..]) => place_of(symbol, 33, self.book.keys()).is_some()
                && word.matches(symbol),
            (None, []) => false,
        }
    }

    // Takes off the top of the first stack.
    fn pop(&mut self)
        ensures book { self.new.book ≡ self.old.book }
        ensures first { first_of W.tells self.new ≡ drop 1 (first_of W.tells self.old) }
    {
        if let (None, [_, rest @ ..]) = (self.done.take(), self.unread) {
            self.unread = rest;
        }
    }

    // The symbol at a place of a rule.
    fn symbol(&self, rule: u16, place: u16) -> u8
        requires rule { Numbered (grammar_of self.now) rule }
        requires place { place < size_of (grammar_of self.now) rule }
        ensures { awaited result ≡ next (symbol_of (grammar_of self.now) rule place) }
    {
        self.book.symbol(rule, place) as u8
    }

    // The left side of a rule.
    fn left(&self, rule: u16) -> u8
        requires { Numbered (grammar_of self.now) rule }
        ensures { result ≡ left_of (grammar_of self.now) rule }
    {
        self.book.left(rule) as u8
    }

    // Puts the symbols of a rule but the first on the second stack, the next one on top.
    fn put_rest(&self, second: &mut Stack<u8>, rule: u16, at: usize) -> Result<(), Fault>
        requires { Numbered (grammar_of self.now) rule }
        ensures room { SameRoom second.old second.new }
        ensures pushed { let g = grammar_of self.now in MatchResult result (λ _. map awaited (stacked second.new) ≡ map next (drop 1 (right g rule)) ++ map awaited (stacked second.old)) (λ f. (f ≡ StackFull at) × (places second.old < length (stacked second.old) + (size_of g rule - 1))) }
    {
        for place in (1..self.book.size(rule)).rev() {
            put(second, self.symbol(rule, place), at)?;
        }
        Ok(())
    }

    // Whether a rule may be begun.
    fn may_reduce(&self, second: &Stack<u8>, rule: u16) -> bool
        ensures { let g = grammar_of self.now in result ≡ (is_rule g rule && (symbol_on_top (map awaited (stacked second.now)) && top_agrees g (first_of W.tells self.now) (symbol_of g rule 0))) }
    {
        place_of(rule, 1, self.book.rules()).is_some()
            && matches!(second.top(), Some(1..))
            && self.agrees(self.book.symbol(rule, 0))
    }

    // Puts what is to come of a rule on the second stack, over an end mark, and its left side on the third.
    fn begin(
        &self,
        second: &mut Stack<u8>,
        third: &mut Stack<u8>,
        rule: u16,
        at: usize,
    ) -> Result<(), Fault>
        requires { Numbered (grammar_of self.now) rule }
        ensures second { SameRoom second.old second.new }
        ensures third { SameRoom third.old third.new }
        ensures pushed { MatchResult result (λ _. RuleBegun (grammar_of self.now) rule second.old second.new third.old third.new) (λ f. (f ≡ StackFull at) × RuleShort (grammar_of self.now) rule second.old third.old) }
    {
        put(second, END_MARK, at)?;
        self.put_rest(second, rule, at)?;
        put(third, self.left(rule), at)
    }

    // Reduces by a rule.
    fn reduce(
        &mut self,
        second: &mut Stack<u8>,
        third: &mut Stack<u8>,
        rule: u16,
        at: usize,
    ) -> Result<(), Fault>
        requires { (rule ≡ 0 → ⊥) × (rule ≡ 129 → ⊥) }
        ensures book { self.new.book ≡ self.old.book }
        ensures second { SameRoom second.old second.new }
        ensures third { SameRoom third.old third.new }
        ensures moved { let to = step (grammar_of self.old) (state_of W.tells self.old second.old third.old) rule in MatchResult result (λ _. to ≡ some (state_of W.tells self.new second.new third.new)) (Barred (rooms_of second.old third.old) to at) }
    {
        if !self.may_reduce(second, rule) {
            return Err(Fault::MoveRefused { at });
        }
        self.pop();
        self.begin(second, third, rule, at)
    }

    // Takes an end mark off the second stack, and the left side of its rule from the third to the first.
    fn move_part(
        &mut self,
        second: &mut Stack<u8>,
        third: &mut Stack<u8>,
        at: usize,
    ) -> Result<(), Fault>
        requires { (X : ℕ) → self.old.done ≡ Some X → symbol_on_top (map awaited (stacked second.old)) ≡ true }
        ensures book { self.new.book ≡ self.old.book }
        ensures second { SameRoom second.old second.new }
        ensures third { SameRoom third.old third.new }
        ensures moved { let to = step (grammar_of self.old) (state_of W.tells self.old second.old third.old) 0 in MatchResult result (λ _. to ≡ some (state_of W.tells self.new second.new third.new)) (Barred (rooms_of second.old third.old) to at) }
    {
        let (Some(END_MARK), Some(part)) = (second.top(), third.top()) else {
            return Err(Fault::MoveRefused { at });
        };
        second.pop();
        third.pop();
        self.done = Some(part);
        Ok(())
    }

    // Takes off the tops of the first and second stack, which agree.
    fn remove(&mut self, second: &mut Stack<u8>, at: usize) -> Result<(), Fault>
        ensures book { self.new.book ≡ self.old.book }
        ensures second { SameRoom second.old second.new }
        ensures moved { (room : Rooms) (ls : List ℕ) → let to = step (grammar_of self.old) (stacks (first_of W.tells self.old) (map awaited (stacked second.old)) ls) 129 in MatchResult result (λ _. to ≡ some (stacks (first_of W.tells self.new) (map awaited (stacked second.new)) ls)) (Barred room to at) }
    {
        match second.top() {
            Some(symbol @ 1..) if self.agrees(u16::from(symbol)) => {
                self.pop();
                second.pop();
                Ok(())
            }
            _ => Err(Fault::MoveRefused { at }),
        }
    }

    // Makes a move by its number: Move, Remove, or Reduce by the rule of that number.
    pub(super) fn step(
        &mut self,
        second: &mut Stack<u8>,
        third: &mut Stack<u8>,
        number: u8,
        at: usize,
    ) -> Result<(), Fault>
        requires { (X : ℕ) → self.old.done ≡ Some X → symbol_on_top (map awaited (stacked second.old)) ≡ true }
        ensures book { self.new.book ≡ self.old.book }
        ensures second { SameRoom second.old second.new }
        ensures third { SameRoom third.old third.new }
        ensures moved { let to = step (grammar_of self.old) (state_of W.tells self.old second.old third.old) number in MatchResult result (λ _. to ≡ some (state_of W.tells self.new second.new third.new)) (Barred (rooms_of second.old third.old) to at) }
    {
        match number {
            MOVE => self.move_part(second, third, at),
            REMOVE => self.remove(second, at),
            rule => self.reduce(second, third, u16::from(rule), at),
        }
    }

    // Makes all moves, up to the first that is refused.
    pub(super) fn run(
        &mut self,
        second: &mut Stack<u8>,
        third: &mut Stack<u8>,
        moves: &[u8],
    ) -> Result<(), Fault>
        requires { state_of W.tells self.old second.old third.old ≡ initial (grammar_of self.old) (sets_of W.tells self.old.unread.now) }
        ensures book { self.new.book ≡ self.old.book }
        ensures second { SameRoom second.old second.new }
        ensures third { SameRoom third.old third.new }
        ensures moved { let g = grammar_of self.old in let ws = sets_of W.tells self.old.unread.now in let room = rooms_of second.old third.old in MatchResult result (λ _. Leads g ws room moves.now (state_of W.tells self.new second.new third.new)) (ReplayRefused g ws room moves.now) }
    {
        for (place, number) in moves.iter().enumerate() {
            self.step(second, third, *number, place + 1)?;
        }
        Ok(())
    }
}
