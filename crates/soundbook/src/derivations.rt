// The second half of the check: which parts can be turned into keys alone, and which into themselves alone.
ghost use Rattle.std.specs.Prelude.{ℕ, ◌+◌, ◌≤◌, true, IsTrue, ◌↔◌, MatchOption};
ghost use Rattle.std.proofs.Common.{⊎_elim};
ghost use Rattle.language.specs.Book.{left as left_of, symbol as symbol_of, Part};
ghost use Rattle.language.specs.Closure.{Productive, UnitPath};
ghost use Rattle.language.specs.Sound.{WellFormed};
ghost use Rattle.soundbook.specs.Closures.{AllHeld, UnitFrom};
ghost use Rattle.soundbook.specs.Refusals.{Lowest};
ghost use Rattle.rulebook.specs.Sets.{has};
ghost use Rattle.soundbook.specs.Tables.{meaning_of};

use super::closures::{Growth, closure};
use super::tables::Table;
use rulebook::{Book, SymbolSet};

// A rule adds its left part where all symbols of its right side can be turned into keys alone.
#[derive(Clone, Copy)]
struct Productivity<'b> {
    table: &'b Table,
}

impl Growth for Productivity<'_> {
    ghost grammar = { λ p. (meaning_of p.table.now).grammar };

    ghost fires = { λ p. AllHeld (meaning_of p.table.now).grammar };

    ghost added = { λ p r. left_of (meaning_of p.table.now).grammar r };

    ghost derived = { λ p. Productive (meaning_of p.table.now).grammar };

    fn count(&self) -> u16 {
        self.table.rules()
    }

    fn fires(&self, rule: u16, set: &SymbolSet) -> bool {
        (0..self.table.size(rule)).all(|at| set.contains(self.table.symbol(rule, at)))
    }

    fn added(&self, rule: u16) -> u16 {
        self.table.left(rule)
    }

    ghost follows = { λ p r held n all derived. Productive.part r n (λ d l. derived _ (all d l)) };
}

// A rule of length 1 adds its symbol where its left part is the one asked about, or was added.
#[derive(Clone, Copy)]
struct UnitRules<'b> {
    table: &'b Table,
    from: u16,
}

impl Growth for UnitRules<'_> {
    ghost grammar = { λ u. (meaning_of u.table.now).grammar };

    ghost fires = { λ u. UnitFrom (meaning_of u.table.now).grammar u.from };

    ghost added = { λ u r. symbol_of (meaning_of u.table.now).grammar r 0 };

    ghost derived = { λ u. UnitPath (meaning_of u.table.now).grammar u.from };

    fn count(&self) -> u16 {
        self.table.rules()
    }

    fn fires(&self, rule: u16, set: &SymbolSet) -> bool {
        let left = self.table.left(rule);
        self.table.size(rule) == 1 && (left == self.from || set.contains(left))
    }

    fn added(&self, rule: u16) -> u16 {
        self.table.symbol(rule, 0)
    }

    ghost follows = { λ u r held n all derived. ⊎_elim (λ e. UnitPath.one r n all.0 e) (λ h. UnitPath.more r n all.0 (derived _ h)) all.1 };
}

// A table whose counts, rules and keys are in form.
#[derive(Clone, Copy)]
pub(super) struct FormedTable {
    pub(super) table: Table,
    ghost formed: { ∥ WellFormed (meaning_of table) ∥₁ },
}

impl FormedTable {
    // The set of all keys.
    fn keys_only(&self) -> SymbolSet
        ensures { (c : ℕ) → IsTrue (has result c) ↔ ((33 ≤ c) × (c ≤ 32 + (meaning_of self.now.table).grammar.keys)) }
    {
        (33..33 + self.table.keys()).fold(SymbolSet::empty(), |set, key| set.with(key))
    }

    // The lowest part that cannot be turned into keys alone.
    pub(super) fn unproductive(&self) -> Option<u16>
        ensures { MatchOption result ((X : ℕ) → Part (meaning_of self.now.table).grammar X → Productive (meaning_of self.now.table).grammar X) (λ p. Lowest (meaning_of self.now.table).grammar (Productive (meaning_of self.now.table).grammar) p) }
    {
        let growth = Productivity { table: &self.table };
        let set = closure(&growth, self.keys_only());
        (1..1 + self.table.parts()).find(|part| !set.contains(*part))
    }

    // Whether a part is turned into itself alone.
    fn is_cyclic(&self, from: u16) -> bool
        ensures { IsTrue result ↔ UnitPath (meaning_of self.now.table).grammar from from }
    {
        let growth = UnitRules {
            table: &self.table,
            from,
        };
        closure(&growth, SymbolSet::empty()).contains(from)
    }

    // The lowest part that is turned into itself alone.
    pub(super) fn cyclic(&self) -> Option<u16>
        ensures { MatchOption result ((X : ℕ) → Part (meaning_of self.now.table).grammar X → UnitPath (meaning_of self.now.table).grammar X X → ⊥) (λ p. Lowest (meaning_of self.now.table).grammar (λ X. UnitPath (meaning_of self.now.table).grammar X X → ⊥) p) }
    {
        (1..1 + self.table.parts()).find(|part| self.is_cyclic(*part))
    }
}
