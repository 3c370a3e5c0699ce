// Least sets of symbols, by rounds over the rules until nothing is added.
ghost use Rattle.std.specs.Prelude.{◌≡◌, ℕ, Bool, true, length, IsTrue, ◌↔◌};
ghost use Rattle.language.specs.Book.{Grammar, Numbered};
ghost use Rattle.rulebook.specs.Sets.{has};
ghost use Rattle.soundbook.specs.Closures.{Grown, Closed};

use rulebook::SymbolSet;

// A way in which rules add symbols to a set: a rule adds one symbol to a set that lets it. Each way tells whose rules they
// are and how many, though all do so alike: the law below speaks of them.
pub(super) trait Growth {
    // whose rules
    ghost grammar: { Self → Grammar };

    // rule r may add its symbol to a set that holds these
    ghost fires: { Self → ℕ → (ℕ → Bool) → Type 0 };

    // the symbol that rule r adds
    ghost added: { Self → ℕ → ℕ };

    // what is true of each symbol added
    ghost derived: { Self → ℕ → Type 0 };

    fn count(&self) -> u16
        ensures { result ≡ length (grammar self.now).rules };

    fn fires(&self, rule: u16, set: &SymbolSet) -> bool
        ensures { IsTrue result ↔ fires self.now rule (has set.now) };

    fn added(&self, rule: u16) -> u16
        ensures { result ≡ added self.now rule };

    // what a rule adds is derived where all of the set is
    ghost follows: { (x : Self) (r : ℕ) (held : ℕ → Bool) → Numbered (grammar x) r → fires x r held → ((c : ℕ) → held c ≡ true → derived x c) → derived x (added x r) };
}

// The set after one rule; rules count from 1.
fn step<G: Growth>(growth: &G, rule: u16, set: &SymbolSet) -> SymbolSet
    requires { Numbered (G.grammar growth.now) rule }
    ensures { Grown (G.derived growth.now) set.now result × Closed (G.fires growth.now rule) (G.added growth.now rule) set.now result }
{
    if growth.fires(rule, set) {
        set.with(growth.added(rule))
    } else {
        *set
    }
}

// The set after one round over all rules.
fn round<G: Growth>(growth: &G, set: &SymbolSet) -> SymbolSet
    ensures grown { Grown (G.derived growth.now) set.now result }
    ensures closed { (i : ℕ) → Numbered (G.grammar growth.now) i → Closed (G.fires growth.now i) (G.added growth.now i) set.now result }
{
    // Each step starts from the set that the last one left, and asks that its number is a rule's.
    let mut next = *set;
    for rule in 1..=growth.count() {
        next = step(growth, rule, &next);
    }
    next
}

// The least set that holds a first set and to which no rule adds anything.
pub(super) fn closure<G: Growth>(growth: &G, first: SymbolSet) -> SymbolSet
    ensures grown { Grown (G.derived growth.now) first result }
    ensures closed { (i : ℕ) → Numbered (G.grammar growth.now) i → Closed (G.fires growth.now i) (G.added growth.now i) result result }
{
    // Until a round adds nothing: how many rounds that takes is not known before.
    let mut set = first;
    loop {
        let next = round(growth, &set);
        if next == set {
            return set;
        }
        set = next;
    }
}
