// What is looked up in a book again and again, worked out once.
ghost use Rattle.std.specs.Prelude.{◌≡◌, ℕ, ◌<◌, ◌≤◌, length, slice_index};
ghost use Rattle.language.specs.Book.{symbol as symbol_of};
ghost use Rattle.soundbook.specs.Sounds.{sound_meaning};
ghost use Rattle.chart.specs.Indexes.{CornersKept, ChainsKept, IndexOf, ChainOf, corners_at, chains_in};

use rulebook::{Book, SymbolSet};
use soundbook::{SoundBook, left_corners};

// The rules by the symbol at one place of their right sides: the last rule that has a symbol there, and for each rule the one
// before it that has the same symbol there; 0 where there is none.
#[derive(Clone, Copy)]
pub(super) struct Chains {
    lasts: [u16; 65],
    befores: [u16; 129],
}

impl Chains {
    // no rule has any symbol there
    const NONE: Chains = Chains {
        lasts: [0; 65],
        befores: [0; 129],
    };
}

// The left corners of every symbol, and the rules by the symbols at each place.
#[derive(Clone, Copy)]
pub(super) struct Index {
    corners: [SymbolSet; 65],
    chains: [Chains; 6],
}

// The left corners of the symbols 1 to 64, each at the place of its number.
fn corners_of(book: &SoundBook) -> [SymbolSet; 65]
    ensures { CornersKept (sound_meaning book.now).grammar result }
{
    let mut corners = [SymbolSet::EMPTY; 65];
    for symbol in 1..65u16 {
        corners[usize::from(symbol)] = left_corners(book, symbol);
    }
    corners
}

// The rules by the symbol at one place.
fn chains_at(book: &SoundBook, at: u16) -> Chains
    ensures { ChainsKept (sound_meaning book.now).grammar at result }
{
    let mut chains = Chains::NONE;
    // From 0: a range that holds its end has two ends in a proof.
    for place in 0..book.rules() {
        let rule = place + 1;
        let symbol = usize::from(book.symbol(rule, at));
        chains.befores[usize::from(rule)] = chains.lasts[symbol];
        chains.lasts[symbol] = rule;
    }
    chains
}

// The same for each place.
fn chains_of(book: &SoundBook) -> [Chains; 6]
    ensures { (d : ℕ) → d < 6 → ChainsKept (sound_meaning book.now).grammar d (chains_in result d) }
{
    let mut chains = [Chains::NONE; 6];
    for at in 0..6u16 {
        chains[usize::from(at)] = chains_at(book, at);
    }
    chains
}

impl Index {
    pub(super) fn of(book: &SoundBook) -> Index
        ensures { IndexOf (sound_meaning book.now).grammar result }
    {
        Index {
            corners: corners_of(book),
            chains: chains_of(book),
        }
    }

    // The left corners of a symbol.
    pub(super) fn corners(&self, symbol: u16) -> SymbolSet
        requires { symbol ≤ 64 }
        ensures { result ≡ corners_at self.now symbol }
    {
        self.corners[usize::from(symbol)]
    }

    // The last rule that has a symbol at a place.
    pub(super) fn last(&self, at: u16, symbol: u16) -> u16
        requires place { at < 6 }
        requires symbol { symbol ≤ 64 }
        ensures { result ≡ slice_index (chains_in self.now.chains at).lasts symbol }
    {
        self.chains[usize::from(at)].lasts[usize::from(symbol)]
    }

    // The rule before a rule that has the same symbol at a place.
    pub(super) fn before(&self, at: u16, rule: u16) -> u16
        requires place { at < 6 }
        requires rule { rule ≤ 128 }
        ensures { result ≡ slice_index (chains_in self.now.chains at).befores rule }
    {
        self.chains[usize::from(at)].befores[usize::from(rule)]
    }
}
