// Sets of symbols.
ghost use Rattle.std.specs.Prelude.{◌≡◌, ℕ, ◌≤◌, false, ◌||◌, ◌&&◌, ◌==◌, IsTrue, ◌↔◌};
ghost use Rattle.rulebook.specs.Sets.{holds, has, is_symbol, key_number, many};

// The two questions of a mask stand apart from the set's methods, which then prove with no file of their own. They are asked
// at every step of a press, so they compare with a range once, and do not go through `place_of`.

// Whether a mask holds a symbol.
fn mask_holds(mask: u64, symbol: u16) -> bool
    ensures { result ≡ holds mask symbol }
{
    match symbol {
        1..=64 => (mask >> (symbol - 1)) % 2 == 1,
        _ => false,
    }
}

// The mask with one symbol more; a number that is no symbol leaves it.
fn mask_with(mask: u64, symbol: u16) -> u64
    ensures held { (c : ℕ) → holds result c ≡ (is_symbol symbol c || holds mask c) }
    ensures grows { mask ≤ result }
{
    match symbol {
        1..=64 => mask | 1 << (symbol - 1),
        _ => mask,
    }
}

// A set of symbols from 1 to 64, as a mask: symbol c stands at bit c - 1.
#[derive(Clone, Copy, Debug, PartialEq, Eq, Hash)]
pub struct SymbolSet {
    mask: u64,
}

impl SymbolSet {
    // no symbol
    pub const EMPTY: SymbolSet = SymbolSet { mask: 0 };

    pub fn empty() -> SymbolSet
        ensures { result.mask ≡ 0 }
    {
        SymbolSet::EMPTY
    }

    // The numbers that a key can have, 33 to 64.
    pub fn keys() -> SymbolSet
        ensures { (c : ℕ) → has result c ≡ key_number c }
    {
        SymbolSet {
            mask: u64::MAX << 32,
        }
    }

    pub fn is_empty(&self) -> bool
        ensures { IsTrue result ↔ ((c : ℕ) → has self.now c ≡ false) }
    {
        self.mask == 0
    }

    // How many symbols the set holds.
    pub fn count(&self) -> u32
        ensures { result ≡ many self.now }
    {
        self.mask.count_ones()
    }

    pub fn contains(&self, symbol: u16) -> bool
        ensures { result ≡ has self.now symbol }
    {
        mask_holds(self.mask, symbol)
    }

    // Whether two sets hold the same symbols: the derived equality, said of the masks.
    pub fn same(&self, other: &SymbolSet) -> bool
        ensures { result ≡ (self.now.mask == other.now.mask) }
    {
        self == other
    }

    // The set with one symbol more; a number that is no symbol leaves it.
    pub fn with(&self, symbol: u16) -> SymbolSet
        ensures held { (c : ℕ) → has result c ≡ (is_symbol symbol c || has self.now c) }
        ensures grows { self.now.mask ≤ result.mask }
    {
        SymbolSet {
            mask: mask_with(self.mask, symbol),
        }
    }

    // The symbols of either set.
    pub fn union(&self, other: &SymbolSet) -> SymbolSet
        ensures { (c : ℕ) → has result c ≡ (has self.now c || has other.now c) }
    {
        SymbolSet {
            mask: self.mask | other.mask,
        }
    }

    // The symbols of both sets.
    pub fn common(&self, other: &SymbolSet) -> SymbolSet
        ensures { (c : ℕ) → has result c ≡ (has self.now c && has other.now c) }
    {
        SymbolSet {
            mask: self.mask & other.mask,
        }
    }
}
