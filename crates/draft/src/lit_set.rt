//! The lit keys, and how many they are.

use rulebook::SymbolSet;

/// The lit keys as a set, and how many they are.
#[derive(Clone, Copy, Debug, PartialEq, Eq)]
pub struct LitSet {
    pub keys: SymbolSet,
    pub count: u32,
}
