// The left corners of a symbol, as a set.
ghost use Rattle.std.specs.Prelude.{length};
ghost use Rattle.language.specs.Book.{symbol as symbol_of};
ghost use Rattle.language.specs.Chart.{Corner};
ghost use Rattle.soundbook.specs.Closures.{LeftHeld};
ghost use Rattle.soundbook.specs.Corners.{CornersOf};
ghost use Rattle.soundbook.specs.Sounds.{sound_meaning};
ghost use Rattle.soundbook.specs.Tables.{meaning_of};

use super::closures::{Growth, closure};
use super::sounds::SoundBook;
use super::tables::Table;
use rulebook::{Book, SymbolSet};

// A rule adds its first symbol where its left part is in the set. Every set holds only left corners of the symbol from.
#[derive(Clone, Copy)]
struct FirstSymbols<'b> {
    table: &'b Table,
    from: u16,
}

impl Growth for FirstSymbols<'_> {
    ghost grammar = { λ f. (meaning_of f.table.now).grammar };

    ghost fires = { λ f. LeftHeld (meaning_of f.table.now).grammar };

    ghost added = { λ f r. symbol_of (meaning_of f.table.now).grammar r 0 };

    ghost derived = { λ f. Corner (meaning_of f.table.now).grammar f.from };

    fn count(&self) -> u16 {
        self.table.rules()
    }

    fn fires(&self, rule: u16, set: &SymbolSet) -> bool {
        set.contains(self.table.left(rule))
    }

    fn added(&self, rule: u16) -> u16 {
        self.table.symbol(rule, 0)
    }

    ghost follows = { λ f r held n all derived. Corner.down r n (derived _ all) };
}

// The left corners of a symbol: every symbol that can stand first in what it is turned into, itself among them.
pub fn left_corners(book: &SoundBook, symbol: u16) -> SymbolSet
    ensures { CornersOf (sound_meaning book.now).grammar symbol result }
{
    let growth = FirstSymbols {
        table: &book.table,
        from: symbol,
    };
    closure(&growth, SymbolSet::empty().with(symbol))
}
