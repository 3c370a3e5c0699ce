//! The draft over a sound book and a chart.
ghost use Rattle.std.specs.Prelude.{◌≡◌, ◌<◌, ◌++◌, length, map, MatchResult};
ghost use Rattle.wording.specs.Sets.{word_of};
ghost use Rattle.chart.specs.Items.{told};
ghost use Rattle.draft.specs.States.{words};
ghost use Rattle.draft.specs.Law.{IsLawful, IsNew, PressTaken, PressRefused, RubOutTaken, RubOutRefused, LitIs};
ghost use Rattle.draft.specs.Questions.{WordsFull, IsLit, IsDark};
ghost use Rattle.draft.specs.Schema.{ColumnIs};

use super::lit_set::LitSet;
use chart::{Draft as Chart, Item, MOST_WORDS};
use rulebook::Fault;
use soundbook::SoundBook;
use std::marker::Model;
use wording::{Matched, Word};

/// The words held, and the chart of the items over them. What it means is told by `DraftState`.
#[derive(Drop)]
pub struct Draft<'b> {
    chart: Chart<'b>,
}

impl<'b> Model for Draft<'b> {
    ghost use Rattle.draft.specs.States.{DraftState};

    ghost Value = { DraftState };

    ghost use Rattle.chart.specs.States.{Stands};
    ghost use Rattle.draft.specs.Views.{state_of};

    ghost view = { λ d. state_of d.chart };

    ghost invariant = { λ d. Stands d.chart };
}

impl<'b> Draft<'b> {
    /// A new draft, which holds no word. Its places are the first 60,000 of the chart, or all if there are fewer; they are
    /// blanked, and the others stay.
    pub fn open(book: &'b SoundBook, chart: Vec<Item>) -> Draft<'b>
        ensures lawful { IsLawful result }
        ensures new { IsNew book.now (map told chart.items) result }
    {
        Draft {
            chart: Chart::open(book, chart),
        }
    }

    /// The chart, with what stands in it.
    pub fn into_chart(self) -> Vec<Item>
        ensures { map told result.items ≡ self.entry.places ++ self.entry.beyond }
    {
        let Draft { chart } = self;
        chart.into_chart()
    }

    // Are fewer than 100 words held?
    fn ask_words(&self) -> Result<(), Fault>
        ensures { MatchResult result (λ _. length (words self.now) < 100) (WordsFull self.now) }
    {
        let held = usize::from(self.chart.held());
        if held < MOST_WORDS {
            Ok(())
        } else {
            Err(Fault::DraftFull { held })
        }
    }

    // Does a word match a lit key? Answers the set of the keys that it matches.
    fn ask_lit<W: Word>(&self, word: &W) -> Result<Matched, Fault>
        ensures { MatchResult result (IsLit self.now (word_of (W.tells word.now))) (IsDark self.now (word_of (W.tells word.now))) }
    {
        let matched = Matched::of(word);
        if matched.keys().common(&self.chart.lit_keys()).is_empty() {
            let held = usize::from(self.chart.held());
            return Err(Fault::DarkWord { held });
        }
        Ok(matched)
    }

    /// Adds a word behind those held, and answers how many items stand. Refused, and nothing is changed: where 100 words are
    /// held (21); then where the word matches no lit key (22); then where the items, this word held too, are more than the
    /// draft's places (23).
    pub fn press<W: Word>(&mut self, word: &W) -> Result<usize, Fault>
        ensures lawful { IsLawful self.new }
        ensures cases { let w = word_of (W.tells word.now) in MatchResult result (PressTaken self.old self.new w) (PressRefused self.old self.new w) }
    {
        self.ask_words()?;
        let matched = self.ask_lit(word)?;
        self.chart.take(matched)
    }

    /// Removes the last word, and answers how many items stand. Refused where no word is held (24), and then nothing is
    /// changed.
    pub fn rub_out(&mut self) -> Result<usize, Fault>
        ensures lawful { IsLawful self.new }
        ensures cases { MatchResult result (RubOutTaken self.old self.new) (RubOutRefused self.old self.new) }
    {
        self.chart.rub_out()
    }

    /// The lit keys, which may follow the words held, and how many they are.
    pub fn lit(&self) -> LitSet
        ensures lawful { IsLawful self.now }
        ensures lit { LitIs self.now result }
    {
        let keys = self.chart.lit_keys();
        LitSet {
            keys,
            count: keys.count(),
        }
    }

    /// Whether the words held are a programme.
    pub fn whole(&self) -> bool
        ensures lawful { IsLawful self.now }
        ensures whole { result ≡ self.now.whole }
    {
        self.chart.whole()
    }

    /// The sound book by whose rules the words are read.
    pub fn book(&self) -> &'b SoundBook
        ensures { result.now ≡ self.now.book }
    {
        self.chart.book()
    }

    /// The chart's places, as they stand: the draft's own in front.
    pub fn places(&self) -> &[Item]
        ensures { map told result.now ≡ self.now.places ++ self.now.beyond }
    {
        self.chart.places()
    }

    /// How many words are held, 0 to 100.
    pub fn held(&self) -> u16
        ensures { result ≡ length (words self.now) }
    {
        self.chart.held()
    }

    /// The items that end at a word, which counts from 1; none where no such word is held. They are those of the schema.
    pub fn column(&self, word: u16) -> &[Item]
        ensures { ColumnIs self.now word (map told result.now) }
    {
        self.chart.column(word)
    }
}
