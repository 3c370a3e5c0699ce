// Walks: words are pressed and rubbed out by chance, and after each step the draft is held against the recogniser.
use super::books::{FIRST_KEY, Made};
use super::numbers::Numbers;
use super::readings::{deepest, first_reading};
use super::recogniser::{Known, Listed, MOST_WORDS, recognise};
use super::reports::{Kind, Report};
use super::words::Several;
use draft::{Draft, Item};
use reading::{Written, reading, replay};
use rulebook::{Fault, SymbolSet};
use soundbook::SoundBook;
use std::alloc::{AllocError, Global};
use wording::{Matched, Pressed, Word};

// How many steps a walk has.
const STEPS: u16 = 16;

// The places of a chart that is mostly large enough.
const ENOUGH: usize = 1000;

// The places of the strip: more than the moves of any reading of so few words by so few parts.
const STRIP: usize = 512;

// What stands in a lent room before a replay.
const BEFORE: u8 = 9;

// What stands on a strip that is too short: the number of no move.
const UNWRITTEN: u8 = u8::MAX;

// A step of a walk.
#[derive(Drop)]
enum Step {
    RubOut,
    // one key is pressed
    Key(u16),
    // a word is pressed that matches all of these
    Several(SymbolSet),
}

// A walk: a draft, and what is to be known of the words that it should hold.
#[derive(Drop)]
pub struct Walk<'b> {
    made: &'b Made,
    sound: &'b SoundBook,
    draft: Draft<'b>,
    // how many places the chart has
    places: usize,
    words: Vec<Matched>,
    known: Known<'b>,
}

// One of the lit keys, or none where none is lit.
fn lit_key(numbers: &mut Numbers, known: &Known) -> Option<u16> {
    let lit = known.lit();
    let many = u16::try_from(lit.count()).unwrap_or(0);
    let pick = usize::from(numbers.below(many));
    let mut keys = (33..=64u16).filter(|key| lit.contains(*key));
    keys.nth(pick)
}

// Some keys of a book, and perhaps one more.
fn some_keys(numbers: &mut Numbers, made: &Made) -> SymbolSet {
    let mut keys = SymbolSet::empty();
    for key in FIRST_KEY..=made.last_key().saturating_add(1) {
        if numbers.one_in(2) {
            keys = keys.with(key);
        }
    }
    keys
}

// By what kind of answer a press is counted that must answer this.
fn press_kind(wanted: Result<usize, Fault>) -> Kind {
    match wanted {
        Ok(_) => Kind::Taken,
        Err(Fault::DarkWord { .. }) => Kind::Dark,
        Err(_) => Kind::ChartFull,
    }
}

// The same for a rub out.
fn rub_out_kind(wanted: Result<usize, Fault>) -> Kind {
    match wanted {
        Ok(_) => Kind::RubbedOut,
        Err(_) => Kind::NothingHeld,
    }
}

// The items that stand in a chart, sorted.
fn standing(heap: Global, chart: &[Item]) -> Result<Vec<Listed>, AllocError> {
    let mut items = Vec::new(heap);
    for item in chart {
        if *item != Item::BLANK {
            items.push((
                usize::from(item.end),
                usize::from(item.start),
                usize::from(item.rule),
                usize::from(item.done),
            ))?;
        }
    }
    items.sort_unstable();
    Ok(items)
}

impl<'b> Walk<'b> {
    // A walk over a chart of so many places, in which no word is held yet.
    fn open(
        heap: Global,
        made: &'b Made,
        sound: &'b SoundBook,
        places: usize,
    ) -> Result<Walk<'b>, AllocError> {
        Ok(Walk {
            made,
            sound,
            draft: Draft::open(sound, vec![in heap; Item::BLANK; places]?),
            places,
            words: Vec::new(heap),
            known: recognise(made, &[]),
        })
    }

    // Counts a case of a kind, and passes on whether the answers are the same.
    fn count(&self, report: &mut Report, kind: Kind, same: bool) -> Result<bool, AllocError> {
        report.count(kind, same, self.made, self.words.as_slice())?;
        Ok(same)
    }

    // The next step: mostly a lit key, but also any number, several keys, and a rub out.
    fn choose(&self, numbers: &mut Numbers) -> Step {
        if self.words.len() >= MOST_WORDS {
            return Step::RubOut;
        }
        match numbers.below(16) {
            0 => Step::RubOut,
            1 => Step::Key(numbers.between(FIRST_KEY, self.made.last_key().saturating_add(1))),
            2 => Step::Key(numbers.below(70)),
            3..=5 => Step::Several(some_keys(numbers, self.made)),
            _ => lit_key(numbers, &self.known).map_or(Step::RubOut, Step::Key),
        }
    }

    // What the press of the last word must answer, so many words being held before. One that must be taken is known from
    // now on.
    fn want_press(
        &mut self,
        heap: Global,
        held: usize,
    ) -> Result<Result<usize, Fault>, AllocError> {
        if !self.words.last().is_some_and(|word| self.known.takes(word)) {
            return Ok(Err(Fault::DarkWord { held }));
        }
        let known = recognise(self.made, self.words.as_slice());
        let items = known.items(heap)?.len();
        if items > self.places {
            return Ok(Err(Fault::ChartFull { held }));
        }
        self.known = known;
        Ok(Ok(items))
    }

    // What a rub out must answer. The last word is taken from the words.
    fn want_rub_out(&mut self, heap: Global) -> Result<Result<usize, Fault>, AllocError> {
        if self.words.pop().is_none() {
            return Ok(Err(Fault::NothingHeld { held: 0 }));
        }
        self.known = recognise(self.made, self.words.as_slice());
        Ok(Ok(self.known.items(heap)?.len()))
    }

    // Compares what a call answers with what it must answer.
    fn compare_answer(
        &self,
        report: &mut Report,
        kind: Kind,
        answer: Result<usize, Fault>,
        wanted: Result<usize, Fault>,
    ) -> Result<bool, AllocError> {
        match (answer, wanted) {
            (Ok(items), Ok(wanted)) => {
                self.count(report, kind, true)?;
                self.count(report, Kind::Items, items == wanted)
            }
            (answer, wanted) => self.count(report, kind, answer == wanted),
        }
    }

    // Presses a word.
    fn press<W: Word>(
        &mut self,
        heap: Global,
        report: &mut Report,
        word: &W,
    ) -> Result<bool, AllocError> {
        let held = self.words.len();
        let answer = self.draft.press(word);
        self.words.push(Matched::of(word))?;
        let wanted = self.want_press(heap, held)?;
        let same = self.compare_answer(report, press_kind(wanted), answer, wanted)?;
        if wanted.is_err() {
            self.words.pop();
        }
        Ok(same)
    }

    // Rubs out a word.
    fn rub_out(&mut self, heap: Global, report: &mut Report) -> Result<bool, AllocError> {
        let answer = self.draft.rub_out();
        let wanted = self.want_rub_out(heap)?;
        self.compare_answer(report, rub_out_kind(wanted), answer, wanted)
    }

    // Takes a step.
    fn step(
        &mut self,
        heap: Global,
        numbers: &mut Numbers,
        report: &mut Report,
    ) -> Result<bool, AllocError> {
        match self.choose(numbers) {
            Step::RubOut => self.rub_out(heap, report),
            Step::Key(key) => self.press(heap, report, &Pressed { key }),
            Step::Several(keys) => self.press(heap, report, &Several { keys }),
        }
    }

    // Whether replay accepts the moves of a reading, in rooms as large as it asks.
    fn is_replayed(
        &self,
        heap: Global,
        written: Written,
        moves: &[u8],
    ) -> Result<bool, AllocError> {
        let words = self.words.as_slice();
        let rules = moves.len().saturating_sub(words.len()) / 2;
        let mut second = vec![in heap; BEFORE; written.depth]?;
        let mut third = vec![in heap; BEFORE; rules]?;
        let answer = replay(
            self.sound,
            words,
            moves,
            second.as_mut_slice(),
            third.as_mut_slice(),
        );
        Ok(answer.is_ok())
    }

    // Compares a depth with the entries of the second stack while these moves are made, and with its bound: 1 and 6 for each
    // rule.
    fn compare_depth(
        &self,
        report: &mut Report,
        depth: usize,
        moves: &[u8],
    ) -> Result<bool, AllocError> {
        let rules = moves.len().saturating_sub(self.words.len()) / 2;
        let most = rules.saturating_mul(6).saturating_add(1);
        let wanted = deepest(&self.known, moves)..=most;
        self.count(report, Kind::Depth, wanted.contains(&depth))
    }

    // Compares what a reading of so many moves answers with a strip one byte too short, which must stay as it is.
    fn compare_short(
        &self,
        heap: Global,
        report: &mut Report,
        moves: usize,
    ) -> Result<bool, AllocError> {
        let held = self.words.len();
        let mut strip = vec![in heap; UNWRITTEN; moves.saturating_sub(1)]?;
        let answer = reading(&self.draft, strip.as_mut_slice());
        let stays = strip.iter().all(|byte| *byte == UNWRITTEN);
        let same = answer == Err(Fault::StripShort { held }) && stays;
        self.count(report, Kind::StripShort, same)
    }

    // Compares a reading that was written, whether it is replayed, its depth, and that it wants all of its strip.
    fn compare_moves(
        &self,
        heap: Global,
        report: &mut Report,
        written: Written,
        strip: &[u8],
    ) -> Result<bool, AllocError> {
        let (moves, _) = strip.split_at(written.moves.min(strip.len()));
        let wanted = first_reading(heap, &self.known)?;
        let same = self.count(report, Kind::Read, moves == wanted.as_slice())?;
        let replayed = self.is_replayed(heap, written, moves)?;
        let same = self.count(report, Kind::Replayed, replayed)? && same;
        let same = self.compare_depth(report, written.depth, wanted.as_slice())? && same;
        Ok(self.compare_short(heap, report, wanted.len())? && same)
    }

    // Compares what a reading answers.
    fn compare_reading(&self, heap: Global, report: &mut Report) -> Result<bool, AllocError> {
        let mut strip = [0u8; STRIP];
        let answer = reading(&self.draft, &mut strip);
        if !self.known.is_whole() {
            let held = self.words.len();
            let same = answer == Err(Fault::NotWhole { held });
            return self.count(report, Kind::NotRead, same);
        }
        match answer {
            Ok(written) => self.compare_moves(heap, report, written, &strip),
            Err(_) => self.count(report, Kind::Read, false),
        }
    }

    // Compares what the draft tells.
    fn compare_state(&self, heap: Global, report: &mut Report) -> Result<bool, AllocError> {
        let lit = self.draft.lit();
        let wanted = self.known.lit();
        let same_lit = lit.keys == wanted && lit.count == wanted.count();
        let same_whole = self.draft.whole() == self.known.is_whole();
        let same = self.count(report, Kind::Lit, same_lit)?;
        if self.count(report, Kind::Whole, same_whole)? && same {
            self.compare_reading(heap, report)
        } else {
            Ok(false)
        }
    }

    // Compares the chart, which ends the walk.
    fn compare_chart(self, heap: Global, report: &mut Report) -> Result<(), AllocError> {
        let Walk {
            made,
            sound: _,
            draft,
            places: _,
            words,
            known,
        } = self;
        let items = standing(heap, draft.into_chart().as_slice())?;
        let mut wanted = known.items(heap)?;
        wanted.sort_unstable();
        let same = items.as_slice() == wanted.as_slice();
        report.count(Kind::Chart, same, made, words.as_slice())
    }
}

// How many places the chart of a walk has: mostly enough.
fn some_places(numbers: &mut Numbers) -> usize {
    if numbers.one_in(5) {
        usize::from(numbers.below(60))
    } else {
        ENOUGH
    }
}

// Walks once by the rules of a book, up to the first answer that differs.
pub fn compare_walk(
    heap: Global,
    numbers: &mut Numbers,
    made: &Made,
    sound: &SoundBook,
    report: &mut Report,
) -> Result<(), AllocError> {
    let mut walk = Walk::open(heap, made, sound, some_places(numbers))?;
    let mut same = walk.compare_state(heap, report)?;
    for _ in 0..STEPS {
        if !same {
            break;
        }
        same = walk.step(heap, numbers, report)? && walk.compare_state(heap, report)?;
    }
    walk.compare_chart(heap, report)
}
