//! Runs of calls on a new draft.
ghost use Rattle.std.specs.Prelude.{◌≡◌, map, IfErr, OnErr, OnOk};
ghost use Rattle.language.specs.Sound.{Sound};
ghost use Rattle.soundbook.specs.Refusals.{CheckRefuses};
ghost use Rattle.soundbook.specs.Sounds.{sound_meaning};
ghost use Rattle.chart.specs.Items.{told};
ghost use Rattle.draft.specs.Law.{IsLawful};
ghost use Rattle.dialogue.specs.Calls.{answer_of, call_of, calls_in, calls_as_sets, answers_in};
ghost use Rattle.dialogue.specs.Runs.{CallLaw, RunLaw, run_state};

use super::calls::{Answer, Call, Exchange};
use draft::{Draft, Item};
use reading::reading;
use rulebook::{Book, Fault};
use soundbook::{SoundBook, check};
use wording::Word;

/// The chart, and whether the book passed the check.
pub struct RunResult {
    pub chart: Vec<Item>,
    pub checked: Result<(), Fault>,
}

// What a call gives, or why it is refused.
fn outcome<W: Word>(draft: &mut Draft, call: &Call<W>, strip: &mut [u8]) -> Result<Answer, Fault>
    ensures lawful { IsLawful draft.new }
    ensures law { CallLaw (run_state draft.old strip.old) (call_of W.tells call.now) (answer_of result) (run_state draft.new strip.new) }
{
    Ok(match call {
        Call::Press(word) => Answer::Items(draft.press(word)?),
        Call::RubOut => Answer::Items(draft.rub_out()?),
        Call::Lit => Answer::Keys(draft.lit()),
        Call::Whole => Answer::Yes(draft.whole()),
        Call::Reading => Answer::Moves(reading(draft, strip)?),
    })
}

// Makes a call, and answers it: here a refusal becomes an answer.
fn make<W: Word>(draft: &mut Draft, call: &Call<W>, strip: &mut [u8]) -> Answer
    ensures lawful { IsLawful draft.new }
    ensures law { CallLaw (run_state draft.old strip.old) (call_of W.tells call.now) result (run_state draft.new strip.new) }
{
    outcome(draft, call, strip).unwrap_or_else(Answer::Refused)
}

/// Opens a new draft of a sound book over the chart, makes the calls in order, and answers each in its place. The chart comes
/// back. It refuses nothing and takes no memory; a refused call is answered, and the calls behind it are made.
pub fn run<W: Word>(
    book: &SoundBook,
    chart: Vec<Item>,
    exchanges: &mut [Exchange<W>],
    strip: &mut [u8],
) -> Vec<Item>
    ensures calls { calls_in exchanges.new ≡ calls_in exchanges.old }
    ensures law { RunLaw book.now (map told chart.items) strip.old (calls_as_sets W.tells exchanges.old) (answers_in exchanges.new) (map told result.items) strip.new }
{
    let mut draft = Draft::open(book, chart);
    for exchange in exchanges.iter_mut() {
        exchange.answer = make(&mut draft, &exchange.call, strip);
    }
    draft.into_chart()
}

/// Checks a book of any make into a place, opens a new draft of it over the chart, makes the calls in order, and answers each
/// in its place. A book that does not pass is refused (11 to 18), and then place, exchanges, chart and strip are as they were.
pub fn check_and_run<B: Book, W: Word>(
    book: &B,
    place: &mut SoundBook,
    chart: Vec<Item>,
    exchanges: &mut [Exchange<W>],
    strip: &mut [u8],
) -> RunResult
    ensures sound { OnOk result.checked (Sound (B.meaning book.now)) }
    ensures place { OnOk result.checked (sound_meaning place.new ≡ B.meaning book.now) }
    ensures calls { OnOk result.checked (calls_in exchanges.new ≡ calls_in exchanges.old) }
    ensures law { OnOk result.checked (RunLaw place.new (map told chart.items) strip.old (calls_as_sets W.tells exchanges.old) (answers_in exchanges.new) (map told result.chart.items) strip.new) }

    ensures refused { IfErr result.checked (CheckRefuses (B.meaning book.now)) }
    ensures same_place { OnErr result.checked (place.new ≡ place.old) }
    ensures same_exchanges { OnErr result.checked (exchanges.new ≡ exchanges.old) }
    ensures same_chart { OnErr result.checked (result.chart.items ≡ chart.items) }
    ensures same_strip { OnErr result.checked (strip.new ≡ strip.old) }
{
    if let Err(fault) = check(book, place) {
        return RunResult {
            chart,
            checked: Err(fault),
        };
    }
    RunResult {
        chart: run(place, chart, exchanges, strip),
        checked: Ok(()),
    }
}
