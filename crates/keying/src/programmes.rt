// A programme is keyed in, and what is said of it.
ghost use Rattle.std.specs.Prelude.{◌≡◌, map, string_bytes, IfOk, MatchOption};
ghost use Rattle.soundbook.specs.Sounds.{sound_meaning};
ghost use Rattle.dialogue.specs.Calls.{calls_as_sets, answers_in};
ghost use Rattle.dialogue.specs.declared.calls.Answer.TheVariants.{Refused};
ghost use Rattle.keying.specs.Keyed.{piece_word, keying, spelled_tells, KeyedRun, WordSaid, LastSaid, AllKeyed, KeyedIn};

use dialogue::{Answer, Call, Exchange, run};
use draft::Item;
use lines::{fault_line, whole_line, word_line};
use rulebook::Fault;
use soundbook::SoundBook;
use std::alloc::{AllocError, Global};
use wording::{Placed, Programme, Spelled, cut};

// How many places the chart has.
const PLACES: usize = 8000;

// How many bytes the strip has: as many as the first reading of 100 words has moves at most.
const STRIP: usize = 12_836;

// The calls that key in words: a press of each and what is lit then, and in the end the reading.
fn exchanges_of<'t, 'b>(
    heap: Global,
    book: &'b SoundBook,
    words: &[Placed<'t>],
) -> Result<Vec<Exchange<Spelled<'t, 'b>>>, AllocError>
    ensures { IfOk result (λ es. calls_as_sets spelled_tells es.items ≡ keying (map (piece_word (sound_meaning book.now)) words.now)) }
{
    let mut exchanges = Vec::new(heap);
    for word in words {
        exchanges.push(Exchange {
            call: Call::Press(Spelled { word: *word, book }),
            answer: Answer::BLANK,
        })?;
        exchanges.push(Exchange {
            call: Call::Lit,
            answer: Answer::BLANK,
        })?;
    }
    exchanges.push(Exchange {
        call: Call::Reading,
        answer: Answer::BLANK,
    })?;
    Ok(exchanges)
}

// Why a call was refused, if it was.
fn refusal(answer: &Answer) -> Option<Fault>
    ensures { MatchOption result ((f : _) → answer.now ≡ Refused f → ⊥) (λ f. answer.now ≡ Refused f) }
{
    match answer {
        Answer::Refused(fault) => Some(*fault),
        _ => None,
    }
}

// The line of a word that is taken.
fn word_said(
    heap: Global,
    number: usize,
    pressed: Answer,
    lit: Answer,
) -> Result<String, AllocError>
    ensures { IfOk result (λ l. WordSaid number pressed lit (string_bytes l)) }
{
    match (pressed, lit) {
        (Answer::Items(items), Answer::Keys(lit)) => word_line(heap, number, items, lit.count),
        _ => Ok(String::new(heap)),
    }
}

// The last line, once all words that could be cut are taken.
fn last_line(heap: Global, fault: Option<Fault>, reading: Answer) -> Result<String, AllocError>
    ensures { IfOk result (λ s. LastSaid fault reading (string_bytes s)) }
{
    match (fault, reading) {
        (Some(fault), _) => fault_line(heap, &fault),
        (None, Answer::Moves(written)) => whole_line(heap, written.moves),
        (None, _) => String::from_str(heap, "short\n"),
    }
}

// A run that keys in the words of a programme, over a chart and with a strip that are lent to it.
fn run_of<'t, 'b>(
    heap: Global,
    book: &'b SoundBook,
    programme: &Programme<'t>,
) -> Result<Vec<Exchange<Spelled<'t, 'b>>>, AllocError>
    ensures { IfOk result (λ es. KeyedRun book.now (map (piece_word (sound_meaning book.now)) programme.now.words.items) (answers_in es.items)) }
{
    let mut exchanges = exchanges_of(heap, book, programme.words.as_slice())?;
    let chart = vec![in heap; Item::BLANK; PLACES]?;
    let mut strip = vec![in heap; 0u8; STRIP]?;
    let _chart = run(book, chart, exchanges.as_mut_slice(), strip.as_mut_slice());
    Ok(exchanges)
}

// What is said of the words of a programme that are keyed in, one by one up to the first that is refused.
fn key_words(heap: Global, book: &SoundBook, programme: &Programme) -> Result<String, AllocError>
    ensures { IfOk result (λ s. AllKeyed (sound_meaning book.now) programme.now.words.items programme.now.fault (string_bytes s)) }
{
    let exchanges = run_of(heap, book, programme)?;
    let words = programme.words.len();
    let mut said = String::new(heap);
    for place in 0..words {
        let pressed = exchanges[2 * place].answer;
        if let Some(fault) = refusal(&pressed) {
            said.push_str(fault_line(heap, &fault)?.as_str())?;
            return Ok(said);
        }
        let lit = exchanges[2 * place + 1].answer;
        said.push_str(word_said(heap, place + 1, pressed, lit)?.as_str())?;
    }
    said.push_str(last_line(heap, programme.fault, exchanges[2 * words].answer)?.as_str())?;
    Ok(said)
}

/// What is said of a programme text that is keyed in by the rules of a sound book: a line for each word that is taken, and the
/// last line. Where it runs out of memory nothing is left behind.
pub fn programme_lines(heap: Global, book: &SoundBook, text: &[u8]) -> Result<String, AllocError>
    ensures { IfOk result (λ s. KeyedIn (sound_meaning book.now) text.now (string_bytes s)) }
{
    key_words(heap, book, &cut(heap, text)?)
}
