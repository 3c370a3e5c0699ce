// The first reading of a programme, by the tables of the recogniser, as moves from the first to the last.
use super::books::Rule;
use super::recogniser::Known;
use std::alloc::{AllocError, Global};

// The move that joins a symbol to its rule, and the move that ends a rule.
const REMOVE: u8 = 129;

const MOVE: u8 = 0;

// More steps than there are: one for each move, and one for each symbol that is read.
const MOST_STEPS: usize = 20_000;

// A symbol that spans from one place to another.
#[derive(Clone, Copy)]
struct Span {
    symbol: u16,
    start: usize,
    end: usize,
}

// What is still to be written.
#[derive(Clone, Copy)]
enum Due {
    Move(u8),
    // the moves of the first reading of a span
    Reading(Span),
}

// The lowest rule by which a part spans, and its number; none for a key.
fn lowest_rule<'m>(known: &Known<'m>, span: Span) -> Option<(usize, &'m Rule)> {
    for (place, rule) in known.rules().iter().enumerate() {
        let ends = known.behind_all(rule.body.as_slice(), span.start);
        if rule.left == span.symbol && ends.contains(span.end) {
            return Some((place + 1, rule));
        }
    }
    None
}

// The earliest place where the symbol at this place of a rule may begin that ends with the span.
fn earliest_begin(known: &Known, rule: &Rule, place: usize, span: Span) -> usize {
    let begins = known.behind_first(rule.body.as_slice(), place, span.start);
    let symbol = rule.body.get(place).map_or(0, |symbol| *symbol);
    (span.start..span.end)
        .find(|begin| begins.contains(*begin) && known.spans(symbol, *begin, span.end))
        .unwrap_or(span.end)
}

// Notes what is to be written of a span, the last first: nothing of a key.
fn note(known: &Known, span: Span, due: &mut Vec<Due>) -> Result<(), AllocError> {
    let Some((number, rule)) = lowest_rule(known, span) else {
        return Ok(());
    };
    due.push(Due::Move(MOVE))?;
    let mut rest = span;
    for (place, symbol) in rule.body.iter().enumerate().rev() {
        let start = earliest_begin(known, rule, place, rest);
        due.push(Due::Move(join(number, place)))?;
        due.push(Due::Reading(Span {
            symbol: *symbol,
            start,
            end: rest.end,
        }))?;
        rest.end = start;
    }
    Ok(())
}

// What joins a symbol to its rule: the number of the rule behind the first one.
fn join(number: usize, place: usize) -> u8 {
    if place == 0 {
        u8::try_from(number).unwrap_or(u8::MAX)
    } else {
        REMOVE
    }
}

// The most entries that the second stack holds while these moves are made. A rule adds as many as it has symbols, an end mark
// in place of the first; each other move takes one off.
pub fn deepest(known: &Known, moves: &[u8]) -> usize {
    let mut entries = 1usize;
    let mut most = entries;
    for number in moves {
        let place = usize::from(*number).wrapping_sub(1);
        entries = match known.rules().get(place) {
            Some(rule) => entries.saturating_add(rule.body.len()),
            None => entries.saturating_sub(1),
        };
        most = most.max(entries);
    }
    most
}

// The moves of the first reading of the words, which are a programme.
pub fn first_reading(heap: Global, known: &Known) -> Result<Vec<u8>, AllocError> {
    let mut moves = Vec::new(heap);
    let whole = Span {
        symbol: known.start(),
        start: 0,
        end: known.words(),
    };
    let mut due = vec![in heap; Due::Move(REMOVE), Due::Reading(whole)]?;
    for _ in 0..MOST_STEPS {
        match due.pop() {
            Some(Due::Move(number)) => moves.push(number)?,
            Some(Due::Reading(span)) => note(known, span, &mut due)?,
            None => break,
        }
    }
    Ok(moves)
}
