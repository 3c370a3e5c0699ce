// Whether a book that is well formed is sound, by plain passes over its rules.
use super::books::{FIRST_KEY, Made};
use super::sets::SmallSet;
use rulebook::Fault;

// More passes than there are: each but the last adds a part to a set.
const MOST_PASSES: usize = 40;

// Whether each of the symbols is a key or one of these parts.
fn all_known(symbols: &[u16], parts: SmallSet) -> bool {
    symbols.iter().all(|symbol| *symbol >= FIRST_KEY || parts.contains(usize::from(*symbol)))
}

// Adds the parts that one rule turns into keys and into parts of the set.
fn produce_once(made: &Made, parts: &mut SmallSet) -> bool {
    let mut new = false;
    for rule in &made.rules {
        if all_known(rule.body.as_slice(), *parts) {
            new |= parts.add(SmallSet::only(usize::from(rule.left)));
        }
    }
    new
}

// The parts that can be turned into keys alone.
fn productive(made: &Made) -> SmallSet {
    let mut parts = SmallSet::EMPTY;
    for _ in 0..MOST_PASSES {
        if !produce_once(made, &mut parts) {
            break;
        }
    }
    parts
}

// Adds the symbols into which a rule of length 1 turns this part or a part of the set.
fn turn_once(made: &Made, part: u16, symbols: &mut SmallSet) -> bool {
    let mut new = false;
    for rule in &made.rules {
        if let [only] = rule.body.as_slice() {
            if rule.left == part || symbols.contains(usize::from(rule.left)) {
                new |= symbols.add(SmallSet::only(usize::from(*only)));
            }
        }
    }
    new
}

// Whether rules of length 1 turn a part into itself.
fn is_cyclic(made: &Made, part: u16) -> bool {
    let mut symbols = SmallSet::EMPTY;
    for _ in 0..MOST_PASSES {
        if !turn_once(made, part, &mut symbols) {
            break;
        }
    }
    symbols.contains(usize::from(part))
}

// The answer that the check must give.
pub fn wanted_check(made: &Made) -> Result<(), Fault> {
    let productive = productive(made);
    let mut parts = 1..=made.parts;
    if let Some(part) = parts.find(|part| !productive.contains(usize::from(*part))) {
        let part = usize::from(part);
        return Err(Fault::Unproductive { part });
    }
    let mut parts = 1..=made.parts;
    match parts.find(|part| is_cyclic(made, *part)) {
        Some(part) => Err(Fault::UnitCycle {
            part: usize::from(part),
        }),
        None => Ok(()),
    }
}
