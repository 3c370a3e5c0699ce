// Replay: whether moves are a complete run of the machine, in rooms of these sizes.
ghost use Rattle.std.specs.Prelude.{◌≡◌, length, replicate, MatchResult};
ghost use Rattle.soundbook.specs.Sounds.{sound_meaning};
ghost use Rattle.reading.specs.Machines.{sets_of};
ghost use Rattle.reading.specs.Replays.{ReplayAccepted, ReplayRefused, ReplayTheorem, rooms};

use super::machines::Machine;
use super::stacks::Stack;
use rulebook::Fault;
use soundbook::SoundBook;
use wording::Word;

// Replays moves on words, in rooms for the second and third stack, which are left blank. Refused where the start symbol does
// not fit, then where a move is not allowed or what it pushes does not fit, then where a stack is not empty in the end.
pub fn replay<W: Word>(
    book: &SoundBook,
    words: &[W],
    moves: &[u8],
    second: &mut [u8],
    third: &mut [u8],
) -> Result<(), Fault>
    ensures second { second.new ≡ replicate (length second.old) 0 }
    ensures third { third.new ≡ replicate (length third.old) 0 }
    ensures judged { let g = (sound_meaning book.now).grammar in let ws = sets_of W.tells words.now in let room = rooms (length second.old) (length third.old) in MatchResult result (λ _. ReplayAccepted g ws room moves.now) (ReplayRefused g ws room moves.now) }
{
    let mut second = Stack::over(second);
    let mut third = Stack::over(third);
    let mut machine = Machine::over(book, words);
    machine.start(&mut second)?;
    machine.run(&mut second, &mut third, moves)?;
    if machine.is_empty(&second, &third) {
        Ok(())
    } else {
        Err(Fault::StacksLeft { moves: moves.len() })
    }
}

// Moves are refused for one reason at most, none are both accepted and refused, and the moves of readings are accepted.
pub fn replay_theorem()
    ensures { ReplayTheorem }
{}
