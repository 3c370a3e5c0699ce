// A whole programme text, cut into its words.
ghost use Rattle.std.specs.Prelude.{◌≡◌, IfOk};
ghost use Rattle.wording.specs.Programmes.{CutAs};

use super::cutter::Cutter;
use super::pieces::{Piece, Placed};
use rulebook::Fault;
use std::alloc::{AllocError, Global};

/// The words of a text from the front, up to the first question that is answered no.
#[derive(Debug, PartialEq, Eq, Drop)]
pub struct Programme<'t> {
    /// the words, from the front
    pub words: Vec<Placed<'t>>,
    /// the refusal that follows the words, or none where they are all
    pub fault: Option<Fault>,
}

// The words of a text that is not yet cut.
fn cut_words<'t>(heap: Global, mut cutter: Cutter<'t>) -> Result<Programme<'t>, AllocError>
    requires front { cutter.at ≡ 0 }
    ensures { IfOk result (λ p. CutAs cutter.entry.text.now p.words.items p.fault) }
{
    // A loop with two ends, the text's and a refusal, and both are told.
    let mut words = Vec::new(heap);
    loop {
        match cutter.next_piece() {
            Ok(word) => match word.piece {
                Piece::End => return Ok(Programme { words, fault: None }),
                Piece::Name(_) | Piece::Figure(..) => words.push(word)?,
            },
            Err(fault) => {
                return Ok(Programme {
                    words,
                    fault: Some(fault),
                });
            }
        }
    }
}

/// Cuts a programme text into its words, up to the first that is refused, and tells that refusal. A text of more than 4,096
/// bytes is refused whole, with `Fault::ProgrammeLength`, and has no words. The only error is that memory ran out.
pub fn cut(heap: Global, text: &[u8]) -> Result<Programme<'_>, AllocError>
    ensures { IfOk result (λ p. CutAs text.now p.words.items p.fault) }
{
    match Cutter::new(text) {
        Ok(cutter) => cut_words(heap, cutter),
        Err(fault) => Ok(Programme {
            words: Vec::new(heap),
            fault: Some(fault),
        }),
    }
}
