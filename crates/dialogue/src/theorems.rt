// What the law shows.
ghost use Rattle.dialogue.specs.Theorem.{LawTheorem};

// From the law alone: a lit key, pressed, is never refused as dark; there is a programme; and the presses of a programme's
// keys, each of them lit, make the draft whole where words and places allow.
pub fn law_theorem()
    ensures { LawTheorem }
{}
