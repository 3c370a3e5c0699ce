// What is known of the words of a text, whoever cuts it.
ghost use Rattle.wording.specs.Theorem.{WordTheorem};

// There is one next word, and it is either read or refused for one reason.
pub fn word_theorem()
    ensures { WordTheorem }
{}
