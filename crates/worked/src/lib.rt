// The worked examples, shown of the definitions in one fact.
#![tactic(auto)]

ghost use Rattle.worked.specs.Examples.{Examples};

// The worked examples: item sets, lit keys, whole or not, moves, refusals, and two books that are not sound.
pub fn examples()
    ensures { Examples }
{}
