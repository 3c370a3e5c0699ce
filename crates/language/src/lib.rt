// What a rule book means, and what follows from it. The definitions stand in specs/ and the proofs in proofs/; each
// theorem is the contract of a function here, which does nothing, so that no check passes without its proof.
#![tactic(auto)]

ghost use Rattle.language.specs.Choice.{ChoiceTheorem, ItemsTheorem};
ghost use Rattle.language.specs.Columns.{ColumnsTheorem};
ghost use Rattle.language.specs.Corners.{CornersTheorem};
ghost use Rattle.language.specs.Depth.{DepthTheorem};
ghost use Rattle.language.specs.FirstStack.{FirstStackTheorem};
ghost use Rattle.language.specs.Moves.{MovesTheorem, RunTheorem};
ghost use Rattle.language.specs.Order.{FirstTheorem};
ghost use Rattle.language.specs.Outside.{OutsideTheorem};
ghost use Rattle.language.specs.Theorem.{ChartTheorem, TurnedTheorem};

// The chart tells of programmes and their readings: items, lit keys, whole.
pub fn chart_theorem()
    ensures { ChartTheorem }
{}

// A reading is the first exactly when it is chosen part by part.
pub fn choice_theorem()
    ensures { ChoiceTheorem }
{}

// What the code that fills the chart word by word rests on.
pub fn columns_theorem()
    ensures { ColumnsTheorem }
{}

// The left corners of a symbol are decided by a mask.
pub fn corners_theorem()
    ensures { CornersTheorem }
{}

// Along the moves of a reading of m rules the second stack holds at most 1 + 6m, the third at most m.
pub fn depth_theorem()
    ensures { DepthTheorem }
{}

// At most one part lies above the words that the machine has not yet read.
pub fn first_stack_theorem()
    ensures { FirstStackTheorem }
{}

// Words that a part reads have a first reading, and only one.
pub fn first_theorem()
    ensures { FirstTheorem }
{}

// A reading is the first exactly when it is chosen by the items of the chart.
pub fn items_theorem()
    ensures { ItemsTheorem }
{}

// The moves of a reading are a complete run of the machine, and there are few of them.
pub fn moves_theorem()
    ensures { MovesTheorem }
{}

// Questions outside a book are answered 0.
pub fn outside_theorem()
    ensures { OutsideTheorem }
{}

// A complete run of the machine is the moves of a reading.
pub fn run_theorem()
    ensures { RunTheorem }
{}

// What can be turned into keys alone is a key or has a reading.
pub fn turned_theorem()
    ensures { TurnedTheorem }
{}
