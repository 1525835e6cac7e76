//! Laws of statements and processes.
ghost use Rattle.vlog_effects.specs.Laws.{AssignmentsRun, BlocksRun, BlocksStep, CasesStep, ChangesOnlyTargets, ConditionalsRun, ConditionalsStep, EffectsFollow, LastItemServes, LeavesOne, LoopsStep, OthersStay, TurnsEnd, TurnsGoOn, VariableIsConstant};

/// What the steps of a block, of an `if`, of a `case` and of a `for` are, from those of their parts.
pub fn statements_step()
    ensures blocks { BlocksStep }
    ensures conditionals { ConditionalsStep }
    ensures cases { CasesStep }
    ensures loops { LoopsStep }
{}

/// A loop ends where its condition is 0; else it has a turn, and goes on from the value of its step. In a turn the loop's
/// variable is a constant, and other names are what they were.
pub fn loops_turn()
    ensures end { TurnsEnd }
    ensures more { TurnsGoOn }
    ensures variable { VariableIsConstant }
    ensures others { OthersStay }
{}

/// What steps that follow others, blocks, an `if` and assignments do, from what their parts do.
pub fn statements_run()
    ensures followed { EffectsFollow }
    ensures blocks { BlocksRun }
    ensures conditionals { ConditionalsRun }
    ensures assignments { AssignmentsRun }
{}

/// That the last item of a case is the default, where there is none and the labels name each value of the selector, changes
/// nothing, whatever the signals are.
pub fn last_item_serves()
    ensures { LastItemServes }
{}

/// A process changes only signals that it assigns. Where none of its variables would be a latch, a combinational process
/// leaves the same from any values that these had.
pub fn processes_leave()
    ensures targets { ChangesOnlyTargets }
    ensures one { LeavesOne }
{}
