//! Worked scripts and laws of the meaning, each the contract of a call that does nothing.

ghost use Rattle.jx9_meaning.specs.Laws.{EndsWell, KeepsUnwritten, LargerBudget, LeavesVariables};
ghost use Rattle.jx9_meaning.specs.Rows.Scalars.{ScalarRows};
ghost use Rattle.jx9_meaning.specs.Rows.Orders.{OrderRows};
ghost use Rattle.jx9_meaning.specs.Rows.Places.{PlaceRows};
ghost use Rattle.jx9_meaning.specs.Rows.Loops.{LoopRows};
ghost use Rattle.jx9_meaning.specs.Rows.Calls.{CallRows};
ghost use Rattle.jx9_meaning.specs.Rows.Units.{UnitRows};
ghost use Rattle.jx9_meaning.specs.Rows.Endings.{EndingRows};
ghost use Rattle.jx9_meaning.specs.Script.{Source};
ghost use Rattle.jx9_meaning.specs.World.{World};

/// Every script ends, from every world. For each unit that it takes there are two events at most. Only a commit changes
/// the saved store, and an aborted script leaves it, with no transaction begun.
pub fn every_script_ends()
    ensures { (p : Source) (w : World) → EndsWell p w }
{}

/// A call leaves the variables of its caller as they are, whatever it runs.
pub fn calls_leave_variables()
    ensures { LeavesVariables }
{}

/// A variable that an expression does not write itself is as before, whatever it evaluates and calls.
pub fn unwritten_variables_stay()
    ensures { KeepsUnwritten }
{}

/// With more units, a script that is not spent has the same events and the same end, and as many units more left.
pub fn larger_budgets_change_nothing()
    ensures { LargerBudget }
{}

/// Numbers, comparisons, equalities and truth.
pub fn scalar_rows()
    ensures { ScalarRows }
{}

/// What is evaluated first, and what is not evaluated.
pub fn order_rows()
    ensures { OrderRows }
{}

/// Reading and writing of lists and objects.
pub fn place_rows()
    ensures { PlaceRows }
{}

/// Branches, loops and where they lead.
pub fn loop_rows()
    ensures { LoopRows }
{}

/// Functions, lambdas and the prelude.
pub fn call_rows()
    ensures { CallRows }
{}

/// What takes units by the size of its result.
pub fn unit_rows()
    ensures { UnitRows }
{}

/// Host functions, commits, and what an ending leaves.
pub fn ending_rows()
    ensures { EndingRows }
{}
