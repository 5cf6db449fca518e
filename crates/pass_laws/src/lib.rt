//! The counting passes of an instrumented text: they always go on, make as many turns as the source, and count the uses of each definition.
//! The laws stand on the run's definitions and on what the laws of instrumented texts ask of a piece. Sources may have irregular reads; a pass is for an array that has none.
#![tactic(auto)]

ghost use Rattle.pass_laws.specs.Laws.{CellsArePlaces, PassesCount, PassesGoOn, PassesTurn, PiecesAreByTargets, SitesGoOn, SourcesTurn, TargetsAreKnown, UnitsHaveCounters, UnitsTurn, WritesAreByTargets, WritesArePlaces};
ghost use Rattle.pass_laws.specs.TextTurns.{BodiesTurn, ProloguesTurn, TextsMakeNoTable};

/// From every state a pass goes on, makes no access, and sets its own two words and the count alone; at its place it makes as many turns as the source.
pub fn passes_go_on()
    ensures go_on { PassesGoOn }
    ensures sites { SitesGoOn }
    ensures turn { PassesTurn }
    ensures at_writes { WritesArePlaces }
    ensures at_cells { CellsArePlaces }
    ensures source_turns { SourcesTurn }
    ensures unit_turns { UnitsTurn }
{}

/// The piece of each assignment sets the count to the uses of the write that is made, and the piece of an array to those of the initial cell.
pub fn passes_count()
    ensures count { PassesCount }
    ensures writes { WritesAreByTargets }
    ensures targets { TargetsAreKnown }
    ensures pieces { PiecesAreByTargets }
    ensures units { UnitsHaveCounters }
{}

/// Under every fault, wherever its run goes on, the body of an instrumented text makes the turns of the source, and once more for each write of an array that isn't inspected.
/// Its prologue walks over the cells of each array, and makes the source's turns for each cell of an array that isn't inspected. Neither makes a table, wherever the run ends.
pub fn texts_turn()
    ensures bodies { BodiesTurn }
    ensures prologues { ProloguesTurn }
    ensures no_tables { TextsMakeNoTable }
{}
