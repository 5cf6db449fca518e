//! The tables of an inspected array: what they hold where they can be built, and how the run ends where they can't.
//! The laws stand on the run's definitions and on what the laws of instrumented texts ask of pieces that rely on a state.
#![tactic(auto)]

ghost use Rattle.inspection_laws.specs.CountedUnits.{NamesHaveTables, UnitsCountFromTables, UnitsPiecesGoOn};
ghost use Rattle.inspection_laws.specs.UnitTurns.{UnitsMakeNoTable, UnitsMakeTables, UnitsMakeTurns};
ghost use Rattle.inspection_laws.specs.CountingPieces.{CellsCountByTables, TablesAreKept, WritesCountByTables};
ghost use Rattle.inspection_laws.specs.Laws.{AllTablesEndExactly, AllTablesHoldUses, FirstMissTells, IndicesLieElse, TablesEndExactly, TablesHoldUses, UnitsBuildAll};

/// The tables of an array with irregular reads hold the uses of each of its definitions; those of several arrays, one after another, each hold what they hold alone.
pub fn tables_hold_uses()
    ensures one { TablesHoldUses }
    ensures several { AllTablesHoldUses }
    ensures units { UnitsBuildAll }
{}

/// From every memory they are built exactly where no index is out of its range, and else the run ends at the first that is.
pub fn tables_end_exactly()
    ensures one { TablesEndExactly }
    ensures several { AllTablesEndExactly }
{}

/// An index that is out of its range is an access of the source's list outside its extents; and where none is, every index lies within its extent.
pub fn misses_are_accesses()
    ensures tells { FirstMissTells }
    ensures lie { IndicesLieElse }
{}

/// Pieces that take their count from tables are such as the laws of instrumented texts ask for: they count from the state that these keep, and keep it.
pub fn tables_count()
    ensures kept { TablesAreKept }
    ensures at_writes { WritesCountByTables }
    ensures at_cells { CellsCountByTables }
{}

/// All pieces of the instrumented unit of a source count, where its list is clean: by tables for inspected arrays, and by counting passes for all others. From every memory they go on.
pub fn units_count()
    ensures count { UnitsCountFromTables }
    ensures go_on { UnitsPiecesGoOn }
    ensures names { NamesHaveTables }
{
    pass_laws::passes_go_on();
    pass_laws::passes_count();
    tables_hold_uses();
    tables_count();
}

/// For sound inputs and under every fault a unit makes two tables for each inspected array, and no others; where its run doesn't end at a check, its body makes the turns of the source and once more for each write of an array that isn't inspected,
/// and its prologue walks over the cells of each array, and makes the source's turns twice for an inspected array, and for each cell of any other.
pub fn units_make_turns()
    ensures turns { UnitsMakeTurns }
    ensures tables { UnitsMakeTables }
    ensures no_tables { UnitsMakeNoTable }
{
    pass_laws::passes_go_on();
    pass_laws::passes_count();
    pass_laws::texts_turn();
    instrumentation_laws::every_kept_unit_follows();
    tables_hold_uses();
    tables_count();
}
