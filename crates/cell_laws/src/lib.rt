//! Laws on the cells of arrays.
#![tactic(auto)]

ghost use Rattle.cell_laws.specs.Laws.{CellsAreRowMajor, MemoryHasInputs};

/// The order of an array's cells, and that a memory has the words that it is made of.
pub fn cells_are_row_major()
    ensures numbers { CellsAreRowMajor }
    ensures inputs { MemoryHasInputs }
{}
