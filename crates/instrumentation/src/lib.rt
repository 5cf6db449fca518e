//! The instrumented text of a source, as functions of plain trees: loads, stores, counting passes, tables, prologue, and the whole unit.
#![tactic(auto)]

ghost use Rattle.std.specs.Prelude.{◌≡◌, Some};
ghost use Rattle.c_tree.specs.Plain.{PlainUnit};
ghost use Rattle.instrumentation.specs.Guarded.{guarded};
ghost use Rattle.instrumentation.specs.RegularReads.{RegularReadsStandAlone};

/// An instrumented unit has its source's ranges and parameters, and is a printed unit.
pub fn keeps_the_head()
    ensures ranges { (u : PlainUnit) → (guarded u).ranges ≡ u.ranges }
    ensures params { (u : PlainUnit) → (guarded u).params ≡ u.params }
    ensures version { (u : PlainUnit) → (guarded u).version ≡ Some 1 }
{}

/// A cell whose subscripts have no index cell is read by its load alone: no other load, no check, no other word, and no other read is counted.
pub fn regular_reads_stand_alone()
    ensures { RegularReadsStandAlone }
{}
