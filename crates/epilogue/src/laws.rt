//! What tables and a prologue do.

ghost use Rattle.std.specs.Prelude.{ℕ, List};
ghost use Rattle.c_tree.specs.Plain.{PlainExprs, PlainStmt, PlainUnit};
ghost use Rattle.instrumentation_laws.specs.Kept.{Kept};
ghost use Rattle.acceptance.specs.Sources.{IsAcceptedSource};
ghost use Rattle.epilogue.specs.Filling.{Fills};
ghost use Rattle.epilogue.specs.Keeping.{KeepsOthers};
ghost use Rattle.epilogue.specs.Turning.{Turns};

/// With pieces that count, the tables and the prologue of an accepted source leave each definition total at the sum over the initial cells of value times uses, store into no array, and change no word of the source.
pub fn prologues_fill()
    ensures { (u : PlainUnit) (kept : Kept) (tables : List PlainStmt) (cells : ℕ → PlainExprs → List PlainStmt) → IsAcceptedSource u → Fills u kept tables cells }
{
    source_laws::accepted_sources_follow();
    instrumentation_laws::kept_prologues_fill();
}

/// The tables and the prologue of an accepted source make the turns of the tables once, those of a walk over the cells of each array, and those of the piece of each cell.
pub fn prologues_turn()
    ensures { (u : PlainUnit) (tables : List PlainStmt) (cells : ℕ → PlainExprs → List PlainStmt) → IsAcceptedSource u → Turns u tables cells }
{
    source_laws::accepted_sources_follow();
}

/// The prologue of an accepted source itself changes no word but `bal_r0`, no wide name but the definition totals, and no table: what is true of the others and stays so in each piece stays so.
pub fn prologues_keep()
    ensures { (u : PlainUnit) (tables : List PlainStmt) (cells : ℕ → PlainExprs → List PlainStmt) → IsAcceptedSource u → KeepsOthers u tables cells }
{
    source_laws::accepted_sources_follow();
}
