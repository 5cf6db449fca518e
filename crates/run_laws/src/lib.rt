//! Laws on what the run of a source does.
#![tactic(auto)]

ghost use Rattle.run_laws.specs.Laws.{LoopsInPieces, SourcesFollow, UnitsFollow};

/// The run of a source without a fault, whose instances stay within the arrays: it goes on, makes the accesses of its
/// instances and leaves what they store, and each read gives the word that was stored last in its cell.
pub fn sources_follow_their_memory()
    ensures bodies { SourcesFollow }
    ensures units { UnitsFollow }
{}

/// A loop in two pieces of its values.
pub fn loops_in_pieces()
    ensures { LoopsInPieces }
{}
