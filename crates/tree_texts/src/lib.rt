//! Laws of trees and texts: the layout of each tree of the grammar is a text of it, and so is that of the instrumented unit.
#![tactic(auto)]

ghost use Rattle.accepted_laws.specs.Suited.{IsSuited};
ghost use Rattle.accepted_laws.specs.Sample.{source};
ghost use Rattle.acceptance.specs.Sources.{IsAcceptedSource};
ghost use Rattle.acceptance.specs.Trees.{IsSourceTree, IsPrintedTree};
ghost use Rattle.c_tree.specs.Grammar.Texts.{IsText};
ghost use Rattle.c_tree.specs.Grammar.Tokens.{Text};
ghost use Rattle.c_tree.specs.Layout.{layout};
ghost use Rattle.c_tree.specs.Plain.{PlainUnit};
ghost use Rattle.instrumentation.specs.Guarded.{guarded};
ghost use Rattle.std.specs.Prelude.{◌⊎◌};

use accepted_laws::{a_nest_is_accepted, accepted_source_is_suited, suited_is_accepted};
use layout_laws::trees_are_units;

/// The layout of each tree of a source or of a printed text is a text of it.
pub fn trees_have_texts()
    ensures source { (u : PlainUnit) → IsSourceTree u → IsText (layout u) u }
    ensures printed { (u : PlainUnit) → IsPrintedTree u → IsText (layout u) u }
{
    trees_are_units();
}

/// The unit of each text is a tree of a source or of a printed text.
pub fn texts_have_trees()
    ensures { (text : Text) (u : PlainUnit) → IsText text u → IsSourceTree u ⊎ IsPrintedTree u }
{
    trees_are_units();
}

/// The layout of the instrumented unit of an accepted source is a text of it, and so is that of each suited source that some text has.
pub fn instrumented_units_have_texts()
    ensures suited { (text : Text) (u : PlainUnit) → IsText text u → IsSuited u → IsText (layout (guarded u)) (guarded u) }
    ensures accepted { (u : PlainUnit) → IsAcceptedSource u → IsText (layout (guarded u)) (guarded u) }
{
    trees_have_texts();
    texts_have_trees();
    suited_is_accepted();
    accepted_source_is_suited();
}

/// There are such sources: one of two loops, two arrays, a scalar and a choice with an else.
pub fn a_nest_has_texts()
    ensures of_source { IsText (layout source) source }
    ensures instrumented { IsText (layout (guarded source)) (guarded source) }
{
    trees_have_texts();
    a_nest_is_accepted();
}
