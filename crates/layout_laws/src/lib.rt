//! Laws of the layout: which trees are units of the grammar, and that the layout of each is a text of it, so that
//! what is printed is read again.
#![tactic(auto)]

ghost use Rattle.std.specs.Prelude.{◌≡◌, is_some, List};
ghost use Rattle.c_tree.specs.Grammar.Lexemes.{Lexeme};
ghost use Rattle.c_tree.specs.Grammar.Texts.{IsText};
ghost use Rattle.c_tree.specs.Grammar.Tokens.{Text, is_printed};
ghost use Rattle.c_tree.specs.Grammar.Units.{IsUnit};
ghost use Rattle.c_tree.specs.Layout.{layout};
ghost use Rattle.c_tree.specs.Plain.{PlainUnit};
ghost use Rattle.layout_laws.specs.Examples as example;
ghost use Rattle.layout_laws.specs.Fine.{FineUnit};
ghost use Rattle.layout_laws.specs.Spell.{spell_unit};
ghost use Rattle.layout_laws.specs.Trees.{IsTree};

/// The tokens that spell a unit are that unit's, and tokens are of such trees alone.
pub fn spelled_is_read()
    ensures is_fine { (ts : List Lexeme) (u : PlainUnit) → IsUnit ts u → FineUnit u }
    ensures has_tokens { (u : PlainUnit) → FineUnit u → IsUnit (spell_unit u) u }
    ensures again { (ts : List Lexeme) (u : PlainUnit) → IsUnit ts u → IsUnit (spell_unit u) u }
{}

/// The units that texts have are the trees of the grammar, and the layout of each tree is a text of it.
pub fn trees_are_units()
    ensures is_tree { (text : Text) (u : PlainUnit) → IsText text u → IsTree u }
    ensures has_text { (u : PlainUnit) → IsTree u → IsText (layout u) u }
{}

/// The layout of a unit that some text has is a text of this unit.
pub fn layout_is_read()
    ensures { (text : Text) (u : PlainUnit) → IsText text u → IsText (layout u) u }
{
    trees_are_units();
}

/// A text has a printed unit where it begins with the preamble, and else the unit of a source.
pub fn preamble_tells_the_version()
    ensures { (text : Text) (u : PlainUnit) → IsText text u → is_some u.version ≡ is_printed text }
{}

/// There are such texts, of a source and of a printed unit.
pub fn there_are_texts()
    ensures source { IsText example.source_text example.source }
    ensures printed { IsText example.printed_text example.printed }
{}
