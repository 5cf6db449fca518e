//! Units.

ghost use Rattle.std.specs.Prelude.{◌≡◌, ◌⊎◌, List, Some};
ghost use Rattle.c_tree.specs.Plain.{PlainUnit};
ghost use Rattle.c_tree.specs.Grammar.Lexemes.{Lexeme};
ghost use Rattle.c_tree.specs.Grammar.Units.{IsUnit};
ghost use Rattle.grammar_reading.specs.UnitReading as spec;

/// What is read as a unit is one.
pub fn read_is_unit()
    ensures { (ts : List Lexeme) (u : PlainUnit) → spec.unit_at ts ≡ Some u → IsUnit ts u }
{}

/// A unit is read.
pub fn unit_is_read()
    ensures { (ts : List Lexeme) (u : PlainUnit) → IsUnit ts u → spec.unit_at ts ≡ Some u }
{}

/// Tokens have at most one unit.
pub fn one_unit()
    ensures { (ts : List Lexeme) (u v : PlainUnit) → IsUnit ts u → IsUnit ts v → u ≡ v }
{}

/// Tokens have a unit, or none.
pub fn unit_or_none()
    ensures { (ts : List Lexeme) → ((u : PlainUnit) × IsUnit ts u) ⊎ ((u : PlainUnit) → IsUnit ts u → ⊥) }
{}
