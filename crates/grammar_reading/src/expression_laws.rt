ghost use Rattle.std.specs.Prelude.{[], ◌≡◌, ◌≤◌, ◌<◌, ℕ, List, Some, length};
ghost use Rattle.c_tree.specs.Plain.{PlainExpr, PlainTest};
ghost use Rattle.c_tree.specs.Grammar.Lexemes.{Lexeme};
ghost use Rattle.c_tree.specs.Grammar.Expressions.{IsLow};
ghost use Rattle.c_tree.specs.Grammar.Conditions.{IsCond};
ghost use Rattle.grammar_reading.specs.declared.rules.Rules.{Rules};
ghost use Rattle.grammar_reading.specs.Reading as spec;
ghost use Rattle.grammar_reading.specs.Edges as edges;

/// What is read is in the grammar.
pub fn read_is_spelled()
    ensures { (c : Rules) → 1 ≤ c.limit → (ts : List Lexeme) (u : PlainExpr) → spec.whole c ts ≡ Some u → IsLow c.printed c.limit 1 ts u [] }
{}

/// What is in the grammar is read.
pub fn spelled_is_read()
    ensures { (c : Rules) (ts : List Lexeme) (u : PlainExpr) → length ts < c.turns → IsLow c.printed c.limit 1 ts u [] → spec.whole c ts ≡ Some u }
{}

/// What is read as a condition is one.
pub fn read_is_condition()
    ensures { (c : Rules) → 1 ≤ c.limit → (ts : List Lexeme) (us : List PlainTest) → spec.whole_cond c ts ≡ Some us → IsCond c.printed c.limit ts us [] }
{}

/// A condition is read.
pub fn condition_is_read()
    ensures { (c : Rules) (ts : List Lexeme) (us : List PlainTest) → length ts < c.turns → IsCond c.printed c.limit ts us [] → spec.whole_cond c ts ≡ Some us }
{}

/// A comparison under a cast stands in one parenthesis; its sides may stand in any number.
pub fn edges_of_casts()
    ensures outside { (u : PlainExpr) → IsLow edges.few.printed edges.few.limit 1 edges.three_around u [] → ⊥ }
    ensures inside { IsLow edges.few.printed edges.few.limit 1 edges.left_deep edges.left_deep_tree [] }
{}
