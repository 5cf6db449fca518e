ghost use Rattle.std.specs.Prelude.{◌≡◌, ◌≤◌, ◌<◌, ℕ, ℤ, List, Some, None, length};
ghost use Rattle.c_tree.specs.Plain.{Word, PlainParam};
ghost use Rattle.c_tree.specs.Grammar.Lexemes.{Lexeme};
ghost use Rattle.c_tree.specs.declared.symbol.Symbol.TheVariants as s;
ghost use Rattle.grammar_reading.specs.declared.rules.Rules.{Rules};
ghost use Rattle.grammar_reading.specs.Reading.{expect};
ghost use Rattle.c_tree.specs.Grammar.Heads.{IsRange, IsParam};
ghost use Rattle.grammar_reading.specs.HeadReading as spec;
ghost use Rattle.std.specs.Prelude.{◌↔◌};
ghost use Rattle.c_tree.specs.Plain.{PlainStmt};
ghost use Rattle.c_tree.specs.Grammar.Heads.{IsWide, IsTable};

/// What is read as a range line or a parameter is one.
pub fn read_is_param()
    ensures range { (ts rest : List Lexeme) (x : Word × ℤ × ℤ) → spec.range_at ts ≡ Some (x, rest) → IsRange ts x rest }
    ensures param { (c : Rules) → 1 ≤ c.limit → (ts rest : List Lexeme) (x : PlainParam) → spec.param_at c ts ≡ Some (x, rest) → IsParam c.printed c.limit ts x rest }
{}

/// Range lines and parameters are read.
pub fn param_is_read()
    ensures range { (ts rest : List Lexeme) (x : Word × ℤ × ℤ) → IsRange ts x rest → spec.range_at ts ≡ Some (x, rest) }
    ensures param { (c : Rules) (ts rest : List Lexeme) (x : PlainParam) → IsParam c.printed c.limit ts x rest → length ts < c.turns → expect s.OpenBracket rest ≡ None → spec.param_at c ts ≡ Some (x, rest) }
{}

/// Wide declarations and tables are read exactly where they stand.
pub fn printed_heads_are_read()
    ensures wide { (ts rest : List Lexeme) (x : Word) → spec.wide_at ts ≡ Some (x, rest) ↔ IsWide ts x rest }
    ensures table_found { (c : Rules) → 1 ≤ c.limit → (ts rest : List Lexeme) (x : PlainStmt) → spec.table_at c ts ≡ Some (x, rest) → IsTable c.printed c.limit ts x rest }
    ensures table_only { (c : Rules) (ts rest : List Lexeme) (x : PlainStmt) → IsTable c.printed c.limit ts x rest → length ts < c.turns → spec.table_at c ts ≡ Some (x, rest) }
{}
