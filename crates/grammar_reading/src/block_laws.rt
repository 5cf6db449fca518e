ghost use Rattle.std.specs.Prelude.{◌≡◌, ◌≤◌, ℕ, List, Some};
ghost use Rattle.c_tree.specs.Plain.{PlainStmts};
ghost use Rattle.c_tree.specs.Grammar.Lexemes.{Lexeme};
ghost use Rattle.c_tree.specs.Grammar.Statements.{IsStmt};
ghost use Rattle.grammar_reading.specs.declared.rules.Rules.{Rules};
ghost use Rattle.grammar_reading.specs.Blocks as spec;
ghost use Rattle.std.specs.Prelude.{Bool, true, None, length, ◌<◌};
ghost use Rattle.c_tree.specs.Grammar.Statements.{stmts_height};
ghost use Rattle.c_tree.specs.declared.symbol.Symbol.TheVariants as s;
ghost use Rattle.grammar_reading.specs.Reading.{expect};

/// What is read as a statement is one.
pub fn read_is_statement()
    ensures { (c : Rules) → 1 ≤ c.limit → (depth : ℕ) (ts rest : List Lexeme) (us : PlainStmts) → spec.simple c depth ts ≡ Some (us, rest) → (open_end : Bool) × IsStmt c.printed c.limit open_end ts us rest }
{}

/// What is a statement is read.
pub fn statement_is_read()
    ensures { (c : Rules) (depth : ℕ) (open_end : Bool) (ts rest : List Lexeme) (us : PlainStmts) → 1 ≤ c.limit → IsStmt c.printed c.limit open_end ts us rest → stmts_height us ≤ depth → length ts < c.turns → (open_end ≡ true → expect s.Else rest ≡ None) → spec.body (spec.simple c depth) c.turns ts ≡ Some (us, rest) }
{}
