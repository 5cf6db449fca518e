//! Laws of acceptance: the instrumented unit of every accepted source is accepted as a printed unit.
#![tactic(auto)]

ghost use Rattle.acceptance.specs.Printed.{IsAcceptedPrinted, StoresNothingBefore};
ghost use Rattle.accepted_laws.specs.Broken.{whole, reserved_scalar, size_again, unknown_value, two_subscripts, wide_shift, bare_variable, gathered, named_as_table, is_clear};
ghost use Rattle.acceptance.specs.Sources.{refusal, IsAcceptedSource};
ghost use Rattle.acceptance.specs.Trees.{IsSourceTree, IsPrintedTree};
ghost use Rattle.acceptance.specs.Heights.{IsLow, all_exprs_height};
ghost use Rattle.accepted_laws.specs.Suited.{IsSuited};
ghost use Rattle.accepted_laws.specs.Sample.{source};
ghost use Rattle.accepted_laws.specs.Tall.{tall};
ghost use Rattle.c_tree.specs.Grammar.Statements.{stmts_height};
ghost use Rattle.c_tree.specs.Plain.{PlainUnit};
ghost use Rattle.instrumentation.specs.Guarded.{guarded};
ghost use Rattle.std.specs.Prelude.{◌≡◌, true, false, None, codes};

/// The instrumented unit of a source that is suited, and a tree of the grammar, is accepted as a printed unit. It stores into no array before the source's statements begin.
/// Where the source's statements and expressions are at most 64 high, its statements are at most 129 high, and its expressions at most 72.
/// It is a tree of the grammar of printed texts: it has one `begin`, and the verdict last.
pub fn suited_is_accepted()
    ensures accepted { (u : PlainUnit) → IsSuited u → IsSourceTree u → IsAcceptedPrinted (guarded u) }
    ensures stores { (u : PlainUnit) → IsSuited u → StoresNothingBefore (guarded u) }
    ensures low { (u : PlainUnit) → IsSuited u → IsLow 64 64 u → IsLow 129 72 (guarded u) }
    ensures printed { (u : PlainUnit) → IsSuited u → IsSourceTree u → IsPrintedTree (guarded u) }
{}

/// An accepted source is suited.
pub fn accepted_source_is_suited()
    ensures { (u : PlainUnit) → IsAcceptedSource u → IsSuited u }
{}

/// A source of two loops, two arrays, a scalar and a choice with an else is of the grammar, no refusal names it, it is suited, and its instrumented unit is accepted and is of the grammar.
pub fn a_nest_is_accepted()
    ensures tree { IsSourceTree source }
    ensures unrefused { refusal source ≡ None }
    ensures suited { IsSuited source }
    ensures accepted { IsAcceptedPrinted (guarded source) }
    ensures printed { IsPrintedTree (guarded source) }
{}

/// The bounds 129 and 65 are met: by a source that no refusal names, with a loop and 62 choices around an assignment whose value is 64 high.
pub fn heights_are_met()
    ensures low { IsLow 64 64 tall }
    ensures unrefused { refusal tall ≡ None }
    ensures stmts { stmts_height (guarded tall).body ≡ 129 }
    ensures exprs { all_exprs_height (guarded tall).body ≡ 65 }
{}

/// Of a small source no condition of a printed unit holds in its instrumented unit. Where the source has a reserved scalar, a loop named as its size, an unknown name, a subscript too many, a shift by 64 or a bare loop variable as its value, one does. So it is with a source that reads an array through another: none holds, and one does where the array is named as its table.
pub fn facts_are_needed()
    ensures clear { is_clear (guarded whole) ≡ true }
    ensures reserved { is_clear (guarded reserved_scalar) ≡ false }
    ensures again { is_clear (guarded size_again) ≡ false }
    ensures unknown { is_clear (guarded unknown_value) ≡ false }
    ensures subscripts { is_clear (guarded two_subscripts) ≡ false }
    ensures shift { is_clear (guarded wide_shift) ≡ false }
    ensures bare { is_clear (guarded bare_variable) ≡ false }
    ensures gathers { is_clear (guarded (gathered (codes "X"))) ≡ true }
    ensures table { is_clear (guarded named_as_table) ≡ false }
{}
