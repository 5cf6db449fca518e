//! Laws of acceptance: what the instrumented unit of every source has.
#![tactic(auto)]

ghost use Rattle.acceptance.specs.Items.{param_name};
ghost use Rattle.acceptance.specs.Printed.{StoresNothingBefore};
ghost use Rattle.c_tree.specs.Plain.{PlainUnit};
ghost use Rattle.c_tree.specs.Reserved.{is_reserved};
ghost use Rattle.instrumentation.specs.Guarded.{guarded};
ghost use Rattle.std.specs.List.{list_any};
ghost use Rattle.std.specs.Prelude.{◌≡◌, false};

/// The instrumented unit of whatever source stores into no array before the source's statements begin, where no parameter has a reserved name, as tables have.
pub fn prologues_store_nothing()
    ensures { (u : PlainUnit) → list_any (λ p. is_reserved (param_name p)) u.params ≡ false → StoresNothingBefore (guarded u) }
{}
