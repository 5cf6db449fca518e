//! A law of refusals.

ghost use Rattle.std.specs.Prelude.{◌≡◌, ◌⊎◌, None};
ghost use Rattle.c_tree.specs.Plain.{PlainUnit};
ghost use Rattle.c_tree.specs.declared.refusal.Refusal.{Refusal};
ghost use Rattle.acceptance.specs.Items.{lowest};
ghost use Rattle.acceptance.specs.Sources.{judged};
ghost use Rattle.kernel_check.specs.Judging.{printed_judged, IsLowest};

/// Each unit is refused or not.
pub fn refused_or_not()
    ensures source { (u : PlainUnit) → (lowest (judged u) ≡ None) ⊎ ((why : Refusal) × IsLowest u (judged u) why) }
    ensures printed { (u : PlainUnit) → (lowest (printed_judged u) ≡ None) ⊎ ((why : Refusal) × IsLowest u (printed_judged u) why) }
{}
