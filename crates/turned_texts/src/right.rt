//! The texts before anything is turned.

ghost use Rattle.std.specs.Prelude.{◌≡◌, [], ◌∷◌, None};
ghost use Rattle.c_tree.specs.Inputs.{IsSound};
ghost use Rattle.c_tree.specs.Run.{run, balanced, fault, index};
ghost use Rattle.instrumentation.specs.Guarded.{guarded};
ghost use Rattle.guard_laws.specs.Guards.{GuardsInDetail};
ghost use Rattle.examples.specs.Forms.{fault_at};
ghost use Rattle.turned_texts.specs.Sources.{sums, one_to_three, fill, five, chase, round, pick, last_cell};
ghost use Rattle.turned_texts.specs.Turning.{unchanged, with_assignments, with_checks, with_tables, with_turned_pieces};
ghost use Rattle.turned_texts.specs.IndexTexts.{same_check};
ghost use Rattle.turned_texts.specs.Texts.{same_piece};

/// The text of the sums keeps every promise, and with nothing turned both ways give that text.
pub fn sums_are_guarded()
    ensures guards { GuardsInDetail sums (guarded sums) }
    ensures assignments { with_assignments unchanged sums ≡ guarded sums }
    ensures pieces { with_turned_pieces same_piece same_piece sums ≡ guarded sums }
    ensures sound { IsSound sums one_to_three }
{
    source_laws::accepted_sources_are_guarded();
}

/// The other source's text is balanced without a fault, and names the array of one.
pub fn fill_is_told()
    ensures assignments { with_assignments unchanged fill ≡ guarded fill }
    ensures sound { IsSound fill five }
    ensures calm { (run (guarded fill) five None).verdict ≡ balanced }
    ensures totals { (run (guarded fill) five None).totals ≡ (0, 0) ∷ (10, 10) ∷ [] }
    ensures told { (run (guarded fill) five (fault_at 1 0 0 0)).verdict ≡ fault (1 ∷ []) }
{}

/// So are the texts of the sources with irregular reads: with nothing turned they are the instrumented units, which are balanced without a fault, and end at a check under one that leads a read out of its array.
pub fn chase_is_told()
    ensures checks { with_checks same_check chase ≡ guarded chase }
    ensures tables { with_tables same_piece chase ≡ guarded chase }
    ensures pieces { with_turned_pieces same_piece same_piece chase ≡ guarded chase }
    ensures sound { IsSound chase round }
    ensures calm { (run (guarded chase) round None).verdict ≡ balanced }
    ensures told { (run (guarded chase) round (fault_at 0 0 3 0)).verdict ≡ index 1 }
    ensures pick_sound { IsSound pick last_cell }
    ensures pick_calm { (run (guarded pick) last_cell None).verdict ≡ balanced }
{}
