//! Sources as they are instrumented with counting passes, run: the numbers are those of the sources' lists of accesses.

ghost use Rattle.std.specs.Prelude.{◌≡◌, [], ◌∷◌, None};
ghost use Rattle.c_tree.specs.Run.{run, balanced, fault};
ghost use Rattle.instrumentation.specs.Guarded.{guarded};
ghost use Rattle.run_laws.specs.Logs.{accesses_in};
ghost use Rattle.examples.specs.Forms.{fault_at};
ghost use Rattle.examples.specs.Choices.{choices, three_ones};
ghost use Rattle.examples.specs.Jacobi.{jacobi, two_times};
ghost use Rattle.examples.specs.Product.{product, three};
ghost use Rattle.examples.specs.Shift.{shift, four, one};

/// `A[i + 1] = A[i] + 1` without a fault.
pub fn instrumented_shift_balances()
    ensures verdict { (run (guarded shift) four None).verdict ≡ balanced }
    ensures arrays { (run (guarded shift) four None).arrays ≡ (5 ∷ 6 ∷ 7 ∷ 8 ∷ []) ∷ [] }
    ensures totals { (run (guarded shift) four None).totals ≡ (18, 18) ∷ [] }
    ensures makes { accesses_in (run (guarded shift) four None).accesses ≡ accesses_in (run shift four None).accesses }
    ensures one_word { (run (guarded shift) one None).verdict ≡ balanced }
    ensures one_word_totals { (run (guarded shift) one None).totals ≡ (0, 0) ∷ [] }
{}

/// Bit 3 of A[1] is inverted before its read, and then after it.
pub fn instrumented_shift_tells()
    ensures verdict { (run (guarded shift) four (fault_at 0 1 3 2)).verdict ≡ fault (0 ∷ []) }
    ensures arrays { (run (guarded shift) four (fault_at 0 1 3 2)).arrays ≡ (5 ∷ 14 ∷ 15 ∷ 16 ∷ []) ∷ [] }
    ensures totals { (run (guarded shift) four (fault_at 0 1 3 2)).totals ≡ (26, 34) ∷ [] }
    ensures later { (run (guarded shift) four (fault_at 0 1 3 3)).verdict ≡ balanced }
    ensures later_arrays { (run (guarded shift) four (fault_at 0 1 3 3)).arrays ≡ (5 ∷ 14 ∷ 7 ∷ 8 ∷ []) ∷ [] }
{}

/// Two arrays, with loops over loops.
pub fn instrumented_jacobi_balances()
    ensures verdict { (run (guarded jacobi) two_times None).verdict ≡ balanced }
    ensures arrays { (run (guarded jacobi) two_times None).arrays ≡ (1 ∷ 3 ∷ 2 ∷ []) ∷ (0 ∷ 3 ∷ 0 ∷ []) ∷ [] }
    ensures totals { (run (guarded jacobi) two_times None).totals ≡ (6, 6) ∷ (6, 6) ∷ [] }
{}

/// A choice, a scalar, casts and a compound assignment: the reads are A[0] twice with 1 and once with 0, and A[2] with 1.
pub fn instrumented_choices_balance()
    ensures verdict { (run (guarded choices) three_ones None).verdict ≡ balanced }
    ensures arrays { (run (guarded choices) three_ones None).arrays ≡ (0 ∷ 2 ∷ 0 ∷ []) ∷ [] }
    ensures totals { (run (guarded choices) three_ones None).totals ≡ (3, 3) ∷ [] }
{}

/// Three loops and three arrays of two dimensions. Each of 27 initial cells and each of 27 writes has a counting pass of 39
/// turns; the walk over the cells of an array has 12, and the source 39.
pub fn instrumented_product_balances()
    ensures verdict { (run (guarded product) three None).verdict ≡ balanced }
    ensures totals { (run (guarded product) three None).totals ≡ (135, 135) ∷ (9, 9) ∷ (39, 39) ∷ [] }
    ensures prologue_turns { (run (guarded product) three None).prologue_turns ≡ 1089 }
    ensures body_turns { (run (guarded product) three None).body_turns ≡ 1092 }
{}
