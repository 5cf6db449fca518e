//! `C[i][j] += A[i][k] * B[k][j]` in three loops to n.

ghost use Rattle.std.specs.Prelude.{◌≡◌, [], ◌∷◌, length, pos, None};
ghost use Rattle.c_tree.specs.Inputs.{IsClean};
ghost use Rattle.c_tree.specs.Run.{run, plain};
ghost use Rattle.run_laws.specs.Laws.{IsSourceFor};
ghost use Rattle.examples.specs.Forms.{totals_over};
ghost use Rattle.examples.specs.Product.{product, three, one_to_nine, identity};

/// With n = 3, A = 1 .. 9, B the identity and C = 0.
pub fn product_runs()
    ensures verdict { (run product three None).verdict ≡ plain }
    ensures arrays { (run product three None).arrays ≡ one_to_nine ∷ identity ∷ one_to_nine ∷ [] }
    ensures turns { (run product three None).body_turns ≡ 39 }
    ensures makes { length (run product three None).accesses ≡ 108 }
{}

/// The premises of the law on the runs of sources are met.
pub fn product_is_source()
    ensures source { IsSourceFor product (pos 3 ∷ []) }
    ensures clean { IsClean product three }
{}

/// Each cell of A is read three times, each of B three times, and each value of C once but for the last.
pub fn product_totals()
    ensures a { totals_over product three 0 ≡ (135, 135) }
    ensures b { totals_over product three 1 ≡ (9, 9) }
    ensures c { totals_over product three 2 ≡ (39, 39) }
{}
