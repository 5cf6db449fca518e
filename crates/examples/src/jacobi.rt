//! `B[i] = A[i - 1] + A[i + 1]` and then `A[i] = B[i]`, for 1 <= i < n - 1, t times.

ghost use Rattle.std.specs.Prelude.{◌≡◌, [], ◌∷◌, None};
ghost use Rattle.c_tree.specs.Run.{run, plain};
ghost use Rattle.examples.specs.Forms.{totals_over};
ghost use Rattle.examples.specs.Jacobi.{jacobi, too_short, two_times};

/// Two cells have no inner cell.
pub fn jacobi_leaves_two_cells()
    ensures verdict { (run jacobi too_short None).verdict ≡ plain }
    ensures arrays { (run jacobi too_short None).arrays ≡ (4 ∷ 9 ∷ []) ∷ (0 ∷ 0 ∷ []) ∷ [] }
    ensures makes { (run jacobi too_short None).accesses ≡ [] }
{}

/// With t = 2, A = 1 0 2 and B = 0 0 0.
pub fn jacobi_runs()
    ensures verdict { (run jacobi two_times None).verdict ≡ plain }
    ensures arrays { (run jacobi two_times None).arrays ≡ (1 ∷ 3 ∷ 2 ∷ []) ∷ (0 ∷ 3 ∷ 0 ∷ []) ∷ [] }
    ensures a { totals_over jacobi two_times 0 ≡ (6, 6) }
    ensures b { totals_over jacobi two_times 1 ≡ (6, 6) }
{}
