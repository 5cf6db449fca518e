//! `Y[i] = X[P[i]]` for i < n, with m cells in X.

ghost use Rattle.std.specs.Prelude.{◌≡◌, [], ◌∷◌, None};
ghost use Rattle.c_tree.specs.Inputs.{IsClean};
ghost use Rattle.c_tree.specs.Run.{run, plain, balanced, fault, index, outside};
ghost use Rattle.examples.specs.Forms.{fault_at};
ghost use Rattle.examples.specs.Gather.{gather, printed_gather, same_cell_twice, outside_x, equal_words, uses_of_initial};

/// With P = 1 1 and X = 10 20: X[1] is read twice, X[0] never.
pub fn gather_runs()
    ensures verdict { (run gather same_cell_twice None).verdict ≡ plain }
    ensures arrays { (run gather same_cell_twice None).arrays ≡ (1 ∷ 1 ∷ []) ∷ (10 ∷ 20 ∷ []) ∷ (20 ∷ 20 ∷ []) ∷ [] }
    ensures x_0 { uses_of_initial 0 ≡ 0 }
    ensures x_1 { uses_of_initial 1 ≡ 2 }
{}

/// With P = 1 5 the second turn reads outside X.
pub fn gather_runs_outside()
    ensures verdict { (run gather outside_x None).verdict ≡ outside 1 }
    ensures arrays { (run gather outside_x None).arrays ≡ (1 ∷ 5 ∷ []) ∷ (10 ∷ 20 ∷ []) ∷ (20 ∷ 0 ∷ []) ∷ [] }
    ensures not_clean { ¬ IsClean gather outside_x }
{}

/// With P = 1 1 and X = 20 20: an index with a wrong bit that stays within X is told by the totals of P, and one that
/// doesn't ends the run before the access.
pub fn printed_gather_tells()
    ensures calm { (run printed_gather equal_words None).verdict ≡ balanced }
    ensures within { (run printed_gather equal_words (fault_at 0 0 0 0)).verdict ≡ fault (0 ∷ []) }
    ensures within_arrays { (run printed_gather equal_words (fault_at 0 0 0 0)).arrays ≡ (0 ∷ 1 ∷ []) ∷ (20 ∷ 20 ∷ []) ∷ (20 ∷ 20 ∷ []) ∷ [] }
    ensures beyond { (run printed_gather equal_words (fault_at 0 0 1 0)).verdict ≡ index 1 }
    ensures beyond_arrays { (run printed_gather equal_words (fault_at 0 0 1 0)).arrays ≡ (3 ∷ 1 ∷ []) ∷ (20 ∷ 20 ∷ []) ∷ (0 ∷ 0 ∷ []) ∷ [] }
{}
