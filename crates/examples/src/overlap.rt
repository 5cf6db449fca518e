//! `A[2 * i] = B[i + j]` and `C[i] = C[i] + 1` for i, j < n.

ghost use Rattle.std.specs.Prelude.{◌≡◌};
ghost use Rattle.examples.specs.Overlap.{uses_of_initial};

/// With n = 2: B[1] is read by two pairs, B[3] by none.
pub fn overlap_uses()
    ensures b_0 { uses_of_initial 0 ≡ 1 }
    ensures b_1 { uses_of_initial 1 ≡ 2 }
    ensures b_2 { uses_of_initial 2 ≡ 1 }
    ensures b_3 { uses_of_initial 3 ≡ 0 }
{}
