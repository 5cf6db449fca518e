//! `for (i = 0; i < 2; i++) B[i] = A[0]`, as a printed text.

ghost use Rattle.std.specs.Prelude.{◌≡◌, [], ◌∷◌, None};
ghost use Rattle.c_tree.specs.Run.{run, balanced, fault};
ghost use Rattle.examples.specs.Forms.{fault_at};
ghost use Rattle.examples.specs.Broadcast.{printed_broadcast, one_word};

/// The highest bit of A[0] = 1 is inverted before both reads: the differences add up to 2^64 and not to 0.
pub fn printed_broadcast_tells()
    ensures calm { (run printed_broadcast one_word None).verdict ≡ balanced }
    ensures verdict { (run printed_broadcast one_word (fault_at 0 0 63 0)).verdict ≡ fault (0 ∷ []) }
    ensures arrays { (run printed_broadcast one_word (fault_at 0 0 63 0)).arrays ≡ (9223372036854775809 ∷ []) ∷ (9223372036854775809 ∷ 9223372036854775809 ∷ []) ∷ [] }
    ensures totals { (run printed_broadcast one_word (fault_at 0 0 63 0)).totals ≡ (2, 18446744073709551618) ∷ (0, 0) ∷ [] }
{}
