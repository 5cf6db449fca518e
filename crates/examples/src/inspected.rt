//! Sources with irregular reads as they are instrumented, with tables for the arrays that are read so, run.

ghost use Rattle.std.specs.Prelude.{◌≡◌, [], ◌∷◌, None, codes};
ghost use Rattle.c_tree.specs.Plain.{var};
ghost use Rattle.c_tree.specs.Run.{run, plain, balanced, fault, index, outside};
ghost use Rattle.c_tree.specs.Trees.{exprs_of};
ghost use Rattle.instrumentation.specs.Body.{read_text};
ghost use Rattle.instrumentation.specs.Guarded.{guarded, array_names, extents_of};
ghost use Rattle.instrumentation.specs.Names.{number_in};
ghost use Rattle.run_laws.specs.Logs.{accesses_in};
ghost use Rattle.examples.specs.Chase.{chase, round};
ghost use Rattle.examples.specs.Forms.{fault_at};
ghost use Rattle.examples.specs.Gather.{gather, p, i, read_of_x, same_cell_twice, outside_x, equal_words, three_reads};

/// With P = 1 1 and X = 10 20: one table has an entry for each cell of X, and the other one, for X isn't written. X[1] is read twice.
pub fn instrumented_gather_balances()
    ensures verdict { (run (guarded gather) same_cell_twice None).verdict ≡ balanced }
    ensures arrays { (run (guarded gather) same_cell_twice None).arrays ≡ (1 ∷ 1 ∷ []) ∷ (10 ∷ 20 ∷ []) ∷ (20 ∷ 20 ∷ []) ∷ [] }
    ensures totals { (run (guarded gather) same_cell_twice None).totals ≡ (2, 2) ∷ (40, 40) ∷ (0, 0) ∷ [] }
    ensures tables { (run (guarded gather) same_cell_twice None).tables ≡ 2 ∷ 2 ∷ [] }
    ensures makes { accesses_in (run (guarded gather) same_cell_twice None).accesses ≡ accesses_in (run gather same_cell_twice None).accesses }
    ensures reads { read_text (number_in (array_names gather.params)) (extents_of gather.params) (codes "X") (exprs_of (p (var i) ∷ [])) 0 ≡ read_of_x }
{}

/// An index with a wrong bit that stays within X is told by the totals of P, whatever word it finds; one that doesn't ends the run before the access of X.
pub fn instrumented_gather_tells()
    ensures within { (run (guarded gather) equal_words (fault_at 0 0 0 0)).verdict ≡ fault (0 ∷ []) }
    ensures within_arrays { (run (guarded gather) equal_words (fault_at 0 0 0 0)).arrays ≡ (0 ∷ 1 ∷ []) ∷ (20 ∷ 20 ∷ []) ∷ (20 ∷ 20 ∷ []) ∷ [] }
    ensures within_totals { (run (guarded gather) equal_words (fault_at 0 0 0 0)).totals ≡ (2, 1) ∷ (40, 40) ∷ (0, 0) ∷ [] }
    ensures beyond { (run (guarded gather) same_cell_twice (fault_at 0 0 1 0)).verdict ≡ index 1 }
    ensures beyond_arrays { (run (guarded gather) same_cell_twice (fault_at 0 0 1 0)).arrays ≡ (3 ∷ 1 ∷ []) ∷ (10 ∷ 20 ∷ []) ∷ (0 ∷ 0 ∷ []) ∷ [] }
    ensures beyond_makes { accesses_in (run (guarded gather) same_cell_twice (fault_at 0 0 1 0)).accesses ≡ accesses_in (run gather same_cell_twice (fault_at 0 0 1 0)).accesses }
    ensures beyond_source { (run gather same_cell_twice (fault_at 0 0 1 0)).verdict ≡ outside 1 }
{}

/// With P = 1 5 the tables of X can't be built: the run ends at a check before the source's statements begin, where the source makes a turn and ends outside X.
pub fn instrumented_gather_ends_early()
    ensures verdict { (run (guarded gather) outside_x None).verdict ≡ index 1 }
    ensures arrays { (run (guarded gather) outside_x None).arrays ≡ (1 ∷ 5 ∷ []) ∷ (10 ∷ 20 ∷ []) ∷ (0 ∷ 0 ∷ []) ∷ [] }
    ensures makes { (run (guarded gather) outside_x None).accesses ≡ [] }
    ensures turns { (run (guarded gather) outside_x None).body_turns ≡ 0 }
{}

/// With n = 3 and m = 2 the tables make the source's 3 turns twice; each cell of P and of Y has a counting pass of 3 turns, and each cell is walked over once.
pub fn instrumented_gather_of_three()
    ensures verdict { (run (guarded gather) three_reads None).verdict ≡ balanced }
    ensures arrays { (run (guarded gather) three_reads None).arrays ≡ (0 ∷ 1 ∷ 0 ∷ []) ∷ (7 ∷ 9 ∷ []) ∷ (7 ∷ 9 ∷ 7 ∷ []) ∷ [] }
    ensures totals { (run (guarded gather) three_reads None).totals ≡ (1, 1) ∷ (23, 23) ∷ (0, 0) ∷ [] }
    ensures tables { (run (guarded gather) three_reads None).tables ≡ 2 ∷ 2 ∷ [] }
    ensures prologue_turns { (run (guarded gather) three_reads None).prologue_turns ≡ 32 }
    ensures body_turns { (run (guarded gather) three_reads None).body_turns ≡ 12 }
{}

/// `X[i] = X[P[i]] + 1` with P = 2 0 1 and X = 5 6 7: X[2] is read as it was, the others after their writes. The second table has an entry for each cell and each write.
pub fn instrumented_chase_balances()
    ensures source { (run chase round None).verdict ≡ plain }
    ensures verdict { (run (guarded chase) round None).verdict ≡ balanced }
    ensures arrays { (run (guarded chase) round None).arrays ≡ (2 ∷ 0 ∷ 1 ∷ []) ∷ (8 ∷ 9 ∷ 10 ∷ []) ∷ [] }
    ensures totals { (run (guarded chase) round None).totals ≡ (3, 3) ∷ (24, 24) ∷ [] }
    ensures tables { (run (guarded chase) round None).tables ≡ 3 ∷ 6 ∷ [] }
{}

/// A wrong bit in X[0], between its write and its read, is told; one in X[0] before its write isn't.
pub fn instrumented_chase_tells()
    ensures read { (run (guarded chase) round (fault_at 1 0 4 3)).verdict ≡ fault (1 ∷ []) }
    ensures written { (run (guarded chase) round (fault_at 1 0 4 2)).verdict ≡ balanced }
{}
