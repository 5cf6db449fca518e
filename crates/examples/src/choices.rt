//! `if (i >= 1 && i != 2) { s = s * 2; A[i] = (uint64_t)(i - 5) + s; } else { A[i] -= (uint64_t)(A[0] < s); }` for i < n.

ghost use Rattle.std.specs.Prelude.{◌≡◌, [], ◌∷◌, pos, None};
ghost use Rattle.c_tree.specs.Arrays.{words_from};
ghost use Rattle.c_tree.specs.Instances.{accesses, source_output};
ghost use Rattle.c_tree.specs.Inputs.{IsClean, arrays_for, memory_for};
ghost use Rattle.c_tree.specs.Run.{run, plain};
ghost use Rattle.run_laws.specs.Laws.{IsSourceFor};
ghost use Rattle.run_laws.specs.Logs.{accesses_in};
ghost use Rattle.examples.specs.Forms.{reads, writes};
ghost use Rattle.examples.specs.Choices.{choices, three_ones};

/// With s = 3, n = 3 and A = 1 1 1: s becomes 6 in the second turn, and i - 5 wraps to 2^64 - 4 there.
pub fn choices_run()
    ensures verdict { (run choices three_ones None).verdict ≡ plain }
    ensures arrays { (run choices three_ones None).arrays ≡ (0 ∷ 2 ∷ 0 ∷ []) ∷ [] }
    ensures makes { accesses_in (run choices three_ones None).accesses ≡ reads 0 0 ∷ reads 0 0 ∷ writes 0 0 ∷ writes 0 1 ∷ reads 0 2 ∷ reads 0 0 ∷ writes 0 2 ∷ [] }
    ensures list { accesses choices (pos 3 ∷ []) (memory_for choices three_ones) ≡ reads 0 0 ∷ reads 0 0 ∷ writes 0 0 ∷ writes 0 1 ∷ reads 0 2 ∷ reads 0 0 ∷ writes 0 2 ∷ [] }
    ensures output { words_from (source_output choices (pos 3 ∷ []) (memory_for choices three_ones)) 0 (arrays_for choices (pos 3 ∷ [])) ≡ (0 ∷ 2 ∷ 0 ∷ []) ∷ [] }
{}

/// The premises of the law on the runs of sources are met.
pub fn choices_is_source()
    ensures source { IsSourceFor choices (pos 3 ∷ []) }
    ensures clean { IsClean choices three_ones }
{}
