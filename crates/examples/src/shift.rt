//! `for (i = 0; i < n - 1; i++) A[i + 1] = A[i] + 1`.

ghost use Rattle.std.specs.Prelude.{◌≡◌, [], ◌∷◌, length, pos, None};
ghost use Rattle.c_tree.specs.Accesses.{uses};
ghost use Rattle.c_tree.specs.Accesses.Definition.{Initial, Written};
ghost use Rattle.c_tree.specs.Instances.{accesses};
ghost use Rattle.c_tree.specs.Inputs.{IsSound, memory_for};
ghost use Rattle.c_tree.specs.Run.{run, plain, balanced, fault, outside};
ghost use Rattle.run_laws.specs.Logs.{accesses_in};
ghost use Rattle.examples.specs.Forms.{reads, writes, fault_at};
ghost use Rattle.examples.specs.Shift.{shift, shift_too_far, printed_shift, four, one, uses_of};

/// With n = 4 and A = 5 0 0 0.
pub fn shift_runs()
    ensures arrays { (run shift four None).arrays ≡ (5 ∷ 6 ∷ 7 ∷ 8 ∷ []) ∷ [] }
    ensures verdict { (run shift four None).verdict ≡ plain }
    ensures makes { accesses_in (run shift four None).accesses ≡ reads 0 0 ∷ writes 0 1 ∷ reads 0 1 ∷ writes 0 2 ∷ reads 0 2 ∷ writes 0 3 ∷ [] }
    ensures list { accesses shift (pos 4 ∷ []) (memory_for shift four) ≡ reads 0 0 ∷ writes 0 1 ∷ reads 0 1 ∷ writes 0 2 ∷ reads 0 2 ∷ writes 0 3 ∷ [] }
{}

/// The initial value of A[0] is read once and no other initial value, and each written value but the last once.
pub fn shift_uses()
    ensures initial_0 { uses_of (Initial 0 (pos 0 ∷ [])) ≡ 1 }
    ensures initial_1 { uses_of (Initial 0 (pos 1 ∷ [])) ≡ 0 }
    ensures initial_2 { uses_of (Initial 0 (pos 2 ∷ [])) ≡ 0 }
    ensures initial_3 { uses_of (Initial 0 (pos 3 ∷ [])) ≡ 0 }
    ensures written_1 { uses_of (Written 1) ≡ 1 }
    ensures written_3 { uses_of (Written 3) ≡ 1 }
    ensures written_5 { uses_of (Written 5) ≡ 0 }
{}

/// These inputs are sound.
pub fn shift_is_sound()
    ensures { IsSound shift four }
{}

/// With the bound n the last turn reads A[3] and ends before the write of A[4].
pub fn shift_runs_too_far()
    ensures verdict { (run shift_too_far four None).verdict ≡ outside 0 }
    ensures makes { length (run shift_too_far four None).accesses ≡ 7 }
    ensures arrays { (run shift_too_far four None).arrays ≡ (5 ∷ 6 ∷ 7 ∷ 8 ∷ []) ∷ [] }
{}

/// The printed text without a fault.
pub fn printed_shift_balances()
    ensures verdict { (run printed_shift four None).verdict ≡ balanced }
    ensures arrays { (run printed_shift four None).arrays ≡ (5 ∷ 6 ∷ 7 ∷ 8 ∷ []) ∷ [] }
    ensures totals { (run printed_shift four None).totals ≡ (18, 18) ∷ [] }
    ensures makes { accesses_in (run printed_shift four None).accesses ≡ accesses_in (run shift four None).accesses }
    ensures one_word { (run printed_shift one None).verdict ≡ balanced }
    ensures one_word_totals { (run printed_shift one None).totals ≡ (0, 0) ∷ [] }
    ensures one_word_arrays { (run printed_shift one None).arrays ≡ (5 ∷ []) ∷ [] }
{}

/// Bit 3 of A[1] is inverted before its read, and the totals of A differ.
pub fn printed_shift_tells()
    ensures verdict { (run printed_shift four (fault_at 0 1 3 2)).verdict ≡ fault (0 ∷ []) }
    ensures arrays { (run printed_shift four (fault_at 0 1 3 2)).arrays ≡ (5 ∷ 14 ∷ 15 ∷ 16 ∷ []) ∷ [] }
    ensures totals { (run printed_shift four (fault_at 0 1 3 2)).totals ≡ (26, 34) ∷ [] }
{}

/// Bit 3 of A[1] is inverted before its write, after its read, or as the run ends: nothing reads it.
pub fn printed_shift_passes_over()
    ensures before_write { (run printed_shift four (fault_at 0 1 3 1)).verdict ≡ balanced }
    ensures before_write_arrays { (run printed_shift four (fault_at 0 1 3 1)).arrays ≡ (5 ∷ 6 ∷ 7 ∷ 8 ∷ []) ∷ [] }
    ensures after_read { (run printed_shift four (fault_at 0 1 3 3)).verdict ≡ balanced }
    ensures after_read_arrays { (run printed_shift four (fault_at 0 1 3 3)).arrays ≡ (5 ∷ 14 ∷ 7 ∷ 8 ∷ []) ∷ [] }
    ensures at_end { (run printed_shift four (fault_at 0 1 3 6)).verdict ≡ balanced }
    ensures at_end_arrays { (run printed_shift four (fault_at 0 1 3 6)).arrays ≡ (5 ∷ 14 ∷ 7 ∷ 8 ∷ []) ∷ [] }
    ensures past_end { (run printed_shift four (fault_at 0 1 3 99)).verdict ≡ balanced }
    ensures past_end_arrays { (run printed_shift four (fault_at 0 1 3 99)).arrays ≡ (5 ∷ 14 ∷ 7 ∷ 8 ∷ []) ∷ [] }
{}
