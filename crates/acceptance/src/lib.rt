//! Which units are accepted: the conditions of each refusal, as tests of the head and of each item of a unit.
#![tactic(auto)]

ghost use Rattle.std.specs.Prelude.{codes, false, pos, true, List, None, Some, [], ◌+◌, ◌^◌, ◌≡◌, ◌∷◌};
ghost use Rattle.c_tree.specs.Plain.{bin, cast, lit, test, umin, var};
ghost use Rattle.c_tree.specs.declared.expr.BinOp.TheVariants.{Add, Rem, Shl, Sub};
ghost use Rattle.c_tree.specs.declared.expr.Rel.TheVariants.{Lt};
ghost use Rattle.c_tree.specs.declared.refusal.Counted.TheVariants.{Parameters, Depth, Reads};
ghost use Rattle.acceptance.specs.Limits.{too_many};
ghost use Rattle.acceptance.specs.Printed.{printed_refusal, name_twice, name_unknown, wrong_dimensions, wrong_kind};
ghost use Rattle.acceptance.specs.Sources.{refusal};
ghost use Rattle.acceptance.specs.WorkedSources as source;
ghost use Rattle.acceptance.specs.WorkedSources.{added_to, at, bare_name, bounded_by, by_zero, cast_in_cast, cast_name, empty_extent, gather, gathered, grid, i, jacobi, large, line, many_reads, mix, n, nest_of, no_line, own_scalar, product_of, product_subscript, ranged, scalar_beside, scattered, set, seven_loops, shift_of, sum_of_reads, tested, triangle, unknown, valued, wide_sum, writes_to};
ghost use Rattle.acceptance.specs.Worked.{places, shift, two_sizes, unknown_total, no_use_total, array_total, word_bound};

/// No condition refuses a small printed unit. Where a name in it is declared twice, isn't declared, has another number of extents or is of another kind, a condition holds at the head, which is item 0, or at the items that use the name.
pub fn worked_refusals()
    ensures accepted { printed_refusal shift ≡ None }
    ensures declared_twice { places two_sizes (name_twice two_sizes) ≡ 0 ∷ [] }
    ensures used_undeclared { places unknown_total (name_unknown unknown_total) ≡ 9 ∷ [] }
    ensures compared_undeclared { places no_use_total (name_unknown no_use_total) ≡ 9 ∷ 16 ∷ [] }
    ensures total_of_cells { places array_total (wrong_dimensions array_total) ≡ 9 ∷ 16 ∷ [] }
    ensures bound_of_words { places word_bound (wrong_kind word_bound) ≡ 7 ∷ [] }
{}

/// What refuses each of the worked sources, by its number and its item.
pub fn worked_sources()
    ensures accepted { refusal source.shift ≡ None }
    ensures accepted_product { refusal (product_of (codes "n")) ≡ None }
    ensures accepted_mix { refusal mix ≡ None }
    ensures accepted_gather { refusal gather ≡ None }
    ensures accepted_cast { refusal cast_name ≡ None }
    ensures subscript { refusal product_subscript ≡ Some (9, 2) }
    ensures scattered { refusal scattered ≡ Some (17, 2) }
    ensures deep { refusal seven_loops ≡ Some (8, 7) }
    ensures how_deep { too_many seven_loops ≡ Some (record { counted = Depth; count = 7; item = 7 }) }
    ensures reserved { refusal own_scalar ≡ Some (6, 0) }
    ensures divided { refusal by_zero ≡ Some (16, 2) }
    ensures indexed { refusal (gathered false) ≡ Some (15, 2) }
    ensures indexed_itself { refusal (gathered true) ≡ None }
    ensures twice { refusal source.two_sizes ≡ Some (4, 0) }
    ensures unknown { refusal unknown ≡ Some (5, 2) }
    ensures no_line { refusal no_line ≡ Some (7, 0) }
    ensures large { refusal large ≡ Some (10, 1) }
    ensures empty { refusal empty_extent ≡ Some (12, 0) }
    ensures long { refusal (product_of (codes "long")) ≡ Some (6, 0) }
    ensures cast_in_cast { refusal cast_in_cast ≡ Some (9, 2) }
    ensures scalar_beside { refusal scalar_beside ≡ Some (9, 2) }
    ensures bare { refusal bare_name ≡ Some (9, 2) }
    ensures read { too_many many_reads ≡ Some (record { counted = Reads; count = 17; item = 2 }) }
{}

/// More sources, on either side of each limit.
pub fn worked_limits()
    ensures triangle { refusal triangle ≡ None }
    ensures jacobi { refusal jacobi ≡ None }
    ensures reserved_and_unknown { refusal (shift_of [] ((codes "bal_x", 0) ∷ []) (set (at (codes "A") i) (var (codes "q")))) ≡ Some (5, 2) }
    ensures six_loops { refusal (nest_of 6) ≡ None }
    ensures eight_ints { refusal (bounded_by 7 n) ≡ None }
    ensures nine_ints { too_many (bounded_by 8 n) ≡ Some (record { counted = Parameters; count = 9; item = 0 }) }
    ensures sixteen_reads { refusal (valued (sum_of_reads 15)) ≡ None }
    ensures old_cell_read { too_many (added_to (at (codes "A") i) (sum_of_reads 15)) ≡ Some (record { counted = Reads; count = 17; item = 2 }) }
    ensures four_terms { refusal (bounded_by 4 (wide_sum 3)) ≡ None }
    ensures five_terms { refusal (bounded_by 5 (wide_sum 4)) ≡ Some (11, 1) }
    ensures largest_range { refusal (ranged ((codes "n", pos 1, pos (2 ^ 40)) ∷ [])) ≡ None }
    ensures larger_range { refusal (ranged ((codes "n", pos 1, pos (2 ^ 40 + 1)) ∷ [])) ≡ Some (7, 0) }
    ensures empty_range { refusal (ranged ((codes "n", pos 2, pos 1) ∷ [])) ≡ Some (7, 0) }
    ensures two_lines { refusal (ranged ((codes "n", pos 1, pos 2) ∷ (codes "n", pos 1, pos 2) ∷ [])) ≡ Some (7, 0) }
    ensures line_of_array { refusal (ranged ((codes "A", pos 1, pos 2) ∷ line)) ≡ Some (7, 0) }
    ensures to_const { refusal (writes_to (at (codes "P") i)) ≡ Some (14, 2) }
    ensures to_parameter { refusal (writes_to n) ≡ Some (14, 2) }
    ensures to_variable { refusal (writes_to i) ≡ Some (14, 2) }
    ensures to_scalar { refusal (writes_to (var (codes "s"))) ≡ None }
    ensures to_array { refusal (writes_to (var (codes "A"))) ≡ Some (13, 2) }
    ensures two_subscripts { refusal (writes_to (grid i i)) ≡ Some (13, 2) }
    ensures scalar_cell { refusal (valued (at (codes "s") (lit 0))) ≡ Some (13, 2) }
    ensures variable_cell { refusal (valued (at (codes "i") (lit 0))) ≡ Some (13, 2) }
    ensures scalar_subscript { refusal (valued (at (codes "A") (var (codes "s")))) ≡ Some (9, 2) }
    ensures literal_subscript { refusal (valued (at (codes "A") (bin Rem (lit 2) (lit 3)))) ≡ Some (9, 2) }
    ensures cast_umin { refusal (valued (cast (umin i (lit 2)))) ≡ Some (9, 2) }
    ensures signed_comparison { refusal (valued (test Lt i n)) ≡ Some (9, 2) }
    ensures shift_by_64 { refusal (valued (bin Shl (var (codes "s")) (lit 64))) ≡ Some (16, 2) }
    ensures shift_by_63 { refusal (valued (bin Shl (var (codes "s")) (lit 63))) ≡ None }
    ensures scalar_test { refusal (tested (Lt, var (codes "s"), n)) ≡ Some (9, 2) }
    ensures affine_test { refusal (tested (Lt, i, bin Sub n (lit 1))) ≡ None }
{}
