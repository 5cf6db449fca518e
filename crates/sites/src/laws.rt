//! Worked examples.

ghost use Rattle.std.specs.Prelude.{codes, ◌≡◌, ◌∷◌, [], true, false};
ghost use Rattle.acceptance.specs.WorkedSources.{added_to, at, gather, gathered, i, jacobi, mix, n, nest_of, product_of, shift, sum_of_reads, triangle, valued};
ghost use Rattle.c_tree.specs.Plain.{bin, lit};
ghost use Rattle.c_tree.specs.declared.expr.BinOp.TheVariants.{Add, Sub, Mul};
ghost use Rattle.c_tree.specs.declared.expr.Rel.TheVariants.{Lt, Le, Gt, Ge, Eq, Ne};
ghost use Rattle.sites.specs.Worked.{a_class, added_through, around_each, arrays, listed, numbers, steps, under, under_else, variables, with_all, with_ints, written_at};
ghost use Rattle.sites.specs.declared.class.Class.TheVariants.{Counted, Difference, Inspected};

/// The arrays of worked sources, each with its class and the numbers of its read and write sites.
pub fn worked_arrays()
    ensures mix { arrays mix ≡ (codes "A", Counted, 0, 1) ∷ (codes "B", Counted, 1, 0) ∷ (codes "C", Difference, 1, 1) ∷ [] }
    ensures gather { arrays gather ≡ (codes "P", Difference, 1, 0) ∷ (codes "X", Inspected, 1, 0) ∷ (codes "Y", Difference, 0, 1) ∷ [] }
    ensures shift { arrays shift ≡ (codes "A", Difference, 1, 1) ∷ [] }
    ensures product { arrays (product_of (codes "n")) ≡ (codes "A", Difference, 1, 0) ∷ (codes "B", Difference, 1, 0) ∷ (codes "C", Difference, 1, 1) ∷ [] }
    ensures triangle { arrays triangle ≡ (codes "A", Difference, 3, 1) ∷ [] }
    ensures jacobi { arrays jacobi ≡ (codes "A", Difference, 2, 1) ∷ (codes "B", Difference, 1, 1) ∷ [] }
    ensures compound { arrays (added_to (at (codes "A") i) (lit 1)) ≡ (codes "A", Difference, 1, 1) ∷ [] }
    ensures through_an_index { arrays (gathered true) ≡ (codes "A", Inspected, 1, 1) ∷ (codes "P", Difference, 1, 0) ∷ [] }
{}

/// Classes on either side of each limit.
pub fn worked_classes()
    ensures near { a_class (written_at (bin Add i (lit 1024))) ≡ Difference }
    ensures beyond { a_class (written_at (bin Add i (lit 1025))) ≡ Counted }
    ensures near_below { a_class (written_at (bin Sub i (lit 1024))) ≡ Difference }
    ensures beyond_below { a_class (written_at (bin Sub i (lit 1025))) ≡ Counted }
    ensures collected { a_class (written_at (bin Add (bin Sub n n) (lit 1))) ≡ Difference }
    ensures doubled { a_class (written_at (bin Mul (lit 2) i)) ≡ Counted }
    ensures two_names { a_class (written_at (bin Sub n i)) ≡ Counted }
    ensures ordered { a_class (under ((Lt, i, n) ∷ [])) ≡ Difference }
    ensures equal { a_class (under ((Eq, i, lit 3) ∷ [])) ≡ Difference }
    ensures unequal { a_class (under ((Ne, i, lit 3) ∷ [])) ≡ Counted }
    ensures sum_of_two { a_class (under ((Lt, bin Add i n, lit 3) ∷ [])) ≡ Counted }
    ensures far_apart { a_class (under ((Lt, bin Add i (lit 1000), bin Sub n (lit 25)) ∷ [])) ≡ Counted }
    ensures two_tests { a_class (under ((Lt, i, n) ∷ (Ge, i, lit 3) ∷ [])) ≡ Difference }
    ensures other { a_class (under_else ((Gt, i, n) ∷ [])) ≡ Difference }
    ensures other_of_equal { a_class (under_else ((Eq, i, n) ∷ [])) ≡ Counted }
    ensures other_of_two { a_class (under_else ((Lt, i, n) ∷ (Ge, i, lit 3) ∷ [])) ≡ Counted }
    ensures four_writes { a_class (with_all (steps 4)) ≡ Difference }
    ensures five_writes { a_class (with_all (steps 5)) ≡ Counted }
    ensures eight_reads { a_class (valued (sum_of_reads 7)) ≡ Difference }
    ensures nine_reads { a_class (valued (sum_of_reads 8)) ≡ Counted }
    ensures three_loops { a_class (nest_of 3) ≡ Difference }
    ensures four_loops { a_class (nest_of 4) ≡ Counted }
    ensures four_ints { a_class (with_ints 3) ≡ Difference }
    ensures five_ints { a_class (with_ints 4) ≡ Counted }
{}

/// Sites in their order.
pub fn worked_sites()
    ensures old_cell_first { listed added_through ≡ (2, 0, codes "A", false) ∷ (2, 1, codes "P", false) ∷ (2, 2, codes "A", false) ∷ (2, 3, codes "A", true) ∷ [] }
    ensures reads_then_write { listed shift ≡ (2, 0, codes "A", false) ∷ (2, 1, codes "A", true) ∷ [] }
    ensures statements { listed (under_else ((Lt, i, n) ∷ [])) ≡ (3, 0, codes "A", false) ∷ (3, 1, codes "A", true) ∷ (4, 0, codes "A", false) ∷ (4, 1, codes "A", true) ∷ [] }
    ensures numbers { numbers mix (codes "C") ≡ 2 ∷ 3 ∷ [] }
    ensures variables { variables jacobi (codes "B") ≡ ((codes "t", 1) ∷ (codes "n", 2) ∷ (codes "s", 3) ∷ (codes "i", 4) ∷ [])
        ∷ ((codes "t", 1) ∷ (codes "n", 2) ∷ (codes "s", 3) ∷ (codes "i", 5) ∷ []) ∷ [] }
    ensures items { around_each (under_else ((Lt, i, n) ∷ [])) ≡ (2 ∷ 1 ∷ []) ∷ (2 ∷ 1 ∷ []) ∷ (1 ∷ []) ∷ (1 ∷ []) ∷ [] }
{}
