//! What follows of sums whose terms stand in order.

ghost use Rattle.affine_sets.specs.Laws.{CoefficientsLieIn, LimitsGrow, MultiplesLieIn, TermsAreDetermined, TermsAreFew};

/// For a user of sums: the coefficients determine the terms, of n variables there are at most n
/// terms, what lies within a limit lies within each larger one, and how large multiples are.
pub fn ordered_sums()
    ensures determined { TermsAreDetermined }
    ensures few { TermsAreFew }
    ensures coefficients { CoefficientsLieIn }
    ensures limits { LimitsGrow }
    ensures multiples { MultiplesLieIn }
{}
