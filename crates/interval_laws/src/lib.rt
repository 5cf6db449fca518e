//! Laws on intervals of affine expressions.
#![tactic(auto)]

ghost use Rattle.interval_laws.specs.Laws.{NarrowValuesAreExact, ParametersLieWithin, ValuesLieWithin};

/// The exact value of an affine expression lies in its interval, and where all intervals are narrow it is the value in
/// signed words.
pub fn affine_values_lie_within()
    ensures values { ValuesLieWithin }
    ensures narrow { NarrowValuesAreExact }
    ensures parameters { ParametersLieWithin }
{}
