//! What is asked of an affine part.

/// What is asked of an affine part.
#[derive(Clone, Copy)]
pub enum Demand {
    /// It is affine.
    Affine,
    /// Its constants and coefficients are small.
    Small,
    /// Its intervals are narrow.
    Narrow,
}
