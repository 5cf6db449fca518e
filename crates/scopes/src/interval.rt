//! Intervals.

/// The whole numbers from `least` to `greatest`.
#[derive(Clone, Copy)]
pub struct Interval {
    pub least: i64,
    pub greatest: i64,
}
