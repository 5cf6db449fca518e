//! Limits, and sums, differences and products that can't overflow.

ghost use Rattle.std.specs.Prelude.{◌≡◌, option_map, pos, ◌^◌, ◌+ℤ◌, ◌-ℤ◌, ◌*ℤ◌};
ghost use Rattle.std.specs.Int.{int_min, int_max};
ghost use Rattle.acceptance.specs.Affine as affine;
ghost use Rattle.scopes.specs.Intervals.{interval_in};
ghost use Rattle.affine_checks.specs.Linear as spec;
ghost use Rattle.affine_checks.specs.Shown.{wide_in};

use scopes::Interval;

/// An interval that may be wide.
#[derive(Clone, Copy)]
pub struct Wide {
    pub least: i128,
    pub greatest: i128,
}

/// Whether a constant or a coefficient is within -2^20 to 2^20.
pub fn is_small(z: i128) -> bool
    ensures { result ≡ affine.is_small z }
{
    -1048576 <= z && z <= 1048576
}

fn is_narrow_end(z: i128) -> bool
    ensures { result ≡ affine.lies_in (pos (2 ^ 62)) z }
{
    -4611686018427387904 <= z && z <= 4611686018427387904
}

/// The interval, where it is within -2^62 to 2^62.
pub fn kept(i: Wide) -> Option<Interval>
    ensures { option_map interval_in result ≡ spec.kept_interval (wide_in i) }
{
    if is_narrow_end(i.least) && is_narrow_end(i.greatest) {
        Some(Interval {
            least: i.least as i64,
            greatest: i.greatest as i64,
        })
    } else {
        None
    }
}

pub fn as_wide(i: Interval) -> Wide
    ensures { wide_in result ≡ interval_in i }
{
    Wide {
        least: i.least as i128,
        greatest: i.greatest as i128,
    }
}

pub fn from_ends(least: i128, greatest: i128) -> Wide
    ensures { wide_in result ≡ (least, greatest) }
{
    Wide { least, greatest }
}

pub fn plus(a: i64, b: i64) -> i128
    ensures { result ≡ a +ℤ b }
{
    a as i128 + b as i128
}

pub fn minus(a: i64, b: i64) -> i128
    ensures { result ≡ a -ℤ b }
{
    a as i128 - b as i128
}

pub fn times(a: i64, b: i64) -> i128
    ensures { result ≡ a *ℤ b }
{
    a as i128 * b as i128
}

pub fn lesser(a: i128, b: i128) -> i128
    ensures { result ≡ int_min a b }
{
    if b < a { b } else { a }
}

pub fn greater(a: i128, b: i128) -> i128
    ensures { result ≡ int_max a b }
{
    if b < a { a } else { b }
}
