//! Bounds on differences of two variables.

ghost use Rattle.std.specs.Prelude.{◌≡◌, ◌^◌, pos, neg_ℤ, true};
ghost use Rattle.std.specs.Option.{IfSome, is_some};
ghost use Rattle.acceptance.specs.Affine.{lies_in};
ghost use Rattle.affine_sets.specs.Differences.{HasVariables, SaysTheSame, is_1, is_difference, is_minus_1};
ghost use Rattle.affine_sets.specs.Read.{of_one, of_terms, of_two};
ghost use Rattle.affine_sets.specs.Sums.{is_ordered};

use c_tree::Affine;

/// `x - y <= c`, where variable 0 is the constant 0.
#[derive(Clone, Copy, Debug, PartialEq, Eq)]
pub struct Diff {
    pub x: u32,
    pub y: u32,
    pub c: i64,
}

fn of_one(t: &(u32, i64), c: i64) -> Option<Diff>
    ensures { result ≡ of_one c t.now }
{
    if t.1 == 1 {
        Some(Diff { x: t.0, y: 0, c })
    } else if t.1 == -1 {
        Some(Diff { x: 0, y: t.0, c })
    } else {
        None
    }
}

fn of_two(t: &(u32, i64), u: &(u32, i64), c: i64) -> Option<Diff>
    ensures { result ≡ of_two c t.now u.now }
{
    if t.1 == 1 && u.1 == -1 {
        Some(Diff { x: t.0, y: u.0, c })
    } else if t.1 == -1 && u.1 == 1 {
        Some(Diff { x: u.0, y: t.0, c })
    } else {
        None
    }
}

fn of_terms(terms: &[(u32, i64)], c: i64) -> Option<Diff>
    ensures { result ≡ of_terms c terms.now }
{
    match terms {
        [] => Some(Diff { x: 0, y: 0, c }),
        [t] => of_one(t, c),
        [t, u] => of_two(t, u, c),
        _ => None,
    }
}

/// The constant of the bound.
fn negated(constant: i64) -> i64
    requires { lies_in (pos (2 ^ 42)) constant ≡ true }
    ensures { result ≡ neg_ℤ constant }
{
    -constant
}

fn of_sum(a: &Affine) -> Option<Diff>
    requires { lies_in (pos (2 ^ 42)) a.now.constant ≡ true }
    ensures { result ≡ of_terms (neg_ℤ a.now.constant) a.now.terms }
{
    of_terms(a.terms.as_slice(), negated(a.constant))
}

/// What `a <= 0` says as a bound on a difference. None where `a` is none of `c`, `x + c`, `-x + c`
/// and `x - y + c`.
pub fn as_difference(a: &Affine) -> Option<Diff>
    requires ordered { is_ordered a.now.terms ≡ true }
    requires constant_size { lies_in (pos (2 ^ 42)) a.now.constant ≡ true }
    ensures form { is_some result ≡ is_difference a.now.terms }
    ensures same { IfSome result (SaysTheSame a.now) }
    ensures constant { IfSome result (λ d. d.c ≡ neg_ℤ a.now.constant) }
    ensures variables { IfSome result (HasVariables a.now.terms) }
{
    of_sum(a)
}
