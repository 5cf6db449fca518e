//! The form of a sum: which names have the coefficients 1 and -1.

ghost use Rattle.std.specs.Prelude.{◌≡◌, map};
ghost use Rattle.c_tree.specs.Names.{ints_in};
ghost use Rattle.c_tree.specs.Trees.{param};
ghost use Rattle.sites.specs.Classes as spec;
ghost use Rattle.sites.specs.Forms.{coefficient_in, constant_in, is_difference_sum, is_plain_sum};
ghost use Rattle.sites.specs.Shown.{frames_in};

use crate::frames::Frames;
use crate::small::{coefficient_of, constant_of};
use c_tree::{Expr, Name, Param, Unit};

/// The form of a sum with a constant c.
#[derive(Clone, Copy)]
pub enum Form {
    /// `c`
    Constant,
    /// `x + c`
    Plus,
    /// `-x + c`
    Minus,
    /// `x - y + c`
    Both,
    Other,
}

/// An expression, or the difference of two.
#[derive(Clone, Copy)]
pub enum Sum<'a> {
    One(&'a Expr),
    Difference(&'a Expr, &'a Expr),
}

fn with_plus(f: Form) -> Form
    ensures { result ≡ spec.with_plus f }
{
    match f {
        Form::Constant => Form::Plus,
        Form::Minus => Form::Both,
        _ => Form::Other,
    }
}

fn with_minus(f: Form) -> Form
    ensures { result ≡ spec.with_minus f }
{
    match f {
        Form::Constant => Form::Minus,
        Form::Plus => Form::Both,
        _ => Form::Other,
    }
}

fn with_term(f: Form, z: i64) -> Form
    ensures { result ≡ spec.with_term f z }
{
    if z == 0 {
        f
    } else if z == 1 {
        with_plus(f)
    } else if z == -1 {
        with_minus(f)
    } else {
        Form::Other
    }
}

fn coefficient(sum: &Sum<'_>, x: &Name) -> i64
    ensures { result ≡ coefficient_in sum.now x.now.bytes }
{
    match sum {
        Sum::One(e) => coefficient_of(x, e) as i64,
        Sum::Difference(a, b) => coefficient_of(x, a) as i64 - coefficient_of(x, b) as i64,
    }
}

fn constant(sum: &Sum<'_>) -> i64
    ensures { result ≡ constant_in sum.now }
{
    match sum {
        Sum::One(e) => constant_of(e) as i64,
        Sum::Difference(a, b) => constant_of(a) as i64 - constant_of(b) as i64,
    }
}

fn with_ints(f: Form, sum: &Sum<'_>, params: &[Param]) -> Form
    ensures { result ≡ spec.form_from f (coefficient_in sum.now) (ints_in (map param params.now)) }
{
    let mut form = f;
    for p in params {
        if let Param::Int(x) = p {
            form = with_term(form, coefficient(sum, x));
        }
    }
    form
}

fn with_names(f: Form, sum: &Sum<'_>, unit: &Unit, frames: &Frames<'_>) -> Form
    ensures { result ≡ spec.form_from f (coefficient_in sum.now) (spec.names_around (ints_in (map param unit.now.params)) (frames_in frames.now)) }
{
    match frames {
        Frames::Outside => with_ints(f, sum, unit.params.as_slice()),
        Frames::InLoop(x, _, _, _, outer) => {
            with_names(with_term(f, coefficient(sum, x)), sum, unit, outer)
        }
        Frames::InBranch(_, _, outer) => with_names(f, sum, unit, outer),
    }
}

fn is_plain_form(f: Form) -> bool
    ensures { result ≡ spec.is_plain_form f }
{
    match f {
        Form::Constant | Form::Plus => true,
        _ => false,
    }
}

fn is_difference_form(f: Form) -> bool
    ensures { result ≡ spec.is_difference_form f }
{
    match f {
        Form::Other => false,
        _ => true,
    }
}

fn is_near(z: i64) -> bool
    ensures { result ≡ spec.is_near z }
{
    -1024 <= z && z <= 1024
}

/// Whether a sum is `c` or `x + c`, c being within -1024 to 1024.
pub fn is_plain_sum(sum: &Sum<'_>, unit: &Unit, frames: &Frames<'_>) -> bool
    ensures { result ≡ is_plain_sum sum.now (spec.names_around (ints_in (map param unit.now.params)) (frames_in frames.now)) }
{
    is_near(constant(sum)) && is_plain_form(with_names(Form::Constant, sum, unit, frames))
}

/// Whether a sum is `c`, `x + c`, `-x + c` or `x - y + c`.
pub fn is_difference_sum(sum: &Sum<'_>, unit: &Unit, frames: &Frames<'_>) -> bool
    ensures { result ≡ is_difference_sum sum.now (spec.names_around (ints_in (map param unit.now.params)) (frames_in frames.now)) }
{
    is_near(constant(sum)) && is_difference_form(with_names(Form::Constant, sum, unit, frames))
}
