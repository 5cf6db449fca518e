//! Where a parameter occurs.

ghost use Rattle.std.specs.Prelude.{◌≡◌};
ghost use Rattle.c_tree.specs.Trees.{expr, exprs, tests};
ghost use Rattle.sites.specs.Classes as spec;
ghost use Rattle.sites.specs.Shown.{frames_in};
ghost use Rattle.sites.specs.Small.{where_small};

use crate::frames::Frames;
use crate::small::coefficient_of;
use c_tree::{Expr, Exprs, Name, Tests};

fn names(x: &Name, e: &Expr) -> bool
    ensures { result ≡ spec.names where_small x.now.bytes (expr e.now) }
{
    coefficient_of(x, e) != 0
}

fn exprs_name(x: &Name, es: &Exprs) -> bool
    ensures { result ≡ spec.exprs_name where_small x.now.bytes (exprs es.now) }
{
    for e in es.as_slice() {
        if names(x, e) {
            return true;
        }
    }
    false
}

fn tests_name(x: &Name, ts: &Tests) -> bool
    ensures { result ≡ spec.tests_name where_small x.now.bytes (tests ts.now) }
{
    for (_, a, b) in ts.as_slice() {
        if names(x, a) || names(x, b) {
            return true;
        }
    }
    false
}

fn frames_name(x: &Name, frames: &Frames<'_>) -> bool
    ensures { result ≡ spec.frames_name where_small x.now.bytes (frames_in frames.now) }
{
    match frames {
        Frames::Outside => false,
        Frames::InLoop(_, lo, _, hi, outer) => {
            names(x, lo) || names(x, hi) || frames_name(x, outer)
        }
        Frames::InBranch(_, ts, outer) => tests_name(x, ts) || frames_name(x, outer),
    }
}

/// Whether the name occurs in a bound or a condition around an access, or in a subscript of it.
pub fn occurs(x: &Name, frames: &Frames<'_>, at: &Exprs) -> bool
    ensures { result ≡ spec.occurs where_small x.now.bytes (frames_in frames.now) (exprs at.now) }
{
    frames_name(x, frames) || exprs_name(x, at)
}
