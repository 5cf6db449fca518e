//! What keeps an array from being one of differences.

ghost use Rattle.std.specs.Prelude.{◌≡◌, map, nat_le, false};
ghost use Rattle.acceptance.specs.Parts as parts;
ghost use Rattle.c_tree.specs.Names.{ints_in};
ghost use Rattle.c_tree.specs.Trees.{expr, exprs, a_test, param, tests};
ghost use Rattle.sites.specs.Classes as spec;
ghost use Rattle.sites.specs.Shown.{frames_in};
ghost use Rattle.sites.specs.Small.{where_small};

use crate::form::{Sum, is_difference_sum, is_plain_sum};
use crate::frames::Frames;
use c_tree::{Expr, Exprs, Rel, Tests, Unit};

fn is_cell(e: &Expr) -> bool
    ensures { result ≡ parts.is_cell (expr e.now) }
{
    match e {
        Expr::Cell(_, _) => true,
        _ => false,
    }
}

/// Whether a subscript is a cell.
pub fn has_cell(at: &Exprs) -> bool
    ensures { result ≡ spec.has_cell (exprs at.now) }
{
    for e in at.as_slice() {
        if is_cell(e) {
            return true;
        }
    }
    false
}

fn is_plain(unit: &Unit, frames: &Frames<'_>, e: &Expr) -> bool
    ensures { result ≡ spec.is_plain where_small (spec.names_around (ints_in (map param unit.now.params)) (frames_in frames.now)) (expr e.now) }
{
    is_plain_sum(&Sum::One(e), unit, frames)
}

fn are_plain(unit: &Unit, frames: &Frames<'_>, at: &Exprs) -> bool
    ensures { result ≡ spec.are_plain where_small (spec.names_around (ints_in (map param unit.now.params)) (frames_in frames.now)) (exprs at.now) }
{
    for e in at.as_slice() {
        if !is_plain(unit, frames, e) {
            return false;
        }
    }
    true
}

fn is_unequal(rel: Rel) -> bool
    ensures { result ≡ spec.is_unequal rel }
{
    match rel {
        Rel::Ne => true,
        _ => false,
    }
}

fn is_order(rel: Rel) -> bool
    ensures { result ≡ spec.is_order rel }
{
    match rel {
        Rel::Eq | Rel::Ne => false,
        _ => true,
    }
}

fn is_good_test(unit: &Unit, frames: &Frames<'_>, test: &(Rel, Expr, Expr)) -> bool
    ensures { result ≡ spec.is_good_test where_small (spec.names_around (ints_in (map param unit.now.params)) (frames_in frames.now)) (a_test test.now) }
{
    !is_unequal(test.0) && is_difference_sum(&Sum::Difference(&test.1, &test.2), unit, frames)
}

fn are_good_tests(unit: &Unit, frames: &Frames<'_>, ts: &Tests) -> bool
    ensures { result ≡ spec.are_good_tests where_small (spec.names_around (ints_in (map param unit.now.params)) (frames_in frames.now)) (tests ts.now) }
{
    for test in ts.as_slice() {
        if !is_good_test(unit, frames, test) {
            return false;
        }
    }
    true
}

fn is_one_order(ts: &[(Rel, Expr, Expr)]) -> bool
    ensures { result ≡ spec.is_good_branch false (tests ts.now) }
{
    match ts {
        [test] => is_order(test.0),
        _ => false,
    }
}

fn is_good_branch(first: bool, ts: &Tests) -> bool
    ensures { result ≡ spec.is_good_branch first (tests ts.now) }
{
    first || is_one_order(ts.as_slice())
}

fn are_good_frames(unit: &Unit, frames: &Frames<'_>) -> bool
    ensures { result ≡ spec.are_good_frames where_small (ints_in (map param unit.now.params)) (frames_in frames.now) }
{
    match frames {
        Frames::Outside => true,
        Frames::InLoop(_, lo, _, hi, outer) => {
            is_plain(unit, outer, lo) && is_plain(unit, outer, hi) && are_good_frames(unit, outer)
        }
        Frames::InBranch(first, ts, outer) => {
            is_good_branch(*first, ts)
                && are_good_tests(unit, outer, ts)
                && are_good_frames(unit, outer)
        }
    }
}

fn has_loops_to(frames: &Frames<'_>, most: u8) -> bool
    ensures { result ≡ nat_le (spec.loops_in (frames_in frames.now)) most }
{
    match frames {
        Frames::Outside => true,
        Frames::InLoop(_, _, _, _, outer) => most > 0 && has_loops_to(outer, most - 1),
        Frames::InBranch(_, _, outer) => has_loops_to(outer, most),
    }
}

/// Whether all around an access is as an array of differences has it.
pub fn is_good(unit: &Unit, frames: &Frames<'_>, at: &Exprs) -> bool
    ensures { result ≡ spec.is_good where_small (ints_in (map param unit.now.params)) (frames_in frames.now) (exprs at.now) }
{
    has_loops_to(frames, 3) && are_good_frames(unit, frames) && are_plain(unit, frames, at)
}
