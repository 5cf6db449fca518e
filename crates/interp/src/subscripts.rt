//! The place of a cell whose subscripts are all signed, found without a list of their values.

ghost use Rattle.std.specs.Prelude.{◌≡◌};
ghost use Rattle.interp.specs.Places.{all_placed};
ghost use Rattle.interp.specs.Subscripts.{next_row, row_major, signed_place};
ghost use Rattle.interp.specs.Values.{values_in};

use crate::scene::Scene;
use crate::signed::signed;
use crate::slots::WordExpr;
use crate::values::Values;

/// The row-major number behind this many rows, where its last coordinate lies within its extent.
#[inline(always)]
fn behind(rows: u64, extent: i64, c: i64) -> Option<u64>
    ensures { result ≡ next_row rows extent c }
{
    if 0 <= c && c < extent {
        Some(
            rows.wrapping_mul(extent.cast_unsigned())
                .wrapping_add(c.cast_unsigned()),
        )
    } else {
        None
    }
}

/// The row-major number of a cell within the extents, behind this many rows, where all its subscripts are signed.
#[inline(never)]
fn number_by_list(rows: u64, extents: &[i64], at: &[WordExpr], values: &Values<'_>) -> Option<u64>
    ensures { result ≡ row_major rows extents.now at.now (values_in values.now) }
{
    let mut rows = rows;
    let mut extents = extents;
    for e in at {
        match e {
            WordExpr::Index(e) => match extents {
                [] => {
                    return None;
                }
                [extent, more @ ..] => match behind(rows, *extent, signed(e, values)) {
                    Some(number) => {
                        rows = number;
                        extents = more;
                    }
                    None => {
                        return None;
                    }
                },
            },
            _ => {
                return None;
            }
        }
    }
    match extents {
        [] => Some(rows),
        [_, ..] => None,
    }
}

/// The same, with the end of a list in line.
#[inline(always)]
fn with_end_in_line(rows: u64, extents: &[i64], at: &[WordExpr], values: &Values<'_>) -> Option<u64>
    ensures { result ≡ row_major rows extents.now at.now (values_in values.now) }
{
    match at {
        [] => match extents {
            [] => Some(rows),
            [_, ..] => None,
        },
        _ => number_by_list(rows, extents, at, values),
    }
}

/// The same, with a subscript in line.
#[inline(always)]
fn with_one_in_line(rows: u64, extents: &[i64], at: &[WordExpr], values: &Values<'_>) -> Option<u64>
    ensures { result ≡ row_major rows extents.now at.now (values_in values.now) }
{
    match at {
        [first, at @ ..] => match first {
            WordExpr::Index(e) => match extents {
                [] => None,
                [extent, extents @ ..] => match behind(rows, *extent, signed(e, values)) {
                    Some(rows) => with_end_in_line(rows, extents, at, values),
                    None => None,
                },
            },
            _ => None,
        },
        [] => with_end_in_line(rows, extents, at, values),
    }
}

/// The same, with two subscripts in line.
#[inline(always)]
fn with_two_in_line(rows: u64, extents: &[i64], at: &[WordExpr], values: &Values<'_>) -> Option<u64>
    ensures { result ≡ row_major rows extents.now at.now (values_in values.now) }
{
    match at {
        [first, at @ ..] => match first {
            WordExpr::Index(e) => match extents {
                [] => None,
                [extent, extents @ ..] => match behind(rows, *extent, signed(e, values)) {
                    Some(rows) => with_one_in_line(rows, extents, at, values),
                    None => None,
                },
            },
            _ => None,
        },
        [] => with_end_in_line(rows, extents, at, values),
    }
}

/// The place of a cell within its array, where all its subscripts are signed. None leaves the cell, and why a run
/// stops there, to the list of its coordinates.
#[inline(always)]
pub fn find_signed(scene: &Scene<'_>, array: u32, at: &[WordExpr]) -> Option<u64>
    ensures { result ≡ signed_place (all_placed scene.now.places.now) array at.now (values_in scene.now.values) }
{
    match scene.places.get(array as usize) {
        Some(p) => match with_two_in_line(0, p.extents.as_slice(), at, &scene.values) {
            Some(number) => Some(p.base.wrapping_add(number)),
            None => None,
        },
        None => None,
    }
}
