//! Whether values lie within their ranges, and how many cells arrays have for them.

ghost use Rattle.std.specs.Prelude.{◌≡◌, ◌≤◌, ◌<◌, length, slice_get, Some, min, nat_lt, IfSome, IfNone, ℕ, MatchOption, int_lt, ◌||◌};
ghost use Rattle.c_tree.specs.Arrays as arrays;
ghost use Rattle.data_file.specs.Checks as spec;
ghost use Rattle.data_file.specs.Checks.{FindsFirst, IsFirst, NonePasses};
ghost use Rattle.data_file.specs.Conditions.{HasRows, IsFrame, IsSmallSum, AreSmall};
ghost use Rattle.c_tree.specs.declared.affine.Affine.{Affine};

use c_tree::{Affine, ArrayInfo, Frame, Inputs};

/// The most cells of an array.
const MOST_CELLS: u64 = 4_194_304;

fn is_beyond(low: i64, high: i64, value: i64) -> bool
    ensures { result ≡ (int_lt value low || int_lt high value) }
{
    value < low || high < value
}

fn is_outside(f: &Frame, i: &Inputs, parameter: usize) -> bool
    ensures { result ≡ spec.is_outside f.now i.now.ints parameter }
{
    let Some((_, low, high)) = f.ints.get(parameter) else {
        return false;
    };
    let Some(value) = i.ints.get(parameter) else {
        return false;
    };
    is_beyond(*low, *high, *value)
}

/// The number of the first parameter whose value is outside its range. Where none is, values are small.
pub fn first_outside(f: &Frame, i: &Inputs) -> Option<usize>
    requires frame { IsFrame f.now }
    requires rows { HasRows f.now i.now }
    ensures first { FindsFirst (spec.is_outside f.now i.now.ints) (length f.now.ints) result }
    ensures small { IfNone result (AreSmall i.now.ints) }
{
    for parameter in 0..f.ints.len() {
        if is_outside(f, i, parameter) {
            return Some(parameter);
        }
    }
    None
}

/// The value of a variable, the parameters being numbered from 1.
fn value_of(ints: &[i64], variable: u32) -> i64
    ensures { result ≡ spec.value_of ints.now variable }
{
    match ints.get((variable as usize).saturating_sub(1)) {
        Some(value) => *value,
        None => 0,
    }
}

fn term_value(ints: &[i64], variable: u32, coefficient: i64) -> i128
    ensures { result ≡ spec.term_value ints.now (variable, coefficient) }
{
    i128::from(coefficient) * i128::from(value_of(ints, variable))
}

fn sum_value(ints: &[i64], sum: &Affine) -> i128
    requires values { AreSmall ints.now }
    requires small { IsSmallSum sum.now }
    ensures { result ≡ spec.sum_value ints.now sum.now }
{
    let mut total = i128::from(sum.constant);
    for (variable, coefficient) in sum.terms.as_slice() {
        total += term_value(ints, *variable, *coefficient);
    }
    total
}

/// An extent, at most one more than the most cells of an array.
fn capped(extent: i128) -> u64
    ensures { result ≡ min (arrays.size_of extent) 4194305 }
{
    if extent <= 0 {
        0
    } else if extent > i128::from(MOST_CELLS) {
        MOST_CELLS + 1
    } else {
        extent as u64
    }
}

/// The cells of an array. The count stays at one more than the most once it is there.
fn cells_of_array(ints: &[i64], array: &ArrayInfo) -> u64
    requires values { AreSmall ints.now }
    requires small { (j : ℕ) (e : Affine) → slice_get array.now.extents j ≡ Some e → IsSmallSum e }
    ensures { result ≡ min (spec.cells_of_array ints.now array.now) 4194305 }
{
    let mut count = 1;
    for extent in array.extents.as_slice() {
        count = (count * capped(sum_value(ints, extent))).min(MOST_CELLS + 1);
    }
    count
}

/// The cells of the array of this number.
fn wanted_cells(f: &Frame, i: &Inputs, array: usize) -> u64
    requires frame { IsFrame f.now }
    requires values { AreSmall i.now.ints }
    ensures { result ≡ min (spec.wanted_cells f.now i.now.ints array) 4194305 }
{
    match f.arrays.get(array) {
        Some(array) => cells_of_array(i.ints.as_slice(), array),
        None => 0,
    }
}

/// The number of the first array that has too many cells.
pub fn first_too_large(f: &Frame, i: &Inputs) -> Option<usize>
    requires frame { IsFrame f.now }
    requires values { AreSmall i.now.ints }
    ensures { FindsFirst (spec.is_too_large f.now i.now.ints) (length f.now.arrays) result }
{
    for array in 0..f.arrays.len() {
        if wanted_cells(f, i, array) > MOST_CELLS {
            return Some(array);
        }
    }
    None
}

/// An array whose row has another number of cells.
#[derive(Clone, Copy, Debug)]
pub struct Mismatch {
    pub array: usize,
    pub wanted: u64,
    pub given: u64,
}

fn given_cells(i: &Inputs, array: usize) -> u64
    ensures { result ≡ spec.given_cells i.now.cells array }
{
    match i.cells.get(array) {
        Some(cells) => cells.len() as u64,
        None => 0,
    }
}

/// The first array whose row has another number of cells, where none has too many.
pub fn first_mismatch(f: &Frame, i: &Inputs) -> Option<Mismatch>
    requires frame { IsFrame f.now }
    requires values { AreSmall i.now.ints }
    requires few { NonePasses (spec.is_too_large f.now i.now.ints) (length f.now.arrays) }
    ensures { MatchOption result
        (NonePasses (spec.has_wrong_cells f.now i.now) (length f.now.arrays))
        (λ m. IsFirst (spec.has_wrong_cells f.now i.now) (length f.now.arrays) m.array
        × (m.wanted ≡ spec.wanted_cells f.now i.now.ints m.array)
        × (m.given ≡ spec.given_cells i.now.cells m.array)) }
{
    for array in 0..f.arrays.len() {
        let wanted = wanted_cells(f, i, array);
        let given = given_cells(i, array);
        if wanted != given {
            return Some(Mismatch {
                array,
                wanted,
                given,
            });
        }
    }
    None
}
