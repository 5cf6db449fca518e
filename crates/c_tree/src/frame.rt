//! The head of a unit as numbers, and what a run is given.

use crate::affine::Affines;
use crate::name::Name;
use crate::unit::Ranges;
use sqlite_items::Items;

/// The number of a site. The sites of the whole unit are counted from 0 in text and access order.
#[derive(Clone, Copy, Debug, PartialEq, Eq)]
pub struct Site(pub u32);

/// The parameters and arrays of a unit, each in declared order.
#[derive(Drop)]
pub struct Frame {
    pub ints: Ranges,
    pub arrays: Arrays,
}

/// An array, with its extents as sums of the `int64_t` parameters, which are numbered from 1.
#[derive(Drop)]
pub struct ArrayInfo {
    pub name: Name,
    pub constant: bool,
    pub extents: Affines,
}

pub type Arrays = Items<ArrayInfo>;

/// What a run is given: a value for each `int64_t` parameter, and the cells of each array, both in
/// declared order.
#[derive(Drop)]
pub struct Inputs {
    pub ints: Ints,
    pub cells: Cells,
}

pub type Ints = Items<i64>;

/// The cells of one array, row-major.
pub type ArrayCells = Items<u64>;

pub type Cells = Items<ArrayCells>;
