//! The names that a unit declares outside loops.

ghost use Rattle.std.specs.Prelude.{◌≡◌, IfOk};
ghost use Rattle.c_tree.specs.Names.{is_among};
ghost use Rattle.c_tree.specs.Trees.{unit as plain_unit};
ghost use Rattle.acceptance.specs.Affine.{interval_in as interval_among};
ghost use Rattle.acceptance.specs.Head.{intervals_of};
ghost use Rattle.acceptance.specs.Items as items;
ghost use Rattle.acceptance.specs.Printed.{dimensions_of};
ghost use Rattle.acceptance.specs.Sources as sources;
ghost use Rattle.scopes.specs.Intervals.{interval_in};
ghost use Rattle.scopes.specs.Known.{KnowsUnit};

use crate::interval::Interval;
use crate::known::{Table, find, table_of};
use c_tree::{Name, OutOfMemory, Unit};
use std::alloc::Global;

/// The parameters, words and wide names of a unit, by which a name is found.
#[derive(Drop)]
pub struct Declared<'a> {
    /// The unit whose names they are.
    pub unit: &'a Unit,
    table: Table<'a>,
    ghost known: { KnowsUnit table.entries (plain_unit unit.now) },
}

impl<'a> Declared<'a> {
    ghost use Rattle.scopes.specs.Scopes.{declared_in};

    /// The names of a unit.
    pub fn new(alloc: Global, unit: &'a Unit) -> Result<Declared<'a>, OutOfMemory>
        ensures { IfOk result (λ d. d.unit.now ≡ unit.now) }
    {
        let table = table_of(alloc, unit)?;
        Ok(Declared { unit, table })
    }

    /// Whether an `int64_t` parameter has this name.
    pub fn is_int(&self, name: &Name) -> bool
        ensures { result ≡ items.is_int (declared_in self.now).params name.now.bytes }
    {
        find(&self.table, name).int
    }

    /// Whether an array has this name.
    pub fn is_array(&self, name: &Name) -> bool
        ensures { result ≡ items.is_array (declared_in self.now).params name.now.bytes }
    {
        find(&self.table, name).array
    }

    /// Whether a `const` array has this name.
    pub fn is_const_array(&self, name: &Name) -> bool
        ensures { result ≡ sources.is_const_array (declared_in self.now).params name.now.bytes }
    {
        find(&self.table, name).constant
    }

    /// Whether a parameter or an array has this name.
    pub fn is_param(&self, name: &Name) -> bool
        ensures { result ≡ items.is_param (declared_in self.now).params name.now.bytes }
    {
        let known = find(&self.table, name);
        known.int || known.array
    }

    /// Whether a word has this name.
    pub fn is_scalar(&self, name: &Name) -> bool
        ensures { result ≡ items.is_scalar (declared_in self.now).words name.now.bytes }
    {
        find(&self.table, name).scalar
    }

    /// Whether a wide word has this name.
    pub fn is_wide(&self, name: &Name) -> bool
        ensures { result ≡ is_among (declared_in self.now).wides name.now.bytes }
    {
        find(&self.table, name).wide
    }

    /// How many extents the first array of this name has; 0 where there is none.
    pub fn extents_of(&self, name: &Name) -> usize
        ensures { result ≡ dimensions_of (declared_in self.now).params name.now.bytes }
    {
        find(&self.table, name).extents
    }

    /// The interval of the first range line of this name; 0 alone where there is none.
    pub fn range_of(&self, name: &Name) -> Interval
        ensures { interval_in result ≡ interval_among (intervals_of (declared_in self.now)) name.now.bytes }
    {
        find(&self.table, name).range
    }
}
