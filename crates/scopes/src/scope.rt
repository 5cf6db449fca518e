//! What is in scope at an item.

ghost use Rattle.std.specs.Prelude.{◌≡◌, length, nat_lt};
ghost use Rattle.c_tree.specs.Names.{is_among};
ghost use Rattle.acceptance.specs.Affine.{interval_in as interval_among};
ghost use Rattle.acceptance.specs.Items as items;
ghost use Rattle.acceptance.specs.Printed.{dimensions as dimensions_at};
ghost use Rattle.acceptance.specs.Parts.{intervals_in};
ghost use Rattle.acceptance.specs.Head.{intervals_of};
ghost use Rattle.scopes.specs.Intervals.{interval_in};
ghost use Rattle.scopes.specs.Scopes.{declared_in, loops_in, scope_in, kept_intervals};

use crate::declared::Declared;
use crate::interval::Interval;
use crate::name_set::NameSet;
use c_tree::{Expr, Name, Rel};

/// The loops around an item, the innermost first: the variable, its first bound, the relation, its last bound, and its interval.
#[derive(Clone, Copy)]
pub enum Around<'a> {
    Nothing,
    Within(&'a Name, &'a Expr, Rel, &'a Expr, Interval, &'a Around<'a>),
}

/// What is in scope at an item.
#[derive(Clone, Copy)]
pub struct Scope<'a, 'n> {
    pub declared: &'a Declared<'n>,
    pub tables: &'a NameSet<'n>,
    pub around: &'a Around<'a>,
}

fn is_loop(around: &Around<'_>, name: &Name) -> bool
    ensures { result ≡ items.is_loop (loops_in around.now) name.now.bytes }
{
    match around {
        Around::Nothing => false,
        Around::Within(other, _, _, _, _, outer) => other.same(name) || is_loop(outer, name),
    }
}

fn is_deeper(around: &Around<'_>, least: u8) -> bool
    ensures { result ≡ nat_lt least (length (loops_in around.now)) }
{
    match around {
        Around::Nothing => false,
        Around::Within(_, _, _, _, _, outer) => least == 0 || is_deeper(outer, least - 1),
    }
}

fn interval_of(declared: &Declared<'_>, around: &Around<'_>, name: &Name) -> Interval
    ensures { interval_in result ≡ interval_among (kept_intervals (intervals_of (declared_in declared.now)) around.now) name.now.bytes }
{
    match around {
        Around::Nothing => declared.range_of(name),
        Around::Within(other, _, _, _, interval, outer) => if other.same(name) {
            *interval
        } else {
            interval_of(declared, outer, name)
        },
    }
}

impl<'a, 'n> Scope<'a, 'n> {
    /// Whether a loop around the item has this variable.
    pub fn is_loop(&self, name: &Name) -> bool
        ensures { result ≡ items.is_loop (scope_in self.now).loops name.now.bytes }
    {
        is_loop(self.around, name)
    }

    /// Whether the item stands in more loops than this.
    pub fn is_deeper(&self, least: u8) -> bool
        ensures { result ≡ nat_lt least (length (scope_in self.now).loops) }
    {
        is_deeper(self.around, least)
    }

    /// Whether an `int64_t` parameter has this name.
    pub fn is_int(&self, name: &Name) -> bool
        ensures { result ≡ items.is_int (scope_in self.now).params name.now.bytes }
    {
        self.declared.is_int(name)
    }

    /// Whether an array has this name.
    pub fn is_array(&self, name: &Name) -> bool
        ensures { result ≡ items.is_array (scope_in self.now).params name.now.bytes }
    {
        self.declared.is_array(name)
    }

    /// Whether a word has this name.
    pub fn is_scalar(&self, name: &Name) -> bool
        ensures { result ≡ items.is_scalar (scope_in self.now).words name.now.bytes }
    {
        self.declared.is_scalar(name)
    }

    /// Whether a wide word has this name.
    pub fn is_wide(&self, name: &Name) -> bool
        ensures { result ≡ is_among (scope_in self.now).wides name.now.bytes }
    {
        self.declared.is_wide(name)
    }

    /// Whether a table before the item has this name.
    pub fn is_table(&self, name: &Name) -> bool
        ensures { result ≡ is_among (scope_in self.now).tables name.now.bytes }
    {
        self.tables.contains(name)
    }

    /// Whether the name is declared outside loops.
    pub fn is_declared(&self, name: &Name) -> bool
        ensures { result ≡ items.is_declared (scope_in self.now) name.now.bytes }
    {
        self.declared.is_param(name)
            || self.declared.is_scalar(name)
            || self.declared.is_wide(name)
            || self.tables.contains(name)
    }

    /// Whether the name is in scope.
    pub fn is_known(&self, name: &Name) -> bool
        ensures { result ≡ items.is_known (scope_in self.now) name.now.bytes }
    {
        self.is_loop(name) || self.is_declared(name)
    }

    /// Whether the name is that of a loop variable or of an `int64_t` parameter.
    pub fn is_signed_name(&self, name: &Name) -> bool
        ensures { result ≡ items.is_signed_name (scope_in self.now) name.now.bytes }
    {
        self.is_loop(name) || self.is_int(name)
    }

    /// The number of subscripts that the name takes.
    pub fn dimensions(&self, name: &Name) -> usize
        ensures { result ≡ dimensions_at (scope_in self.now) name.now.bytes }
    {
        if self.is_table(name) {
            1
        } else {
            self.declared.extents_of(name)
        }
    }

    /// The interval of a name, by the intervals that are kept at the loops.
    pub fn interval_of(&self, name: &Name) -> Interval
        ensures { interval_in result ≡ interval_among (kept_intervals (intervals_of (declared_in self.now.declared.now)) self.now.around.now) name.now.bytes }
    {
        interval_of(self.declared, self.around, name)
    }
}
