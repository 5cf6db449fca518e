//! The class of an array and how many sites it has.

ghost use Rattle.std.specs.Prelude.{◌≡◌, ◌-◌, ◌^◌, length, map, min, nat_le, nat_lt};
ghost use Rattle.std.specs.List.{list_all, list_any};
ghost use Rattle.c_tree.specs.Names.{ints_in};
ghost use Rattle.acceptance.specs.Sources.{IsAcceptedSource};
ghost use Rattle.c_tree.specs.Trees as plain;
ghost use Rattle.c_tree.specs.Trees.{param};
ghost use Rattle.sites.specs.Asked.{ints_of, number_asked, occurring, sites_in};
ghost use Rattle.sites.specs.Classes as spec;
ghost use Rattle.sites.specs.Found.{bit};
ghost use Rattle.sites.specs.Sites.{around, is_read, is_write, sites_of};
ghost use Rattle.sites.specs.Small.{where_small};

use crate::class::Class;
use crate::frames::Frames;
use crate::question::{Ask, Question};
use crate::walk::found_all;
use c_tree::{Name, Param, Unit};

fn number(unit: &Unit, array: &Name, ask: Ask<'_>) -> u32
    ensures { result ≡ min (number_asked unit.now array.now.bytes ask.entry) (2 ^ 32 - 1) }
{
    let q = Question { unit, array, ask };
    found_all(&q, &Frames::Outside, &unit.body)
}

fn has_any(unit: &Unit, array: &Name, ask: Ask<'_>) -> bool
    ensures { result ≡ nat_lt 0 (number_asked unit.now array.now.bytes ask.entry) }
{
    number(unit, array, ask) > 0
}

fn has_at_most(unit: &Unit, array: &Name, ask: Ask<'_>, most: u8) -> bool
    ensures { result ≡ nat_le (number_asked unit.now array.now.bytes ask.entry) most }
{
    number(unit, array, ask) <= most as u32
}

fn occurs(unit: &Unit, array: &Name, x: &Name) -> bool
    ensures { result ≡ list_any (λ s. spec.occurs where_small x.now.bytes (around s) s.reach.at) (sites_in unit.now array.now.bytes) }
{
    has_any(unit, array, Ask::Naming(x))
}

/// 1 where the parameter occurs around a site of the array.
fn occurs_once(unit: &Unit, array: &Name, x: &Name) -> u32
    ensures { result ≡ bit (list_any (λ s. spec.occurs where_small x.now.bytes (around s) s.reach.at) (sites_in unit.now array.now.bytes)) }
{
    if occurs(unit, array, x) { 1 } else { 0 }
}

/// How many parameters occur around sites of the array.
fn occurring(unit: &Unit, array: &Name) -> u32
    ensures { result ≡ min (length (occurring unit.now array.now.bytes (ints_of unit.now))) (2 ^ 32 - 1) }
{
    let mut sum: u32 = 0;
    for p in unit.params.as_slice() {
        if let Param::Int(x) = p {
            sum = sum.saturating_add(occurs_once(unit, array, x));
        }
    }
    sum
}

fn has_few_ints(unit: &Unit, array: &Name) -> bool
    ensures { result ≡ nat_le (length (occurring unit.now array.now.bytes (ints_of unit.now))) 4 }
{
    occurring(unit, array) <= 4
}

fn is_irregular(unit: &Unit, array: &Name) -> bool
    ensures { result ≡ list_any (λ s. spec.is_irregular s.reach) (sites_in unit.now array.now.bytes) }
{
    has_any(unit, array, Ask::Irregular)
}

fn is_good(unit: &Unit, array: &Name) -> bool
    ensures { result ≡ list_all (λ s. spec.is_good where_small (ints_of unit.now) (around s) s.reach.at) (sites_in unit.now array.now.bytes) }
{
    has_at_most(unit, array, Ask::Bad, 0)
}

fn are_differences(unit: &Unit, array: &Name) -> bool
    ensures { result ≡ spec.are_differences where_small (ints_of unit.now) (sites_in unit.now array.now.bytes) }
{
    has_at_most(unit, array, Ask::Writes, 4)
        && has_at_most(unit, array, Ask::Reads, 8)
        && is_good(unit, array)
        && has_few_ints(unit, array)
}

fn class_found(unit: &Unit, array: &Name) -> Class
    ensures { result ≡ spec.class_by where_small (ints_of unit.now) (sites_in unit.now array.now.bytes) }
{
    if is_irregular(unit, array) {
        Class::Inspected
    } else if are_differences(unit, array) {
        Class::Difference
    } else {
        Class::Counted
    }
}

/// The class of an array. One without sites is an array of differences.
pub fn class_of(unit: &Unit, array: &Name) -> Class
    requires { IsAcceptedSource (plain.unit unit.now) }
    ensures { result ≡ spec.class_of (plain.unit unit.now) array.now.bytes }
{
    class_found(unit, array)
}

/// How many read sites an array has, an old cell of a compound assignment and an index cell being reads.
pub fn reads_of(unit: &Unit, array: &Name) -> u32
    requires { IsAcceptedSource (plain.unit unit.now) }
    ensures { result ≡ spec.number is_read (sites_of (plain.unit unit.now) array.now.bytes) }
{
    number(unit, array, Ask::Reads)
}

/// How many write sites an array has.
pub fn writes_of(unit: &Unit, array: &Name) -> u32
    requires { IsAcceptedSource (plain.unit unit.now) }
    ensures { result ≡ spec.number is_write (sites_of (plain.unit unit.now) array.now.bytes) }
{
    number(unit, array, Ask::Writes)
}
