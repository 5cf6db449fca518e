//! What is asked of the accesses of an array.

ghost use Rattle.std.specs.Prelude.{◌≡◌, map};
ghost use Rattle.c_tree.specs.Names.{ints_in};
ghost use Rattle.c_tree.specs.Trees.{exprs, param};
ghost use Rattle.sites.specs.Found.{bit};
ghost use Rattle.sites.specs.Shown.{asks, frames_in, meets};

use crate::frames::Frames;
use crate::good::{has_cell, is_good};
use crate::occurs::occurs;
use c_tree::{Exprs, Name, Unit};

/// A test of an access.
#[derive(Clone, Copy)]
pub enum Ask<'a> {
    /// It reads.
    Reads,
    /// It writes.
    Writes,
    /// It reads, and a subscript is a cell.
    Irregular,
    /// Something around it keeps its array from being one of differences.
    Bad,
    /// The parameter of this name occurs around it.
    Naming(&'a Name),
}

/// A test of the accesses of an array.
#[derive(Clone, Copy)]
pub struct Question<'a> {
    pub unit: &'a Unit,
    pub array: &'a Name,
    pub ask: Ask<'a>,
}

fn holds(q: &Question<'_>, frames: &Frames<'_>, at: &Exprs, writes: bool) -> bool
    ensures { result ≡ asks q.now.ask (ints_in (map param q.now.unit.now.params)) (frames_in frames.now) (exprs at.now) writes }
{
    match q.ask {
        Ask::Reads => !writes,
        Ask::Writes => writes,
        Ask::Irregular => !writes && has_cell(at),
        Ask::Bad => !is_good(q.unit, frames, at),
        Ask::Naming(x) => occurs(x, frames, at),
    }
}

/// 1 where the access meets the test.
pub fn met(q: &Question<'_>, frames: &Frames<'_>, x: &Name, at: &Exprs, writes: bool) -> u32
    ensures { result ≡ bit (meets q.now (frames_in frames.now) (record { name = x.now.bytes; at = exprs at.now; writes = writes })) }
{
    if q.array.same(x) && holds(q, frames, at, writes) {
        1
    } else {
        0
    }
}
