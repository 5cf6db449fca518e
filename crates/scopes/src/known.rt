//! What each name of a unit is, found by its bytes.

ghost use Rattle.std.specs.Prelude.{◌≡◌, [], IfOk, OnOk, map, bytes_eq, if◌then◌else◌};
ghost use Rattle.c_tree.specs.Trees.{param, unit as plain_unit, word};
ghost use Rattle.scopes.specs.Known.{known_at, Knows, KnowsUnit, IsPut, IsParamPut};
ghost use Rattle.scopes.specs.Names.{lines_in, words_in};

use crate::interval::Interval;
use c_tree::{Name, OutOfMemory, Param, Unit};
use indexmap::IndexMap;
use std::alloc::Global;

/// What a name is. It may be several of these, in a unit that is refused for that.
#[derive(Clone, Copy)]
pub struct Known {
    /// An `int64_t` parameter.
    pub int: bool,
    /// An array.
    pub array: bool,
    /// A `const` array.
    pub constant: bool,
    /// A word.
    pub scalar: bool,
    /// A wide word.
    pub wide: bool,
    /// How many extents the first array of the name has.
    pub extents: usize,
    /// The interval of the first range line of the name.
    pub range: Interval,
}

/// What each name is.
pub type Table<'a> = IndexMap<&'a [u8], Known>;

const NOTHING: Known = Known {
    int: false,
    array: false,
    constant: false,
    scalar: false,
    wide: false,
    extents: 0,
    range: Interval {
        least: 0,
        greatest: 0,
    },
};

/// What this name is.
pub fn find(table: &Table<'_>, name: &Name) -> Known
    ensures { result ≡ known_at table.now.entries name.now.bytes }
{
    match table.get(name.bytes.as_slice()) {
        Some(known) => *known,
        None => NOTHING,
    }
}

fn put<'a>(table: &mut Table<'a>, name: &'a Name, known: Known) -> Result<(), OutOfMemory>
    ensures { OnOk result (IsPut table.old.entries table.new.entries name.now.bytes known) }
{
    table.insert(name.bytes.as_slice(), known)?;
    Ok(())
}

fn put_param<'a>(table: &mut Table<'a>, p: &'a Param) -> Result<(), OutOfMemory>
    ensures { OnOk result (IsParamPut table.old.entries table.new.entries (param p.now)) }
{
    match p {
        Param::Int(name) => {
            let mut known = find(table, name);
            known.int = true;
            put(table, name, known)
        }
        Param::Array {
            name,
            constant,
            extents,
        } => {
            let mut known = find(table, name);
            known.array = true;
            known.constant = *constant | known.constant;
            known.extents = extents.len();
            put(table, name, known)
        }
    }
}

// From the last to the first, so that what is put last is of the first.
fn put_params<'a>(table: &mut Table<'a>, unit: &'a Unit) -> Result<(), OutOfMemory>
    requires { Knows table.old.entries [] [] [] [] }
    ensures { OnOk result (Knows table.new.entries (map param unit.now.params) [] [] []) }
{
    let params = unit.params.as_slice();
    let mut left = params.len();
    while left > 0 {
        left -= 1;
        put_param(table, &params[left])?;
    }
    Ok(())
}

fn put_words<'a>(table: &mut Table<'a>, unit: &'a Unit) -> Result<(), OutOfMemory>
    requires { Knows table.old.entries (map param unit.now.params) [] [] [] }
    ensures { OnOk result (Knows table.new.entries (map param unit.now.params) (words_in unit.now.words) [] []) }
{
    let words = unit.words.as_slice();
    let mut left = words.len();
    while left > 0 {
        left -= 1;
        let name = &words[left].0;
        let mut known = find(table, name);
        known.scalar = true;
        put(table, name, known)?;
    }
    Ok(())
}

fn put_wides<'a>(table: &mut Table<'a>, unit: &'a Unit) -> Result<(), OutOfMemory>
    requires { Knows table.old.entries (map param unit.now.params) (words_in unit.now.words) [] [] }
    ensures { OnOk result (Knows table.new.entries (map param unit.now.params) (words_in unit.now.words) (map word unit.now.wides) []) }
{
    let wides = unit.wides.as_slice();
    let mut left = wides.len();
    while left > 0 {
        left -= 1;
        let name = &wides[left];
        let mut known = find(table, name);
        known.wide = true;
        put(table, name, known)?;
    }
    Ok(())
}

fn put_ranges<'a>(table: &mut Table<'a>, unit: &'a Unit) -> Result<(), OutOfMemory>
    requires { Knows table.old.entries (map param unit.now.params) (words_in unit.now.words) (map word unit.now.wides) [] }
    ensures { OnOk result (KnowsUnit table.new.entries (plain_unit unit.now)) }
{
    let lines = unit.ranges.as_slice();
    let mut left = lines.len();
    while left > 0 {
        left -= 1;
        let (name, least, greatest) = &lines[left];
        let mut known = find(table, name);
        known.range = Interval {
            least: *least,
            greatest: *greatest,
        };
        put(table, name, known)?;
    }
    Ok(())
}

/// What each name of the unit is.
pub fn table_of<'a>(alloc: Global, unit: &'a Unit) -> Result<Table<'a>, OutOfMemory>
    ensures { IfOk result (λ table. KnowsUnit table.entries (plain_unit unit.now)) }
{
    let mut table = IndexMap::new(alloc);
    put_params(&mut table, unit)?;
    put_words(&mut table, unit)?;
    put_wides(&mut table, unit)?;
    put_ranges(&mut table, unit)?;
    Ok(table)
}
