//! Units: a whole source or printed text.

ghost use Rattle.std.specs.Prelude.{◌≡◌, IfOk, map};
ghost use Rattle.c_tree.specs.Names.{arrays_in, ints_in, words};
ghost use Rattle.c_tree.specs.Trees.{param, unit};

use crate::copied::Copied;
use crate::expr::Exprs;
use crate::memory::OutOfMemory;
use crate::name::{Name, NameList};
use crate::stmt::Stmts;
use sqlite_items::Items;
use std::alloc::Global;

#[derive(Drop)]
pub enum Param {
    /// An `int64_t` parameter.
    Int(Name),
    /// An array of `uint64_t`, or of `const uint64_t` where it is constant.
    Array {
        name: Name,
        constant: bool,
        extents: Exprs,
    },
}

/// Range lines: a parameter, its least and its greatest value.
pub type Ranges = Items<(Name, i64, i64)>;

pub type Params = Items<Param>;

/// Declared words, each with its first value.
pub type Words = Items<(Name, u64)>;

#[derive(Drop)]
pub struct Unit {
    /// The version of a printed text; a source has none.
    pub version: Option<u8>,
    pub ranges: Ranges,
    pub name: Name,
    pub params: Params,
    /// The declared words of 64 bits.
    pub words: Words,
    /// The declared words of 128 bits of a printed text.
    pub wides: NameList,
    pub body: Stmts,
}

impl Param {
    /// The same plain tree.
    pub fn copy(&self, alloc: Global) -> Result<Param, OutOfMemory>
        ensures { IfOk result (λ copied. param copied ≡ param self.now) }
    {
        Ok(match self {
            Param::Int(name) => Param::Int(name.copy(alloc)?),
            Param::Array {
                name,
                constant,
                extents,
            } => Param::Array {
                name: name.copy(alloc)?,
                constant: *constant,
                extents: extents.copy(alloc)?,
            },
        })
    }
}

/// The names of the `int64_t` parameters, in declared order.
pub fn int_names(alloc: Global, params: &[Param]) -> Result<NameList, OutOfMemory>
    ensures { IfOk result (λ names. words names ≡ ints_in (map param params.now)) }
{
    let mut names = Items::new(alloc);
    for p in params {
        if let Param::Int(name) = p {
            names.push(name.copy(alloc)?)?;
        }
    }
    Ok(names)
}

/// The names of the arrays, in declared order.
pub fn array_names(alloc: Global, params: &[Param]) -> Result<NameList, OutOfMemory>
    ensures { IfOk result (λ names. words names ≡ arrays_in (map param params.now)) }
{
    let mut names = Items::new(alloc);
    for p in params {
        if let Param::Array { name, .. } = p {
            names.push(name.copy(alloc)?)?;
        }
    }
    Ok(names)
}

/// The same plain trees.
impl Copied for Items<Param> {
    ghost same = { λ copied list. map param copied ≡ map param list };

    fn copy(&self, alloc: Global) -> Result<Params, OutOfMemory> {
        let mut copies = Items::new(alloc);
        for p in self.as_slice() {
            copies.push(p.copy(alloc)?)?;
        }
        Ok(copies)
    }
}

/// The same lines.
impl Copied for Items<(Name, i64, i64)> {
    ghost same = { λ copied lines. copied ≡ lines };

    fn copy(&self, alloc: Global) -> Result<Ranges, OutOfMemory> {
        let mut copies = Items::new(alloc);
        for (name, least, greatest) in self.as_slice() {
            copies.push((name.copy(alloc)?, *least, *greatest))?;
        }
        Ok(copies)
    }
}

/// The same declarations.
impl Copied for Items<(Name, u64)> {
    ghost same = { λ copied words. copied ≡ words };

    fn copy(&self, alloc: Global) -> Result<Words, OutOfMemory> {
        let mut copies = Items::new(alloc);
        for (name, value) in self.as_slice() {
            copies.push((name.copy(alloc)?, *value))?;
        }
        Ok(copies)
    }
}

impl Unit {
    /// The same plain tree.
    pub fn copy(&self, alloc: Global) -> Result<Unit, OutOfMemory>
        ensures { IfOk result (λ copied. unit copied ≡ unit self.now) }
    {
        Ok(Unit {
            version: self.version,
            ranges: self.ranges.copy(alloc)?,
            name: self.name.copy(alloc)?,
            params: self.params.copy(alloc)?,
            words: self.words.copy(alloc)?,
            wides: self.wides.copy(alloc)?,
            body: self.body.copy(alloc)?,
        })
    }
}
