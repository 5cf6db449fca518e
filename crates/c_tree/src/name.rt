//! Names.

ghost use Rattle.std.specs.Prelude.{◌≡◌, IfOk, bytes_eq};

use crate::copied::Copied;
use crate::memory::OutOfMemory;
use sqlite_items::Items;
use std::alloc::Global;

/// The bytes of a word.
#[derive(Drop)]
pub struct Name {
    pub bytes: Items<u8>,
}

pub type NameList = Items<Name>;

impl Name {
    /// The same bytes.
    pub fn copy(&self, alloc: Global) -> Result<Name, OutOfMemory>
        ensures { IfOk result (λ copied. copied ≡ self.now) }
    {
        Ok(Name {
            bytes: Items::from_slice(alloc, self.bytes.as_slice())?,
        })
    }

    /// Whether both have the same bytes.
    pub fn same(&self, other: &Name) -> bool
        ensures { result ≡ bytes_eq self.now.bytes other.now.bytes }
    {
        self.bytes.as_slice() == other.bytes.as_slice()
    }
}

/// The same names.
impl Copied for Items<Name> {
    ghost same = { λ copied names. copied ≡ names };

    fn copy(&self, alloc: Global) -> Result<Items<Name>, OutOfMemory> {
        let mut copies = Items::new(alloc);
        for name in self.as_slice() {
            copies.push(name.copy(alloc)?)?;
        }
        Ok(copies)
    }
}
