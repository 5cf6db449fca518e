//! Sets of names.

ghost use Rattle.std.specs.Prelude.{◌≡◌, ◌∷◌, [], OnOk};
ghost use Rattle.c_tree.specs.Names.{is_among};
ghost use Rattle.scopes.specs.Intervals.{reversed};

use c_tree::{Name, OutOfMemory};
use indexmap::IndexSet;
use sqlite_items::Items;
use std::alloc::Global;
use std::marker::Model;

/// Names, by which one is found.
#[derive(Drop)]
pub struct NameSet<'a> {
    names: Items<&'a Name>,
    bytes: IndexSet<&'a [u8]>,
}

/// As contracts see it, the names, the last first.
impl<'a> Model for NameSet<'a> {
    ghost use Rattle.std.specs.Prelude.{List};
    ghost use Rattle.c_tree.specs.Plain.{Word};
    ghost use Rattle.scopes.specs.Intervals.{reversed};
    ghost use Rattle.scopes.specs.Names.{HasSameNames};

    ghost Value = { List Word };

    ghost view = { λ t. reversed t.names };

    ghost invariant = { λ t. HasSameNames t.bytes.keys t.names };
}

impl<'a> NameSet<'a> {
    /// None.
    pub fn new(alloc: Global) -> NameSet<'a>
        ensures { result ≡ [] }
    {
        NameSet {
            names: Items::new(alloc),
            bytes: IndexSet::new(alloc),
        }
    }

    /// One more.
    pub fn add(&mut self, name: &'a Name) -> Result<(), OutOfMemory>
        ensures { OnOk result (self.new ≡ name.now.bytes ∷ self.old) }
    {
        self.bytes.reserve(1)?;
        self.names.push(name)?;
        self.bytes.insert(name.bytes.as_slice())?;
        Ok(())
    }

    /// Whether one of them has this name.
    pub fn contains(&self, name: &Name) -> bool
        ensures { result ≡ is_among self.now name.now.bytes }
    {
        self.bytes.contains(name.bytes.as_slice())
    }
}
