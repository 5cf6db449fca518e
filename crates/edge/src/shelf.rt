// A shelf: files by their names.
ghost use Rattle.std.specs.Prelude.{◌≡◌};
ghost use Rattle.edge.specs.declared.shelf.ShelfFault.TheVariants.{OutOfMemory};
ghost use Rattle.edge.specs.Shelf.{Told, Loads};

use crate::ByteList;
use std::alloc::Global;

/// What a load gives: the bytes of the file, or that there are more of them than the limit.
#[derive(Debug, Drop)]
pub enum Loaded {
    Bytes(ByteList),
    TooLong,
}

/// Why a load gives nothing: the file can't be read, or memory is wanting.
#[derive(Clone, Copy, Debug, PartialEq, Eq)]
pub enum ShelfFault {
    Failed,
    OutOfMemory,
}

impl From<crate::OutOfMemory> for ShelfFault {
    ghost from_gives = { λ _ fault. fault ≡ OutOfMemory };

    fn from(_: crate::OutOfMemory) -> Self {
        ShelfFault::OutOfMemory
    }
}

/// Files by their names, the names asked so far, and a count of faults that never falls.
pub trait Shelf {
    /// What the shelf tells: its files and the names asked, or None of either, and the count.
    ghost told: { Self → Told };

    /// Loads the file with this name, of at most `limit` bytes.
    fn load(&mut self, alloc: Global, name: &str, limit: usize) -> Result<Loaded, ShelfFault>
        ensures { Loads (told self.old) (told self.new) name.now limit result };
}
