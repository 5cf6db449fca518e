// The files of the system. What they hold isn't told.
ghost use Rattle.std.specs.Prelude.{◌≡◌, ℕ, ◌+◌, ◌≤◌, List, length, None, IfOk, IfSome};
ghost use Rattle.std.specs.Io.KnownBytes.{Consumes};
ghost use Rattle.edge.specs.Shelf.{FitsLimit, loaded_of};

use crate::{ByteList, Loaded, Shelf, ShelfFault};
use std::alloc::Global;
use std::fs;
use std::io::Read;
use std::rt::Files;

/// Loads files of the system by their paths, and counts its errors.
#[derive(Drop)]
pub struct FileShelf<R: Files> {
    files: R,
    pub faults: u64,
}

impl<R: Files> FileShelf<R> {
    /// No fault yet. `files` is the runtime, or a stand-in for it.
    pub fn new(files: R) -> Self
        ensures { result.faults ≡ 0 }
    {
        FileShelf { files, faults: 0 }
    }
}

// All that the reader has left, unless that is longer than the limit. Reads at most one byte more.
fn read_within<R: Read>(alloc: Global, reader: &mut R, limit: usize) -> Result<Loaded, ShelfFault>
    ensures within { IfOk result (FitsLimit limit) }
    ensures all { IfOk result (λ loaded. IfSome (R.remaining reader.old) (λ bytes. loaded ≡ loaded_of limit bytes)) }
    ensures reads { (read : List ℕ) × (length read ≤ limit + 1)
        × Consumes (R.remaining reader.old) (R.remaining reader.new) read }
{
    let mut bytes = Vec::new(alloc);
    let mut piece = [0u8; 4096];
    loop {
        let room = limit - bytes.len();
        let wanted = room.saturating_add(1).min(piece.len());
        let Ok(count) = reader.read(&mut piece[..wanted]) else {
            return Err(ShelfFault::Failed);
        };
        if count == 0 {
            return Ok(Loaded::Bytes(ByteList::new(bytes)));
        }
        if count > room {
            return Ok(Loaded::TooLong);
        }
        if bytes.extend_from_slice(&piece[..count]).is_err() {
            return Err(ShelfFault::OutOfMemory);
        }
    }
}

impl<R: Files> FileShelf<R> {
    fn read_file(&self, alloc: Global, name: &str, limit: usize) -> Result<Loaded, ShelfFault>
        ensures { IfOk result (FitsLimit limit) }
    {
        match fs::open(&self.files, name) {
            Ok(mut file) => read_within(alloc, &mut file, limit),
            Err(_) => Err(ShelfFault::Failed),
        }
    }
}

impl<R: Files> Shelf for FileShelf<R> {
    ghost told = { λ s. record { files = None; asked = None; faults = s.faults } };

    fn load(&mut self, alloc: Global, name: &str, limit: usize) -> Result<Loaded, ShelfFault> {
        match self.read_file(alloc, name, limit) {
            Err(ShelfFault::Failed) => {
                self.faults = self.faults.saturating_add(1);
                Err(ShelfFault::Failed)
            }
            answer => answer,
        }
    }
}
