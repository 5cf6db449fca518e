// A shelf in memory, which tells everything.
ghost use Rattle.std.specs.Prelude.{◌≡◌, [], IfOk};
ghost use Rattle.edge.specs.Shelf.{Loads, loaded_of};

use crate::{AskedList, ByteList, FileList, Loaded, Numbers, OutOfMemory, Shelf, ShelfFault};
use std::alloc::Global;

/// Files in memory. The loads whose numbers, from 1, stand in `failing` fail, as do those of a name
/// that no file has. A load that finds no memory leaves its number to the next.
#[derive(Debug, Drop)]
pub struct MemShelf {
    pub files: FileList,
    pub failing: Numbers,
    pub faults: u64,
    pub asked: AskedList,
}

impl MemShelf {
    /// No name asked and no fault yet. Takes no memory.
    pub fn new(alloc: Global, files: FileList, failing: Numbers) -> Self
        ensures files { result.files ≡ files }
        ensures failing { result.failing ≡ failing }
        ensures faults { result.faults ≡ 0 }
        ensures asked { result.asked ≡ [] }
    {
        MemShelf {
            files,
            failing,
            faults: 0,
            asked: AskedList::new(alloc),
        }
    }
}

// A copy of the bytes, unless there are too many.
fn copied(alloc: Global, bytes: &[u8], limit: usize) -> Result<Loaded, OutOfMemory>
    ensures { IfOk result (λ loaded. loaded ≡ loaded_of limit bytes.now) }
{
    if bytes.len() > limit {
        return Ok(Loaded::TooLong);
    }
    Ok(Loaded::Bytes(ByteList::copy_of(alloc, bytes)?))
}

impl MemShelf {
    ghost use Rattle.edge.specs.MemShelf.{load_answer};

    // What the next load answers, or None where it fails.
    fn answer(&self, alloc: Global, name: &str, limit: usize) -> Result<Option<Loaded>, OutOfMemory>
        ensures { IfOk result (λ answer. answer ≡ load_answer self.now name.now limit) }
    {
        if self.failing.contains(self.asked.next_number()) {
            return Ok(None);
        }
        match self.files.find(name) {
            Some(bytes) => Ok(Some(copied(alloc, bytes, limit)?)),
            None => Ok(None),
        }
    }
}

impl Shelf for MemShelf {
    ghost use Rattle.edge.specs.MemShelf.{shelf_told, load_answer, IsAnswer};

    ghost told = { shelf_told };

    fn load(&mut self, alloc: Global, name: &str, limit: usize) -> Result<Loaded, ShelfFault>
        ensures loads { Loads (shelf_told self.old) (shelf_told self.new) name.now limit result }
        ensures failing { self.new.failing ≡ self.old.failing }
        ensures answer { IsAnswer (load_answer self.old name.now limit) result }
    {
        let answer = self.answer(alloc, name, limit)?;
        self.asked.push(alloc, name)?;
        match answer {
            Some(loaded) => Ok(loaded),
            None => {
                self.faults = self.faults.saturating_add(1);
                Err(ShelfFault::Failed)
            }
        }
    }
}
