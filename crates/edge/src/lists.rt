// Collections of files, names, numbers and bytes, each of which a contract sees as a list.
ghost use Rattle.std.specs.Prelude.{◌≡◌, ℕ, ◌+◌, ◌-◌, ◌≤◌, ◌↔◌, List, [], ◌∷◌, ◌++◌, length, option_map, slice_get, vec_len, vec_capacity, IfOk, OnOk, OnErr, IsTrue};
ghost use Rattle.edge.specs.BoundedBytes.{Bounded};
ghost use Rattle.edge.specs.Files.{file_of, has_number};

use std::alloc::{AllocError, AllocFailed, Global};
use std::marker::Model;

/// The one error of a call that fails only where memory is wanting.
#[derive(Clone, Copy, Debug, PartialEq, Eq)]
pub struct OutOfMemory;

impl From<AllocError> for OutOfMemory {
    fn from(_: AllocError) -> Self {
        OutOfMemory
    }
}

impl<T: Drop> From<AllocFailed<T>> for OutOfMemory {
    fn from(_: AllocFailed<T>) -> Self {
        OutOfMemory
    }
}

/// Bytes on the heap. A contract sees the list.
#[derive(Debug, Drop)]
pub struct ByteList {
    bytes: Vec<u8>,
}

impl Model for ByteList {
    ghost Value = { List ℕ };

    ghost view = { λ b. b.bytes.items };
}

impl ByteList {
    /// The bytes of a vector. Takes no memory.
    pub fn new(bytes: Vec<u8>) -> Self
        ensures { result ≡ bytes.items }
    {
        ByteList { bytes }
    }

    /// A copy of the bytes, or `OutOfMemory`.
    pub fn copy_of(alloc: Global, bytes: &[u8]) -> Result<Self, OutOfMemory>
        ensures { IfOk result (λ list. list ≡ bytes.now) }
    {
        Ok(ByteList {
            bytes: Vec::from_slice(alloc, bytes)?,
        })
    }

    pub fn as_slice(&self) -> &[u8]
        ensures { result.now ≡ self.now }
    {
        self.bytes.as_slice()
    }

    /// The bytes as a vector. Takes no memory.
    pub fn into_vec(self) -> Vec<u8>
        ensures { result.items ≡ self }
    {
        self.bytes
    }
}

/// Bytes in memory that was taken beforehand. A contract sees their list, and the room: how many
/// there may be.
#[derive(Debug, Drop)]
pub struct BoundedBytes {
    bytes: Vec<u8>,
    room: usize,
}

impl Model for BoundedBytes {
    ghost Value = { Bounded };

    ghost view = { λ b. record { items = b.bytes.items; room = b.room } };

    ghost invariant = { λ b. (vec_len b.bytes ≤ b.room) × (b.room ≤ vec_capacity b.bytes) };
}

impl BoundedBytes {
    /// No bytes, and the memory for `room` of them, or `OutOfMemory`.
    pub fn with_room(alloc: Global, room: usize) -> Result<Self, OutOfMemory>
        ensures items { IfOk result (λ bounded. bounded.items ≡ []) }
        ensures room { IfOk result (λ bounded. bounded.room ≡ room) }
    {
        Ok(BoundedBytes {
            bytes: Vec::with_capacity(alloc, room)?,
            room,
        })
    }

    pub fn as_slice(&self) -> &[u8]
        ensures { result.now ≡ self.now.items }
    {
        self.bytes.as_slice()
    }

    /// How many bytes there is still room for.
    pub fn left(&self) -> usize
        ensures left { result ≡ self.now.room - length self.now.items }
        ensures within { length self.now.items ≤ self.now.room }
    {
        self.room - self.bytes.len()
    }

    /// Adds the piece at the end. Takes no memory.
    pub fn append(&mut self, piece: &[u8])
        requires { length self.old.items + length piece.now ≤ self.old.room }
        ensures items { self.new.items ≡ self.old.items ++ piece.now }
        ensures room { self.new.room ≡ self.old.room }
    {
        self.bytes.extend_from_slice(piece).unwrap();
    }
}

/// A file on a shelf in memory. A contract sees the pair of its name and its bytes.
#[derive(Debug, Drop)]
pub struct NamedFile {
    name: String,
    bytes: ByteList,
}

impl Model for NamedFile {
    ghost use Rattle.std.specs.Prelude.{ℕ, List, string_bytes};

    ghost Value = { List ℕ × List ℕ };

    ghost view = { λ file. (string_bytes file.name, file.bytes) };
}

impl NamedFile {
    ghost use Rattle.std.specs.Prelude.{string_bytes};

    pub fn new(name: String, bytes: ByteList) -> Self
        ensures { result ≡ (string_bytes name, bytes) }
    {
        NamedFile { name, bytes }
    }

    pub fn name(&self) -> &str
        ensures { result.now ≡ self.now.0 }
    {
        self.name.as_str()
    }

    pub fn bytes(&self) -> &[u8]
        ensures { result.now ≡ self.now.1 }
    {
        self.bytes.as_slice()
    }
}

/// Named files, in order. A contract sees the list.
#[derive(Debug, Drop)]
pub struct FileList {
    files: Vec<NamedFile>,
}

impl Model for FileList {
    ghost Value = { List (List ℕ × List ℕ) };

    ghost view = { λ list. list.files.items };
}

impl FileList {
    pub fn new(alloc: Global) -> Self
        ensures { result ≡ [] }
    {
        FileList {
            files: Vec::new(alloc),
        }
    }

    /// Adds a file at the end. On `OutOfMemory` the file is dropped.
    pub fn push(&mut self, file: NamedFile) -> Result<(), OutOfMemory>
        ensures ok { OnOk result (self.new ≡ self.old ++ file ∷ []) }
        ensures err { OnErr result (self.new ≡ self.old) }
    {
        self.files.push(file)?;
        Ok(())
    }

    /// The bytes of the first file with this name, if there is one.
    pub fn find(&self, name: &str) -> Option<&[u8]>
        ensures { option_map (λ bytes. bytes.now) result ≡ file_of self.now name.now }
    {
        self.files
            .iter()
            .find(|file| file.name() == name)
            .map(|file| file.bytes())
    }
}

/// Numbers, in order. A contract sees the list.
#[derive(Debug, Drop)]
pub struct Numbers {
    numbers: Vec<u64>,
}

impl Model for Numbers {
    ghost Value = { List ℕ };

    ghost view = { λ list. list.numbers.items };
}

impl Numbers {
    pub fn new(alloc: Global) -> Self
        ensures { result ≡ [] }
    {
        Numbers {
            numbers: Vec::new(alloc),
        }
    }

    /// Adds a number at the end, or answers `OutOfMemory`.
    pub fn push(&mut self, number: u64) -> Result<(), OutOfMemory>
        ensures ok { OnOk result (self.new ≡ self.old ++ number ∷ []) }
        ensures err { OnErr result (self.new ≡ self.old) }
    {
        self.numbers.push(number)?;
        Ok(())
    }

    pub fn contains(&self, number: u64) -> bool
        ensures { result ≡ has_number self.now number }
    {
        self.numbers.contains(&number)
    }
}

/// The names that a shelf was asked for, in order. A contract sees the list of their bytes.
#[derive(Debug, Drop)]
pub struct AskedList {
    names: Vec<ByteList>,
}

impl Model for AskedList {
    ghost Value = { List (List ℕ) };

    ghost view = { λ list. list.names.items };
}

impl AskedList {
    pub fn new(alloc: Global) -> Self
        ensures { result ≡ [] }
    {
        AskedList {
            names: Vec::new(alloc),
        }
    }

    pub fn len(&self) -> usize
        ensures { result ≡ length self.now }
    {
        self.names.len()
    }

    pub fn is_empty(&self) -> bool
        ensures { IsTrue result ↔ (self.now ≡ []) }
    {
        self.names.is_empty()
    }

    /// The name at this index, from 0.
    pub fn get(&self, index: usize) -> Option<&[u8]>
        ensures { option_map (λ name. name.now) result ≡ slice_get self.now index }
    {
        self.names.get(index).map(|name| name.as_slice())
    }

    /// The number that the next name will have, from 1.
    pub fn next_number(&self) -> u64
        ensures { result ≡ length self.now + 1 }
    {
        self.names.len() as u64 + 1
    }

    /// Adds a copy of the name at the end, or answers `OutOfMemory`.
    pub fn push(&mut self, alloc: Global, name: &str) -> Result<(), OutOfMemory>
        ensures ok { OnOk result (self.new ≡ self.old ++ name.now ∷ []) }
        ensures err { OnErr result (self.new ≡ self.old) }
    {
        self.names.push(ByteList::copy_of(alloc, name.as_bytes())?)?;
        Ok(())
    }
}
