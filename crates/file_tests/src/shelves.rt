//! Shelves, of files and in memory, and the lists that they are made of.

use crate::counted_files::CountedFiles;
use edge::{
    AskedList, BoundedBytes, ByteList, FileList, FileShelf, Loaded, MemShelf, NamedFile, Numbers,
    OutOfMemory, Shelf, ShelfFault,
};
use std::alloc::{AllocError, Global};
use std::cell::Cell;
use std::fs;
use std::test::Fail;

const PATH: &str = "file_tests_file";

/// Bytes that differ from their neighbours.
fn varied(alloc: Global, count: usize) -> Result<Vec<u8>, AllocError> {
    let mut bytes = Vec::new(alloc);
    for k in 0..count {
        bytes.push((k % 251) as u8)?;
    }
    Ok(bytes)
}

/// The bytes, or None where there are more than the limit.
fn bytes_of(loaded: &Loaded) -> Option<&[u8]> {
    match loaded {
        Loaded::Bytes(bytes) => Some(bytes.as_slice()),
        Loaded::TooLong => None,
    }
}

#[test]
fn loads_a_file_within_its_limit(rt: HostRuntime) -> Result<(), Fail> {
    let alloc = rt.alloc();
    let bytes = varied(alloc, 10_000)?;
    fs::write(&rt, PATH, bytes.as_slice())?;
    let mut shelf = FileShelf::new(&rt);
    for (limit, loads) in [
        (10_000, true),
        (usize::MAX, true),
        (9_999, false),
        (0, false),
    ] {
        let loaded = shelf.load(alloc, PATH, limit)?;
        let wanted = loads.then_some(bytes.as_slice());
        assert_eq!(rt; bytes_of(&loaded), wanted, "at {limit}");
    }
    assert_eq!(rt; shelf.faults, 0);
    fs::remove_file(&rt, PATH)?;
    for (index, name) in [PATH, ".", "no\0name", ""].iter().enumerate() {
        let refused = shelf.load(alloc, name, 9).err();
        assert_eq!(rt; refused, Some(ShelfFault::Failed));
        assert_eq!(rt; shelf.faults, index as u64 + 1);
    }
    Ok(())
}

#[test]
fn reads_one_byte_past_the_limit_at_most(rt: HostRuntime) -> Result<(), Fail> {
    let bytes = varied(rt.alloc(), 10_000)?;
    for most in [1, 4096, usize::MAX] {
        for limit in [0, 1, 3, 4095, 4096, 4097, 9_999, 10_000, 10_001] {
            let (read, others) = (Cell::new(0), Cell::new(0));
            let mut shelf = FileShelf::new(CountedFiles {
                bytes: bytes.as_slice(),
                most,
                read: &read,
                others: &others,
            });
            let loaded = shelf.load(rt.alloc(), PATH, limit)?;
            let wanted = (limit >= 10_000).then_some(bytes.as_slice());
            assert_eq!(rt; bytes_of(&loaded), wanted, "at {limit}");
            assert!(rt; read.get() <= limit.saturating_add(1), "at {limit}");
            assert_eq!(rt; others.get(), 0, "at {limit}");
        }
    }
    Ok(())
}

#[test]
fn answers_by_the_list_and_the_numbers(rt: HostRuntime) -> Result<(), Fail> {
    let alloc = rt.alloc();
    let mut files = FileList::new(alloc);
    for bytes in [b"xyz", b"uvw"] {
        let name = String::from_str(alloc, "a")?;
        files.push(NamedFile::new(name, ByteList::copy_of(alloc, bytes)?))?;
    }
    let mut failing = Numbers::new(alloc);
    failing.push(2)?;
    let mut shelf = MemShelf::new(alloc, files, failing);
    let first = shelf.load(alloc, "a", 3)?;
    assert_eq!(rt; bytes_of(&first), Some(b"xyz".as_slice()));
    assert_eq!(rt; shelf.load(alloc, "a", 3).err(), Some(ShelfFault::Failed));
    let third = shelf.load(alloc, "a", 2)?;
    assert_eq!(rt; bytes_of(&third), None);
    assert_eq!(rt; shelf.load(alloc, "b", 2).err(), Some(ShelfFault::Failed));
    assert_eq!(rt; (shelf.faults, shelf.asked.len()), (2, 4));
    assert_eq!(rt; shelf.asked.get(3), Some(b"b".as_slice()));
    Ok(())
}

#[test]
fn lists_give_what_they_were_given(rt: HostRuntime) -> Result<(), Fail> {
    let alloc = rt.alloc();
    let bytes = ByteList::new(vec![in alloc; 1, 2]?);
    assert_eq!(rt; bytes.into_vec().as_slice(), [1, 2].as_slice());
    let mut bounded = BoundedBytes::with_room(alloc, 3)?;
    bounded.append(b"ab");
    assert_eq!(rt; bounded.as_slice(), b"ab".as_slice());
    assert_eq!(rt; bounded.left(), 1);
    let mut asked = AskedList::new(alloc);
    assert!(rt; asked.is_empty());
    asked.push(alloc, "a")?;
    assert_eq!(rt; asked.get(0), Some(b"a".as_slice()));
    assert_eq!(rt; asked.get(1), None);
    assert_eq!(rt; (asked.len(), asked.next_number()), (1, 2));
    Ok(())
}
