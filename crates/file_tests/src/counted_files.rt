//! A stand-in for the files of the system, which counts the bytes that are read of them.

use std::alloc::Allocator;
use std::cell::Cell;
use std::fs::{Metadata, OpenFile, OpenOptions};
use std::io;
use std::io::{ErrorKind, Read, Seek, SeekFrom, Write};
use std::rt::Files;

/// Each name is that of a file with these bytes. A read gives at most `most` of them, and adds to
/// `read` how many it gave. A call that does more than open for reading, or read, adds to `others`.
#[derive(Drop)]
pub struct CountedFiles<'a> {
    pub bytes: &'a [u8],
    pub most: usize,
    pub read: &'a Cell<usize>,
    pub others: &'a Cell<usize>,
}

#[derive(Drop)]
pub struct CountedFile<'a> {
    rest: &'a [u8],
    most: usize,
    read: &'a Cell<usize>,
    others: &'a Cell<usize>,
}

fn add(count: &Cell<usize>, more: usize) {
    count.set(count.get().saturating_add(more));
}

fn other(others: &Cell<usize>) -> io::Error {
    add(others, 1);
    io::Error::from(ErrorKind::Unsupported)
}

impl Read for CountedFile<'_> {
    fn read(&mut self, buf: &mut [u8]) -> io::Result<usize> {
        let count = buf.len().min(self.rest.len()).min(self.most);
        let (given, rest) = self.rest.split_at(count);
        buf[..count].copy_from_slice(given);
        self.rest = rest;
        add(self.read, count);
        Ok(count)
    }
}

impl Write for CountedFile<'_> {
    fn write(&mut self, _buf: &[u8]) -> io::Result<usize> {
        Err(other(self.others))
    }

    fn flush(&mut self) -> io::Result<()> {
        Err(other(self.others))
    }
}

impl Seek for CountedFile<'_> {
    fn seek(&mut self, _to: SeekFrom) -> io::Result<u64> {
        Err(other(self.others))
    }
}

impl OpenFile for CountedFile<'_> {
    fn metadata(&self) -> io::Result<Metadata> {
        Err(other(self.others))
    }

    fn set_len(&self, _size: u64) -> io::Result<()> {
        Err(other(self.others))
    }

    fn sync_all(&self) -> io::Result<()> {
        Err(other(self.others))
    }

    fn sync_data(&self) -> io::Result<()> {
        Err(other(self.others))
    }
}

impl<'a> Files for CountedFiles<'a> {
    type File = CountedFile<'a>;

    type Dir = &'a [u8];

    fn open_file(&self, how: &OpenOptions, _path: &str) -> io::Result<CountedFile<'a>> {
        how.check()?;
        let mut unread = how.clone()?;
        if unread.read(false).check().is_ok() {
            return Err(other(self.others));
        }
        Ok(CountedFile {
            rest: self.bytes,
            most: self.most,
            read: self.read,
            others: self.others,
        })
    }

    fn open_dir(&self, _path: &str) -> io::Result<&'a [u8]> {
        Err(other(self.others))
    }

    fn metadata(&self, _path: &str) -> io::Result<Metadata> {
        Err(other(self.others))
    }

    fn symlink_metadata(&self, _path: &str) -> io::Result<Metadata> {
        Err(other(self.others))
    }

    fn copy(&self, _from: &str, _to: &str) -> io::Result<u64> {
        Err(other(self.others))
    }

    fn rename(&self, _from: &str, _to: &str) -> io::Result<()> {
        Err(other(self.others))
    }

    fn remove_file(&self, _path: &str) -> io::Result<()> {
        Err(other(self.others))
    }

    fn create_dir(&self, _path: &str) -> io::Result<()> {
        Err(other(self.others))
    }

    fn remove_dir(&self, _path: &str) -> io::Result<()> {
        Err(other(self.others))
    }

    fn remove_dir_all<B: Allocator>(&self, _alloc: B, _path: &str) -> io::Result<()> {
        Err(other(self.others))
    }
}
