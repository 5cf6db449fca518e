//! The tables of a run.

ghost use Rattle.std.specs.Prelude.{◌≡◌, [], IfOk, OnOk, replicate, slice_set, slice_index};
ghost use Rattle.interp.specs.Tables.{table_at, with_entry_of};

use c_tree::OutOfMemory;
use std::alloc::Global;
use std::marker::Model;

/// Tables of words, by their slots. One that isn't made yet has no entries.
#[derive(Drop)]
pub struct Tables {
    tables: Vec<Vec<u64>>,
}

impl Model for Tables {
    ghost use Rattle.std.specs.Prelude.{List, ℕ, map};

    ghost Value = { List (List ℕ) };

    ghost view = { λ all. map (λ t. t.items) all.tables.items };
}

impl Tables {
    /// So many tables, none of them made.
    pub fn new(alloc: Global, count: usize) -> Result<Tables, OutOfMemory>
        ensures { IfOk result (λ all. all ≡ replicate count []) }
    {
        let mut tables = Vec::new(alloc);
        for _ in 0..count {
            tables.push(Vec::new(alloc))?;
        }
        Ok(Tables { tables })
    }

    /// An entry of a table, and 0 past its length.
    pub fn entry(&self, table: usize, at: u64) -> u64
        ensures { result ≡ slice_index (table_at self.now table) at }
    {
        match self.tables.get(table) {
            Some(entries) => entries.get(at as usize).copied().unwrap_or(0),
            None => 0,
        }
    }

    /// Sets an entry of a table. Past its length nothing changes.
    pub fn set_entry(&mut self, table: usize, at: u64, n: u64)
        ensures { self.new ≡ with_entry_of table at n self.old }
    {
        let at = at as usize;
        if table < self.tables.len() && at < self.tables[table].len() {
            self.tables[table][at] = n;
        }
    }

    /// Makes a table of so many zeros.
    pub fn make(&mut self, alloc: Global, table: usize, length: u64) -> Result<(), OutOfMemory>
        ensures { OnOk result (self.new ≡ slice_set self.old table (replicate length 0)) }
    {
        let entries = vec![in alloc; 0; length as usize]?;
        if table < self.tables.len() {
            self.tables[table] = entries;
        }
        Ok(())
    }
}
