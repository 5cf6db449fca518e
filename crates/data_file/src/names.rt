//! The declared names, by which rows are found.

ghost use Rattle.std.specs.Prelude.{◌≡◌, ◌++◌, map, position, bytes_eq, List, ℕ, IfOk};
ghost use Rattle.data_file.specs.Conditions.{HasOwnNames, names_in};
ghost use Rattle.data_file.specs.Seen.{listed};

use c_tree::{Frame, OutOfMemory};
use indexmap::IndexSet;
use std::alloc::Global;

/// The names of the parameters and then of the arrays, in declared order.
pub fn names_of<'a>(alloc: Global, f: &'a Frame) -> Result<IndexSet<&'a [u8]>, OutOfMemory>
    requires { HasOwnNames f.now }
    ensures { IfOk result (λ names. listed names.keys ≡ names_in f.entry.now) }
{
    let mut names = IndexSet::new(alloc);
    for (name, _, _) in f.ints.as_slice() {
        names.insert(name.bytes.as_slice())?;
    }
    for array in f.arrays.as_slice() {
        names.insert(array.name.bytes.as_slice())?;
    }
    Ok(names)
}

/// The number of the name, from 0.
pub fn place_in(names: &IndexSet<&[u8]>, name: &[u8]) -> Option<usize>
    ensures { result ≡ position (bytes_eq name.now) (listed names.entry.now.keys) }
{
    names.get_index_of(name)
}
