//! The ranges of the `int64_t` parameters.

ghost use Rattle.std.specs.Prelude.{◌≡◌, IfOk, map};
ghost use Rattle.c_tree.specs.Trees.{word};
ghost use Rattle.frames.specs.Built.{ends_in, line, with_ends};

use c_tree::{Name, OutOfMemory, Ranges};
use sqlite_items::Items;
use std::alloc::Global;

/// The ends of the first range line of a name, and 0 where it has none.
fn ends_of(lines: &[(Name, i64, i64)], name: &Name) -> (i64, i64)
    ensures { result ≡ ends_in (map line lines.now) (word name.now) }
{
    for (other, least, greatest) in lines {
        if other.same(name) {
            return (*least, *greatest);
        }
    }
    (0, 0)
}

/// The names with the ends of their range lines.
pub fn ints_of(
    alloc: Global,
    lines: &[(Name, i64, i64)],
    names: &[Name],
) -> Result<Ranges, OutOfMemory>
    ensures { IfOk result (λ ints. ints ≡ map (with_ends (map line lines.now)) names.now) }
{
    let mut ints = Items::new(alloc);
    for name in names {
        let (least, greatest) = ends_of(lines, name);
        ints.push((name.copy(alloc)?, least, greatest))?;
    }
    Ok(ints)
}
