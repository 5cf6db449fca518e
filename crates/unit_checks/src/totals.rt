//! The names of the totals that a verdict compares.

ghost use Rattle.std.specs.Prelude.{◌≡◌, ◌∷◌, [], ◌++◌, IfOk, OnOk, codes, map};
ghost use Rattle.c_tree.specs.Names.{words};
ghost use Rattle.c_tree.specs.Run as run;
ghost use Rattle.c_tree.specs.Trees.{param};
ghost use Rattle.acceptance.specs.Printed.{total_names_from};

use c_tree::{Name, NameList, OutOfMemory, Param};
use sqlite_items::Items;
use std::alloc::Global;

/// A name of a prefix and a number.
fn numbered(alloc: Global, prefix: &str, number: u64) -> Result<Name, OutOfMemory>
    ensures { IfOk result (λ name. name.bytes ≡ run.numbered prefix.now number) }
{
    let text = format!(in alloc; "{prefix}{number}")?;
    Ok(Name {
        bytes: Items::from_vec(text.into_bytes()),
    })
}

/// Both totals of an array.
fn add_totals(alloc: Global, names: &mut NameList, array: u64) -> Result<(), OutOfMemory>
    ensures { OnOk result (words names.new ≡ words names.old ++ run.numbered (codes "bal_def") array ∷ (run.numbered (codes "bal_use") array ∷ [])) }
{
    names.push(numbered(alloc, "bal_def", array)?)?;
    Ok(names.push(numbered(alloc, "bal_use", array)?)?)
}

/// The totals of each array, in declared order.
pub fn total_names(alloc: Global, params: &[Param]) -> Result<NameList, OutOfMemory>
    ensures { IfOk result (λ names. words names ≡ total_names_from 0 (map param params.now)) }
{
    let mut names = Items::new(alloc);
    let mut array = 0;
    for p in params {
        if let Param::Array { .. } = p {
            add_totals(alloc, &mut names, array)?;
            array += 1;
        }
    }
    Ok(names)
}
