//! The names of a head, and whether two are the same.

ghost use Rattle.std.specs.Prelude.{◌≡◌, ◌++◌, IfOk, OnOk, map};
ghost use Rattle.c_tree.specs.Trees.{param, unit as plain_unit, word};
ghost use Rattle.acceptance.specs.Items.{param_name};
ghost use Rattle.scopes.specs.Names.{words_in};
ghost use Rattle.unit_checks.specs.Repeats.{head_names, kept, names_at, names_of_lines, names_of_words, plain_lines};

use c_tree::{Name, OutOfMemory, Param, Unit};
use scopes::NameSet;
use sqlite_items::Items;
use std::alloc::Global;

/// The name of a parameter.
pub fn name_of(p: &Param) -> &Name
    ensures { result.now.bytes ≡ param_name (param p.now) }
{
    match p {
        Param::Int(name) => name,
        Param::Array { name, .. } => name,
    }
}

fn add_params<'a>(names: &mut Items<&'a Name>, params: &'a [Param]) -> Result<(), OutOfMemory>
    ensures { OnOk result (names_at names.new ≡ names_at names.old ++ map param_name (map param params.now)) }
{
    for p in params {
        names.push(name_of(p))?;
    }
    Ok(())
}

fn add_words<'a>(names: &mut Items<&'a Name>, words: &'a [(Name, u64)]) -> Result<(), OutOfMemory>
    ensures { OnOk result (names_at names.new ≡ names_at names.old ++ names_of_words (words_in words.now)) }
{
    for (name, _) in words {
        names.push(name)?;
    }
    Ok(())
}

fn add_wides<'a>(names: &mut Items<&'a Name>, wides: &'a [Name]) -> Result<(), OutOfMemory>
    ensures { OnOk result (names_at names.new ≡ names_at names.old ++ map word wides.now) }
{
    for name in wides {
        names.push(name)?;
    }
    Ok(())
}

/// The function's name and those that its head declares.
pub fn all_names<'a>(alloc: Global, unit: &'a Unit) -> Result<Items<&'a Name>, OutOfMemory>
    ensures { IfOk result (λ names. names_at names ≡ head_names (plain_unit unit.now)) }
{
    let mut names = Items::new(alloc);
    names.push(&unit.name)?;
    add_wides(&mut names, unit.wides.as_slice())?;
    add_words(&mut names, unit.words.as_slice())?;
    add_params(&mut names, unit.params.as_slice())?;
    Ok(names)
}

/// The names of range lines.
pub fn line_names<'a>(
    alloc: Global,
    lines: &'a [(Name, i64, i64)],
) -> Result<Items<&'a Name>, OutOfMemory>
    ensures { IfOk result (λ names. names_at names ≡ names_of_lines (plain_lines lines.now)) }
{
    let mut names = Items::new(alloc);
    for (name, _, _) in lines {
        names.push(name)?;
    }
    Ok(names)
}

/// The set of these names where no two are the same.
pub fn distinct<'a>(alloc: Global, names: &[&'a Name]) -> Result<Option<NameSet<'a>>, OutOfMemory>
    ensures { IfOk result (λ set. set ≡ kept (names_at names.now)) }
{
    let mut seen = NameSet::new(alloc);
    let mut at = names.len();
    'last_first: while 0 < at {
        at -= 1;
        let name = names[at];
        if seen.contains(name) {
            return Ok(None);
        }
        seen.add(name)?;
    }
    Ok(Some(seen))
}
