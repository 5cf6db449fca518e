//! Lines of the output of a run.

ghost use Rattle.std.specs.Prelude.{◌≡◌, ◌++◌, ◌<◌, [], ◌∷◌, length, true, slice_set, if◌then◌else◌, IfOk, OnOk};
ghost use Rattle.data_file.specs.Texts.{paired, kept_text, named, names_among, verdict_words, AreMarks};
ghost use Rattle.data_file.specs.Conditions.{NamesBelow};

use crate::put::put;
use crate::write::put_array;
use c_tree::{ArrayCells, ArrayInfo, OutOfMemory, Verdict};
use std::alloc::Global;

fn put_unless_const(out: &mut Vec<u8>, array: &ArrayInfo, cells: &[u64]) -> Result<(), OutOfMemory>
    ensures { OnOk result (out.new.items ≡ out.old.items ++ kept_text array.now cells.now) }
{
    if array.constant {
        return Ok(());
    }
    put_array(out, &array.name, cells)
}

pub fn put_kept(
    out: &mut Vec<u8>,
    arrays: &[ArrayInfo],
    cells: &[ArrayCells],
) -> Result<(), OutOfMemory>
    requires { length cells.now ≡ length arrays.now }
    ensures { OnOk result (out.new.items ≡ out.old.items ++ paired kept_text arrays.now cells.now) }
{
    for (k, array) in arrays.iter().enumerate() {
        put_unless_const(out, array, cells[k].as_slice())?;
    }
    Ok(())
}

fn put_name(out: &mut Vec<u8>, arrays: &[ArrayInfo], number: u32) -> Result<(), OutOfMemory>
    requires { number < length arrays.now }
    ensures { OnOk result (out.new.items ≡ out.old.items ++ named arrays.now number) }
{
    put(out, b" ")?;
    put(out, arrays[number as usize].name.bytes.as_slice())
}

/// Sets the mark of this number, if there is one.
fn mark(marks: &mut Vec<bool>, place: usize)
    ensures { marks.new.items ≡ slice_set marks.old.items place true }
{
    if place < marks.len() {
        marks[place] = true;
    }
}

/// For each of the first so many numbers, whether the list has it.
fn marks_of(alloc: Global, count: usize, numbers: &[u32]) -> Result<Vec<bool>, OutOfMemory>
    ensures { IfOk result (λ marks. AreMarks numbers.now count marks.items) }
{
    let mut marks = vec![in alloc; false; count]?;
    for number in numbers {
        mark(&mut marks, *number as usize);
    }
    Ok(marks)
}

fn put_if(out: &mut Vec<u8>, array: &ArrayInfo, is_named: bool) -> Result<(), OutOfMemory>
    ensures { OnOk result (out.new.items ≡ out.old.items ++ (if is_named then 32 ∷ array.now.name.bytes else [])) }
{
    if is_named {
        put(out, b" ")?;
        put(out, array.name.bytes.as_slice())?;
    }
    Ok(())
}

/// The names of the arrays whose numbers are in the list, in declared order.
fn put_names(out: &mut Vec<u8>, arrays: &[ArrayInfo], numbers: &[u32]) -> Result<(), OutOfMemory>
    ensures { OnOk result (out.new.items ≡ out.old.items ++ names_among numbers.now 0 arrays.now) }
{
    let marks = marks_of(*out.allocator(), arrays.len(), numbers)?;
    for (k, array) in arrays.iter().enumerate() {
        put_if(out, array, marks[k])?;
    }
    Ok(())
}

pub fn put_verdict(
    out: &mut Vec<u8>,
    arrays: &[ArrayInfo],
    verdict: &Verdict,
) -> Result<(), OutOfMemory>
    requires { NamesBelow (length arrays.now) verdict.now }
    ensures { OnOk result (out.new.items ≡ out.old.items ++ verdict_words arrays.now verdict.now) }
{
    match verdict {
        Verdict::Plain => put(out, b"plain"),
        Verdict::Balanced => put(out, b"balanced"),
        Verdict::Fault(numbers) => {
            put(out, b"fault")?;
            put_names(out, arrays, numbers.as_slice())
        }
        Verdict::Index(number) => {
            put(out, b"index")?;
            put_name(out, arrays, *number)
        }
        Verdict::Outside(number) => {
            put(out, b"outside")?;
            put_name(out, arrays, *number)
        }
    }
}
