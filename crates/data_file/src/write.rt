//! Lines of a data file.

ghost use Rattle.std.specs.Prelude.{◌≡◌, ◌++◌, length, flat_map, OnOk};
ghost use Rattle.data_file.specs.Texts.{paired, cell_text, parameter_line, array_line, parameter_text, array_text};

use crate::put::{put, put_int, put_word};
use c_tree::{ArrayCells, ArrayInfo, Name, OutOfMemory};

fn put_cells(out: &mut Vec<u8>, cells: &[u64]) -> Result<(), OutOfMemory>
    ensures { OnOk result (out.new.items ≡ out.old.items ++ flat_map cell_text cells.now) }
{
    for cell in cells {
        put(out, b" ")?;
        put_word(out, *cell)?;
    }
    Ok(())
}

fn put_parameter(out: &mut Vec<u8>, name: &Name, value: i64) -> Result<(), OutOfMemory>
    ensures { OnOk result (out.new.items ≡ out.old.items ++ parameter_line name.now.bytes value) }
{
    put(out, name.bytes.as_slice())?;
    put(out, b" = ")?;
    put_int(out, value)?;
    put(out, b"\n")
}

pub fn put_array(out: &mut Vec<u8>, name: &Name, cells: &[u64]) -> Result<(), OutOfMemory>
    ensures { OnOk result (out.new.items ≡ out.old.items ++ array_line name.now.bytes cells.now) }
{
    put(out, name.bytes.as_slice())?;
    put(out, b" =")?;
    put_cells(out, cells)?;
    put(out, b"\n")
}

pub fn put_parameters(
    out: &mut Vec<u8>,
    parameters: &[(Name, i64, i64)],
    values: &[i64],
) -> Result<(), OutOfMemory>
    requires { length values.now ≡ length parameters.now }
    ensures { OnOk result (out.new.items ≡ out.old.items ++ paired parameter_text parameters.now values.now) }
{
    for (k, value) in values.iter().enumerate() {
        put_parameter(out, &parameters[k].0, *value)?;
    }
    Ok(())
}

pub fn put_arrays(
    out: &mut Vec<u8>,
    arrays: &[ArrayInfo],
    cells: &[ArrayCells],
) -> Result<(), OutOfMemory>
    requires { length cells.now ≡ length arrays.now }
    ensures { OnOk result (out.new.items ≡ out.old.items ++ paired array_text arrays.now cells.now) }
{
    for (k, array) in arrays.iter().enumerate() {
        put_array(out, &array.name, cells[k].as_slice())?;
    }
    Ok(())
}
