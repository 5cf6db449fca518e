//! How a refusal of a data text is written.

ghost use Rattle.std.specs.Prelude.{◌≡◌, IfOk, slice_get};
ghost use Rattle.text_writer.specs.Written.{Adds, fixed};
ghost use Rattle.command_line.specs.DataRefusals.{range_name, array_name, data_refusal_text as text_of};

use c_tree::{Frame, OutOfMemory};
use data_file::DataRefusal;
use edge::ByteList;
use std::alloc::Global;
use text_writer::Writer;

fn put_range_name(out: &mut Writer, frame: &Frame, number: u64)
    ensures { Adds out.old out.new (fixed (range_name (slice_get frame.now.ints number))) }
{
    match frame.ints.get(number as usize) {
        Some((name, _, _)) => out.put(name.bytes.as_slice()),
        None => (),
    }
}

fn put_array_name(out: &mut Writer, frame: &Frame, number: u64)
    ensures { Adds out.old out.new (fixed (array_name (slice_get frame.now.arrays number))) }
{
    match frame.arrays.get(number as usize) {
        Some(array) => out.put(array.name.bytes.as_slice()),
        None => (),
    }
}

fn put_refusal(out: &mut Writer, frame: &Frame, refusal: DataRefusal)
    ensures { Adds out.old out.new (fixed (text_of frame.now refusal)) }
{
    match refusal {
        DataRefusal::Syntax { line } => {
            out.put(b"I1 Syntax in line ");
            out.put_number(line);
        }
        DataRefusal::OutOfRange { parameter } => {
            out.put(b"I2 OutOfRange ");
            put_range_name(out, frame, parameter);
        }
        DataRefusal::TooLarge { array } => {
            out.put(b"I3 TooLarge ");
            put_array_name(out, frame, array);
        }
        DataRefusal::WrongCells {
            array,
            wanted,
            given,
        } => {
            out.put(b"I4 WrongCells ");
            put_array_name(out, frame, array);
            out.put(b" ");
            out.put_number(wanted);
            out.put(b" ");
            out.put_number(given);
        }
        DataRefusal::OutOfMemory => out.put(b"out of memory"),
    }
}

/// Its number and name, with the names of parameters and arrays.
pub fn data_refusal_text(
    alloc: Global,
    frame: &Frame,
    refusal: DataRefusal,
) -> Result<ByteList, OutOfMemory>
    ensures { IfOk result (λ text. text ≡ text_of frame.now refusal) }
{
    let mut out = Writer::new(alloc);
    put_refusal(&mut out, frame, refusal);
    Ok(ByteList::new(out.finish()?))
}
