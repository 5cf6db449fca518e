//! Names, indentation and powers of two at the end of a text.

ghost use Rattle.std.specs.Prelude.{◌≡◌, ◌+◌, ◌^◌, ◌++◌, suc, false, decimal};
ghost use Rattle.c_tree.specs.Layout.{indent};
ghost use Rattle.text_writer.specs.Written.{Adds, fixed};
ghost use Rattle.c_printer.specs.Powers.{digits_text};

use crate::power::index_bit;
use c_tree::Name;
use text_writer::Writer;

/// A name, with fixed pieces around it.
pub fn put_name(out: &mut Writer, before: &[u8], name: &Name, behind: &[u8])
    ensures { Adds out.old out.new (λ rest. before.now ++ (name.now.bytes ++ (behind.now ++ rest))) }
{
    out.put(before);
    out.put(name.bytes.as_slice());
    out.put(behind);
}

/// Two spaces a level.
pub fn put_indent(out: &mut Writer, depth: usize)
    ensures { Adds out.old out.new (fixed (indent depth)) }
{
    for _level in 0..depth {
        out.put(b"  ");
    }
}

/// One level more. A text with more levels than a word counts has no room in memory.
pub fn one_deeper(out: &mut Writer, depth: usize) -> usize
    ensures { out.new.failed ≡ false → (out.old.failed ≡ false) × (out.new.bytes ≡ out.old.bytes) × (result ≡ suc depth) }
{
    match depth.checked_add(1) {
        Some(inner) => inner,
        None => {
            out.failed = true;
            depth
        }
    }
}

// The digits, of which the least comes first.
fn put_digits(out: &mut Writer, mut digits: Vec<u8>)
    ensures { Adds out.old out.new (fixed (digits_text digits.items)) }
{
    while let Some(digit) = digits.pop() {
        out.put_number(u64::from(digit));
    }
}

/// Two to the power of 16 and the array's number.
pub fn put_index_bit(out: &mut Writer, array: u32)
    ensures { Adds out.old out.new (fixed (decimal (2 ^ (16 + array)))) }
{
    match index_bit(*out.bytes.allocator(), array) {
        Ok(digits) => put_digits(out, digits),
        Err(_) => out.failed = true,
    }
}
