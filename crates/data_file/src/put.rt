//! Bytes and numbers at the end of a text.

ghost use Rattle.std.specs.Prelude.{◌≡◌, ◌++◌, OnOk, decimal};
ghost use Rattle.std.specs.Fmt.{signed_decimal};

use c_tree::OutOfMemory;
use itoa::Buffer;

pub fn put(out: &mut Vec<u8>, piece: &[u8]) -> Result<(), OutOfMemory>
    ensures { OnOk result (out.new.items ≡ out.old.items ++ piece.now) }
{
    out.extend_from_slice(piece)?;
    Ok(())
}

pub fn put_word(out: &mut Vec<u8>, word: u64) -> Result<(), OutOfMemory>
    ensures { OnOk result (out.new.items ≡ out.old.items ++ decimal word) }
{
    let mut buffer = Buffer::new();
    put(out, buffer.format(word).as_bytes())
}

pub fn put_int(out: &mut Vec<u8>, value: i64) -> Result<(), OutOfMemory>
    ensures { OnOk result (out.new.items ≡ out.old.items ++ signed_decimal value) }
{
    let mut buffer = Buffer::new();
    put(out, buffer.format(value).as_bytes())
}
