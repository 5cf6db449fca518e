//! The bit that a check returns, which may be far above 64 bits in a unit that isn't accepted.

ghost use Rattle.std.specs.Prelude.{◌≡◌, ◌+◌, ◌^◌, IfOk};
ghost use Rattle.c_printer.specs.Powers as powers;
ghost use Rattle.c_printer.specs.Powers.{all_digits};

use c_tree::OutOfMemory;
use std::alloc::Global;

// How many digits `decimal` writes of a number at most.
const MOST_DIGITS: usize = 64;

// The digits of twice the number, the least first.
fn twice(alloc: Global, digits: &[u8]) -> Result<Vec<u8>, OutOfMemory>
    ensures { IfOk result (λ doubled. doubled.items ≡ powers.twice 0 0 digits.now) }
{
    let mut doubled = Vec::new(alloc);
    let mut carry = 0;
    for digit in digits {
        let value = 2 * u32::from(*digit) + carry;
        doubled.push((value % 10) as u8)?;
        carry = value / 10;
    }
    if carry > 0 && digits.len() < MOST_DIGITS {
        doubled.push(carry as u8)?;
    }
    Ok(doubled)
}

/// The digits of 2 to the power of 16 and the array's number, the least first.
pub fn index_bit(alloc: Global, array: u32) -> Result<Vec<u8>, OutOfMemory>
    ensures { IfOk result (λ digits. digits.items ≡ all_digits (2 ^ (16 + array))) }
{
    let mut digits = Vec::from_slice(alloc, b"\x06\x03\x05\x05\x06")?;
    for _doubling in 0..array {
        digits = twice(alloc, digits.as_slice())?;
    }
    Ok(digits)
}
