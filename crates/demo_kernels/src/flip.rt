//! The flip of each kernel.

ghost use Rattle.std.specs.Prelude.{◌≡◌, ◌++◌, IfOk, codes, decimal, string_bytes};
ghost use Rattle.demo_kernels.specs.Kernels.{kernel_flip, kernel_of};

use std::alloc::{AllocError, Global};

fn flip_text(
    alloc: Global,
    array: &str,
    cell: u64,
    bit: u32,
    place: u64,
) -> Result<String, AllocError>
    ensures { IfOk result (λ text. string_bytes text ≡ codes "flip " ++ (array.now ++ (codes " " ++ (decimal cell ++ (codes " " ++ (decimal bit ++ (codes " at " ++ (decimal place ++ codes "\n")))))))) }
{
    format!(in alloc; "flip {array} {cell} {bit} at {place}\n")
}

/// The text of the flip of the kernel of a number.
pub fn flip_of(alloc: Global, number: u32) -> Result<String, AllocError>
    ensures { IfOk result (λ text. string_bytes text ≡ kernel_flip (kernel_of number)) }
{
    let bit = number % 64;
    match number % 4 {
        0 => flip_text(alloc, "A", 1, bit, 2),
        1 => flip_text(alloc, "B", 0, bit, 2),
        2 => flip_text(alloc, "A", 2, bit, 1),
        _ => flip_text(alloc, "P", 0, 63, 0),
    }
}
