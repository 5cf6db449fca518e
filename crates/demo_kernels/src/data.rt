//! The text of the inputs of each kernel.

ghost use Rattle.std.specs.Prelude.{◌≡◌, ◌≤◌, ◌<◌, IfOk};
ghost use Rattle.demo_kernels.specs.Kernels.{gather_kernel, jacobi_kernel, kernel_data, kernel_of, product_kernel, shift_kernel, size_of as size_at};
ghost use Rattle.text_writer.specs.Written.{Adds, fixed};

use crate::generator::{put_parameter, put_row};
use c_tree::OutOfMemory;
use edge::ByteList;
use std::alloc::Global;
use text_writer::Writer;

fn put_shift(out: &mut Writer, n: u64, start: u64)
    ensures { Adds out.old out.new (fixed (kernel_data (shift_kernel n 0) start)) }
{
    put_parameter(out, "n", n);
    put_row(out, "A", None, n, start);
}

fn put_product(out: &mut Writer, n: u64, start: u64)
    requires { n ≤ 107 }
    ensures { Adds out.old out.new (fixed (kernel_data (product_kernel n 0) start)) }
{
    let count = n * n;
    put_parameter(out, "n", n);
    let a = put_row(out, "A", None, count, start);
    let b = put_row(out, "B", None, count, a);
    put_row(out, "C", None, count, b);
}

fn put_jacobi(out: &mut Writer, n: u64, start: u64)
    ensures { Adds out.old out.new (fixed (kernel_data (jacobi_kernel n 0) start)) }
{
    put_parameter(out, "t", n);
    put_parameter(out, "n", n);
    let a = put_row(out, "A", None, n, start);
    put_row(out, "B", None, n, a);
}

fn put_gather(out: &mut Writer, n: u64, start: u64)
    requires { 0 < n }
    ensures { Adds out.old out.new (fixed (kernel_data (gather_kernel n) start)) }
{
    put_parameter(out, "n", n);
    put_parameter(out, "m", n);
    let p = put_row(out, "P", Some(n), n, start);
    let x = put_row(out, "X", None, n, p);
    put_row(out, "Y", None, n, x);
}

/// The size of the kernel of a number.
pub fn size_of(number: u32) -> u64
    requires { number ≤ 399 }
    ensures size { result ≡ size_at number }
    ensures small { result ≤ 107 }
    ensures some { 0 < result }
{
    8 + u64::from(number / 4)
}

fn put_data(out: &mut Writer, number: u32)
    requires { number ≤ 399 }
    ensures { Adds out.old out.new (fixed (kernel_data (kernel_of number) number)) }
{
    let n = size_of(number);
    let start = u64::from(number);
    match number % 4 {
        0 => put_shift(out, n, start),
        1 => put_product(out, n, start),
        2 => put_jacobi(out, n, start),
        _ => put_gather(out, n, start),
    }
}

/// The text of the inputs of the kernel of a number.
pub fn data_of(alloc: Global, number: u32) -> Result<ByteList, OutOfMemory>
    requires { number ≤ 399 }
    ensures { IfOk result (λ text. text ≡ kernel_data (kernel_of number) number) }
{
    let mut out = Writer::new(alloc);
    put_data(&mut out, number);
    Ok(ByteList::new(out.finish()?))
}
