//! The generator, and rows of cells that are drawn from it.

ghost use Rattle.std.specs.Prelude.{◌≡◌, flat_map, pos};
ghost use Rattle.data_file.specs.Texts.{array_line, cell_text, parameter_line};
ghost use Rattle.demo_kernels.specs.Generator.{after, cell_of as cell_by, drawn, HasCells, step as step_of};
ghost use Rattle.text_writer.specs.Written.{Adds, fixed};

use text_writer::Writer;

/// The number after this one.
pub fn step(x: u64) -> u64
    ensures { result ≡ step_of x }
{
    x.wrapping_mul(6_364_136_223_846_793_005)
        .wrapping_add(1_442_695_040_888_963_407)
}

// The cell of a number, which lies below the limit if there is one.
fn cell_of(limit: Option<u64>, x: u64) -> u64
    requires { HasCells limit }
    ensures { result ≡ cell_by limit x }
{
    match limit {
        None => x,
        Some(limit) => x % limit,
    }
}

// Appends so many cells, and answers the last number.
fn put_cells(out: &mut Writer, limit: Option<u64>, count: u64, start: u64) -> u64
    requires { HasCells limit }
    ensures text { Adds out.old out.new (fixed (flat_map cell_text (drawn limit count start))) }
    ensures last { result ≡ after count start }
{
    let mut last = start;
    for _turn in 0..count {
        last = step(last);
        out.put(b" ");
        out.put_number(cell_of(limit, last));
    }
    last
}

/// Appends the line of an array, and answers the last number.
pub fn put_row(out: &mut Writer, name: &str, limit: Option<u64>, count: u64, start: u64) -> u64
    requires { HasCells limit }
    ensures text { Adds out.old out.new (fixed (array_line name.now (drawn limit count start))) }
    ensures last { result ≡ after count start }
{
    out.put(name.as_bytes());
    out.put(b" =");
    let last = put_cells(out, limit, count, start);
    out.put(b"\n");
    last
}

/// Appends the line of a parameter.
pub fn put_parameter(out: &mut Writer, name: &str, value: u64)
    ensures { Adds out.old out.new (fixed (parameter_line name.now (pos value))) }
{
    out.put(name.as_bytes());
    out.put(b" = ");
    out.put_number(value);
    out.put(b"\n");
}
