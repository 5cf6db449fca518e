//! How a report is written.

ghost use Rattle.std.specs.Prelude.{◌≡◌, IfOk};
ghost use Rattle.acceptance.specs.Sources.{IsAcceptedSource};
ghost use Rattle.c_tree.specs.Trees.{param, unit as tree};
ghost use Rattle.text_writer.specs.Written.{Adds, fixed};
ghost use Rattle.reports.specs.Texts as texts;

use c_tree::{Name, OutOfMemory, Param, Unit};
use sites::{Class, class_of, reads_of, writes_of};
use std::alloc::Global;
use text_writer::Writer;

fn put_class(out: &mut Writer, class: Class)
    ensures { Adds out.old out.new (fixed (texts.class_word class)) }
{
    match class {
        Class::Difference => out.put(b"difference"),
        Class::Counted => out.put(b"counted"),
        Class::Inspected => out.put(b"inspected"),
    }
}

fn put_counts(out: &mut Writer, reads: u32, writes: u32)
    ensures { Adds out.old out.new (fixed (texts.counts reads writes)) }
{
    out.put(b" reads ");
    out.put_number(reads as u64);
    out.put(b" writes ");
    out.put_number(writes as u64);
    out.put(b"\n");
}

fn put_line(out: &mut Writer, unit: &Unit, array: &Name)
    requires { IsAcceptedSource (tree unit.now) }
    ensures { Adds out.old out.new (fixed (texts.line (tree unit.now) array.now.bytes)) }
{
    let class = class_of(unit, array);
    let reads = reads_of(unit, array);
    let writes = writes_of(unit, array);
    out.put(array.bytes.as_slice());
    out.put(b" ");
    put_class(out, class);
    put_counts(out, reads, writes);
}

/// The line of an array, and none of an `int64_t` parameter.
fn put_param(out: &mut Writer, unit: &Unit, p: &Param)
    requires { IsAcceptedSource (tree unit.now) }
    ensures { Adds out.old out.new (fixed (texts.param_text (tree unit.now) (param p.now))) }
{
    match p {
        Param::Int(_) => (),
        Param::Array { name, .. } => put_line(out, unit, name),
    }
}

fn put_params(out: &mut Writer, unit: &Unit)
    requires { IsAcceptedSource (tree unit.now) }
    ensures { Adds out.old out.new (fixed (texts.report_text (tree unit.now))) }
{
    for p in unit.params.as_slice() {
        put_param(out, unit, p);
    }
}

/// The report on a source: for each array, in declared order, a line `NAME CLASS reads R writes W` with its class
/// and how many read and write sites it has.
pub fn report(alloc: Global, unit: &Unit) -> Result<Vec<u8>, OutOfMemory>
    requires { IsAcceptedSource (tree unit.now) }
    ensures { IfOk result (λ text. text.items ≡ texts.report_text (tree unit.now)) }
{
    let mut out = Writer::new(alloc);
    put_params(&mut out, unit);
    Ok(out.finish()?)
}
