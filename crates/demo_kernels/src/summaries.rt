//! The summary of a demonstration.

ghost use Rattle.std.specs.Prelude.{◌≡◌, ◌≤◌, IfOk, codes, length, string_bytes};
ghost use Rattle.data_file.specs.Conditions.{NamesBelow};
ghost use Rattle.demo_kernels.specs.Kernels.{kernel_of};
ghost use Rattle.demo_kernels.specs.Summaries.{head_text, summary_text};

use crate::data::size_of;
use crate::flip::flip_of;
use c_tree::{ArrayInfo, OutOfMemory, Verdict};
use data_file::verdict_line;
use edge::ByteList;
use std::alloc::{AllocError, Global};
use text_writer::Writer;

/// How many accesses and turns a run made.
#[derive(Clone, Copy)]
pub struct Counts {
    pub accesses: u128,
    pub turns: u128,
}

fn name_of(number: u32) -> &'static str
    ensures { result.now ≡ (kernel_of number).unit.name }
{
    match number % 4 {
        0 => "shift",
        1 => "mm",
        2 => "jac",
        _ => "gather",
    }
}

fn head_of(alloc: Global, number: u32, counts: Counts) -> Result<String, AllocError>
    requires { number ≤ 399 }
    ensures { IfOk result (λ text. string_bytes text ≡ head_text number counts.accesses counts.turns) }
{
    let name = name_of(number);
    let size = size_of(number);
    let accesses = counts.accesses;
    let turns = counts.turns;
    format!(in alloc; "demo {number} {name} n {size}\naccesses {accesses} turns {turns}\n")
}

/// The summary of the demonstration of a number: what its source counts, and the verdict without the flip and with it, with
/// the names of these arrays.
pub fn summary(
    alloc: Global,
    number: u32,
    counts: Counts,
    arrays: &[ArrayInfo],
    without: &Verdict,
    flipped: &Verdict,
) -> Result<ByteList, OutOfMemory>
    requires small { number ≤ 399 }
    requires without_flip { NamesBelow (length arrays.now) without.now }
    requires with_flip { NamesBelow (length arrays.now) flipped.now }
    ensures { IfOk result (λ text. text ≡ summary_text number counts.accesses counts.turns arrays.now without.now flipped.now) }
{
    let head = head_of(alloc, number, counts)?;
    let before = verdict_line(alloc, arrays, without)?;
    let flip = flip_of(alloc, number)?;
    let after = verdict_line(alloc, arrays, flipped)?;
    let mut out = Writer::new(alloc);
    out.put(head.as_bytes());
    out.put(before.as_slice());
    out.put(flip.as_bytes());
    out.put(after.as_slice());
    Ok(ByteList::new(out.finish()?))
}
