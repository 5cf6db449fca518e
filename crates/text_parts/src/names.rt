//! The names that an instrumented text adds, and the numbers of a source's arrays.

ghost use Rattle.std.specs.Prelude.{◌≡◌, ◌++◌, IfOk, decimal, map};
ghost use Rattle.c_tree.specs.Trees.{exprs, param};
ghost use Rattle.instrumentation.specs.Guarded.{arrays_with_extents};
ghost use Rattle.instrumentation.specs.Names as names;
ghost use Rattle.text_parts.specs.Numbered.{numbers, sizes};
ghost use Rattle.text_parts.specs.Extents.{declared_extents};

use c_tree::{Expr, Name, OutOfMemory, Param};
use sqlite_items::Items;
use std::alloc::Global;

/// A name of these bytes.
pub fn named(alloc: Global, text: &str) -> Result<Name, OutOfMemory>
    ensures { IfOk result (λ name. name.bytes ≡ text.now) }
{
    Ok(Name {
        bytes: Items::from_slice(alloc, text.as_bytes())?,
    })
}

/// A name of a prefix and a number.
fn numbered(alloc: Global, prefix: &str, number: u64) -> Result<Name, OutOfMemory>
    ensures { IfOk result (λ name. name.bytes ≡ prefix.now ++ decimal number) }
{
    let text = format!(in alloc; "{prefix}{number}")?;
    Ok(Name {
        bytes: Items::from_vec(text.into_bytes()),
    })
}

/// The word that a load goes to.
#[tactic(auto, unfolding(instrumentation::specs::Names::register))]
pub fn register(alloc: Global, load: u64) -> Result<Name, OutOfMemory>
    ensures { IfOk result (λ name. name.bytes ≡ names.register load) }
{
    numbered(alloc, "bal_r", load)
}

/// The word that is stored.
#[tactic(auto, unfolding(instrumentation::specs::Names::result))]
pub fn stored_word(alloc: Global) -> Result<Name, OutOfMemory>
    ensures { IfOk result (λ name. name.bytes ≡ names.result) }
{
    named(alloc, "bal_w")
}

/// The number of uses of the definition that is being made.
#[tactic(auto, unfolding(instrumentation::specs::Names::count))]
pub fn use_count(alloc: Global) -> Result<Name, OutOfMemory>
    ensures { IfOk result (λ name. name.bytes ≡ names.count) }
{
    named(alloc, "bal_k")
}

/// The definition total of an array.
#[tactic(auto, unfolding(instrumentation::specs::Names::definition_total))]
pub fn definition_total(alloc: Global, array: u64) -> Result<Name, OutOfMemory>
    ensures { IfOk result (λ name. name.bytes ≡ names.definition_total array) }
{
    numbered(alloc, "bal_def", array)
}

/// The use total of an array.
#[tactic(auto, unfolding(instrumentation::specs::Names::use_total))]
pub fn use_total(alloc: Global, array: u64) -> Result<Name, OutOfMemory>
    ensures { IfOk result (λ name. name.bytes ≡ names.use_total array) }
{
    numbered(alloc, "bal_use", array)
}

/// A coordinate of a cell in the prologue.
#[tactic(auto, unfolding(instrumentation::specs::Names::coordinate))]
pub fn coordinate(alloc: Global, dimension: u64) -> Result<Name, OutOfMemory>
    ensures { IfOk result (λ name. name.bytes ≡ names.coordinate dimension) }
{
    numbered(alloc, "bal_i", dimension)
}

/// The variable of a loop of a counting pass, by the number of loops around it.
#[tactic(auto, unfolding(instrumentation::specs::Names::pass_variable))]
pub fn pass_variable(alloc: Global, depth: u64) -> Result<Name, OutOfMemory>
    ensures { IfOk result (λ name. name.bytes ≡ names.pass_variable depth) }
{
    numbered(alloc, "bal_l", depth)
}

/// In a counting pass, whether the definition stands in its cell.
#[tactic(auto, unfolding(instrumentation::specs::Names::active))]
pub fn active_word(alloc: Global) -> Result<Name, OutOfMemory>
    ensures { IfOk result (λ name. name.bytes ≡ names.active) }
{
    named(alloc, "bal_c0")
}

/// In a counting pass, how often the definition was read.
#[tactic(auto, unfolding(instrumentation::specs::Names::counter))]
pub fn counter_word(alloc: Global) -> Result<Name, OutOfMemory>
    ensures { IfOk result (λ name. name.bytes ≡ names.counter) }
{
    named(alloc, "bal_c1")
}

/// By tables, how many writes of an array were made so far.
#[tactic(auto, unfolding(instrumentation::specs::Names::written))]
pub fn written_word(alloc: Global, array: u64) -> Result<Name, OutOfMemory>
    ensures { IfOk result (λ name. name.bytes ≡ names.written array) }
{
    numbered(alloc, "bal_cw", array)
}

/// In a walk, the index cell of a subscript.
#[tactic(auto, unfolding(instrumentation::specs::Names::index_word))]
pub fn index_word(alloc: Global, dimension: u64) -> Result<Name, OutOfMemory>
    ensures { IfOk result (λ name. name.bytes ≡ names.index_word dimension) }
{
    numbered(alloc, "bal_cx", dimension)
}

/// The table of the current definitions of an array's cells.
#[tactic(auto, unfolding(instrumentation::specs::Names::current))]
pub fn current_table(alloc: Global, array: u64) -> Result<Name, OutOfMemory>
    ensures { IfOk result (λ name. name.bytes ≡ names.current array) }
{
    numbered(alloc, "bal_td", array)
}

/// The table of the counts of an array's definitions.
#[tactic(auto, unfolding(instrumentation::specs::Names::counts))]
pub fn count_table(alloc: Global, array: u64) -> Result<Name, OutOfMemory>
    ensures { IfOk result (λ name. name.bytes ≡ names.counts array) }
{
    numbered(alloc, "bal_tu", array)
}

/// The name of the instrumented function.
#[tactic(auto, unfolding(instrumentation::specs::Names::function_name))]
pub fn function_name(alloc: Global, source: &Name) -> Result<Name, OutOfMemory>
    ensures { IfOk result (λ name. name.bytes ≡ names.function_name source.now.bytes) }
{
    let mut name = named(alloc, "bal_fn_")?;
    name.bytes.append(source.copy(alloc)?.bytes)?;
    Ok(name)
}

/// The number of the array of this name, or of arrays where none has it.
pub fn number_of(params: &[Param], name: &Name) -> u64
    ensures { result ≡ numbers params.now name.now.bytes }
{
    let mut number = 0;
    for p in params {
        if let Param::Array { name: array, .. } = p {
            if array.same(name) {
                return number;
            }
            number += 1;
        }
    }
    number
}

/// The extents of the array of this name, none where no array has it.
pub fn extents_of<'a>(params: &'a [Param], name: &Name) -> &'a [Expr]
    ensures { exprs result.now ≡ sizes params.now name.now.bytes }
{
    for p in params {
        if let Param::Array {
            name: array,
            extents,
            ..
        } = p
        {
            if array.same(name) {
                return extents.as_slice();
            }
        }
    }
    &[]
}

/// The extents of the array of this number, none where there is no such array.
pub fn extents_at(params: &[Param], array: usize) -> &[Expr]
    ensures { exprs result.now
        ≡ declared_extents (arrays_with_extents (map param params.now)) array }
{
    let mut left = array;
    for p in params {
        if let Param::Array { extents, .. } = p {
            if left == 0 {
                return extents.as_slice();
            }
            left -= 1;
        }
    }
    &[]
}
