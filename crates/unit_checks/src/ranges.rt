//! S7: range lines that don't give each `int64_t` parameter one proper range.

ghost use Rattle.std.specs.Prelude.{◌≡◌, ◌&&◌, IfOk, not, map, pos, ◌^◌};
ghost use Rattle.std.specs.List.{list_all};
ghost use Rattle.c_tree.specs.Trees.{param};
ghost use Rattle.acceptance.specs.Affine as affine;
ghost use Rattle.acceptance.specs.Head as head;
ghost use Rattle.acceptance.specs.Items.{is_int};
ghost use Rattle.scopes.specs.Scopes.{declared_in};
ghost use Rattle.unit_checks.specs.Repeats.{are_named, names_of_lines, repeats};

use crate::name_lists::{distinct, line_names};
use c_tree::{Name, OutOfMemory, Param};
use scopes::{Declared, NameSet};
use std::alloc::Global;

fn lies_in(end: i64) -> bool
    ensures { result ≡ affine.lies_in (pos (2 ^ 40)) end }
{
    -1_099_511_627_776 <= end && end <= 1_099_511_627_776
}

fn is_range(least: i64, greatest: i64) -> bool
    ensures { result ≡ head.is_range (least, greatest) }
{
    !(greatest < least) && lies_in(least) && lies_in(greatest)
}

fn are_ranges(declared: &Declared<'_>) -> bool
    ensures { let u = declared_in declared.now in result ≡ list_all (λ r. is_int u.params r.0 && head.is_range (r.1, r.2)) u.ranges }
{
    for (name, least, greatest) in declared.unit.ranges.as_slice() {
        if !(declared.is_int(name) && is_range(*least, *greatest)) {
            return false;
        }
    }
    true
}

fn named(names: &NameSet<'_>, params: &[Param]) -> bool
    ensures { result ≡ are_named names.now (map param params.now) }
{
    for p in params {
        if let Param::Int(name) = p {
            if !names.contains(name) {
                return false;
            }
        }
    }
    true
}

/// Whether no two lines have one name, and each `int64_t` parameter is named.
fn name_each(alloc: Global, declared: &Declared<'_>) -> Result<bool, OutOfMemory>
    ensures { IfOk result (λ fine. let names = names_of_lines (declared_in declared.now).ranges in fine ≡ (not (repeats names) && are_named names (declared_in declared.now).params)) }
{
    let names = line_names(alloc, declared.unit.ranges.as_slice())?;
    match distinct(alloc, names.as_slice())? {
        None => Ok(false),
        Some(set) => Ok(named(&set, declared.unit.params.as_slice())),
    }
}

/// Whether an `int64_t` parameter has no range line or two, a line names no such parameter, or a range is no range.
pub fn head_has_bad_range(alloc: Global, declared: &Declared<'_>) -> Result<bool, OutOfMemory>
    ensures { IfOk result (λ bad. bad ≡ (head.bad_range (declared_in declared.now)).head) }
{
    if !are_ranges(declared) {
        return Ok(true);
    }
    Ok(!name_each(alloc, declared)?)
}
