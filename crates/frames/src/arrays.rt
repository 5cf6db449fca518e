//! The arrays, with sums for extents.

ghost use Rattle.std.specs.Prelude.{◌≡◌, IfOk, map, true};
ghost use Rattle.c_tree.specs.Names.{words};
ghost use Rattle.c_tree.specs.Trees.{expr, exprs, param};
ghost use Rattle.affine_sets.specs.Expressions.{StandsFor, are_different, is_sum};
ghost use Rattle.frames.specs.Built.{AreSums, HaveSums, are_sums, have_sums};

use affine_sets::affine_of;
use c_tree::{Affine, Affines, ArrayInfo, Arrays, Expr, Exprs, NameList, OutOfMemory, Param};
use sqlite_items::Items;
use std::alloc::Global;

fn extent_of(alloc: Global, e: &Expr, names: &NameList) -> Result<Affine, OutOfMemory>
    requires different { are_different (words names.now) ≡ true }
    requires sum { is_sum (words names.now) (expr e.now) ≡ true }
    ensures { IfOk result (λ sum. StandsFor (words names.now) (expr e.now) sum) }
{
    match affine_of(alloc, e, names)? {
        Some(sum) => Ok(sum),
        None => unreachable!(),
    }
}

fn extents_of(alloc: Global, extents: &Exprs, names: &NameList) -> Result<Affines, OutOfMemory>
    requires different { are_different (words names.now) ≡ true }
    requires sums { are_sums (words names.now) (exprs extents.now) ≡ true }
    ensures { IfOk result (λ sums. AreSums (words names.now) (exprs extents.now) sums) }
{
    let mut sums = Items::new(alloc);
    for e in extents.as_slice() {
        sums.push(extent_of(alloc, e, names)?)?;
    }
    Ok(sums)
}

/// The arrays among the parameters, in declared order.
pub fn arrays_of(alloc: Global, params: &[Param], names: &NameList) -> Result<Arrays, OutOfMemory>
    requires different { are_different (words names.now) ≡ true }
    requires sums { have_sums (words names.now) (map param params.now) ≡ true }
    ensures { IfOk result (λ arrays. HaveSums (words names.now) (map param params.now) arrays) }
{
    let mut arrays = Items::new(alloc);
    for p in params {
        if let Param::Array {
            name,
            constant,
            extents,
        } = p
        {
            arrays.push(ArrayInfo {
                name: name.copy(alloc)?,
                constant: *constant,
                extents: extents_of(alloc, extents, names)?,
            })?;
        }
    }
    Ok(arrays)
}
