//! The sites of each array.

ghost use Rattle.std.specs.Prelude.{◌≡◌, IfOk, length, map, suc, ◌+◌, ◌∷◌, []};
ghost use Rattle.c_tree.specs.Names.{arrays_in, ints_in, words};
ghost use Rattle.c_tree.specs.Trees as plain;
ghost use Rattle.c_tree.specs.Trees.{param};
ghost use Rattle.sites.specs.Infos.{Pairs, Shows, ShowsSites, numbered_sites};

use crate::collect::{Next, Query, walk_all};
use crate::info::{SiteList, SiteLists};
use crate::numbers::after;
use crate::outers::Outers;
use c_tree::{Name, NameList, OutOfMemory, Param, Unit, array_names};
use sqlite_items::Items;
use std::alloc::Global;

fn after_int(n: u32, p: &Param) -> Result<u32, OutOfMemory>
    ensures { IfOk result (λ m. m ≡ n + length (ints_in (param p.now ∷ []))) }
{
    match p {
        Param::Int(_) => after(n),
        Param::Array { .. } => Ok(n),
    }
}

/// The number of the first loop's variable.
fn first_variable(params: &[Param]) -> Result<u32, OutOfMemory>
    ensures { IfOk result (λ n. n ≡ suc (length (ints_in (map param params.now)))) }
{
    let mut number: u32 = 1;
    for p in params {
        number = after_int(number, p)?;
    }
    Ok(number)
}

fn sites_of_array(
    alloc: Global,
    unit: &Unit,
    arrays: &NameList,
    array: &Name,
) -> Result<SiteList, OutOfMemory>
    ensures { IfOk result (λ infos. Pairs (Shows (ints_in (map param unit.now.params)) (words arrays.now)) infos (numbered_sites (plain.unit unit.now) array.now.bytes)) }
{
    let mut out = Items::new(alloc);
    let query = Query {
        unit,
        arrays,
        array,
    };
    let first = Next {
        item: 1,
        variable: first_variable(unit.params.as_slice())?,
        site: 0,
    };
    walk_all(alloc, &query, &Outers::Outside, &unit.body, first, &mut out)?;
    Ok(out)
}

/// The sites of each array of a source, in declared order. Where the unit isn't an accepted source, the answer may also be
/// that memory is wanting.
pub fn sites_of(alloc: Global, unit: &Unit) -> Result<SiteLists, OutOfMemory>
    ensures { IfOk result (λ lists. Pairs (ShowsSites (plain.unit unit.now)) lists (arrays_in (plain.unit unit.now).params)) }
{
    let arrays = array_names(alloc, unit.params.as_slice())?;
    let mut lists = Items::new(alloc);
    for array in arrays.as_slice() {
        lists.push(sites_of_array(alloc, unit, &arrays, array)?)?;
    }
    Ok(lists)
}
