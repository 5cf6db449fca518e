//! The first item at which a condition holds.

ghost use Rattle.std.specs.Prelude.{◌≡◌, ◌+◌, ◌<◌, ◌^◌, true, []};
ghost use Rattle.c_tree.specs.Trees.{stmt, stmts};
ghost use Rattle.acceptance.specs.Items.{items_all};
ghost use Rattle.kernel_check.specs.Conditions.{excess, IsRanged};
ghost use Rattle.kernel_check.specs.Items.{item_in, inner, inner_all, are_flat};
ghost use Rattle.kernel_check.specs.Scans.{IsMet, Walked};
ghost use Rattle.scopes.specs.Scopes.{declared_in, loops_in};

use crate::conditions::{Check, excess_of};
use affine_checks::interval_of_loop;
use c_tree::{OutOfMemory, Stmt, Stmts};
use scopes::{Around, Declared, NameSet, Scope};
use std::alloc::Global;

/// Why a walk ends early.
#[derive(Clone, Copy)]
pub enum Stop {
    /// The condition holds at this item, with so much.
    Found { item: u32, count: u64 },
    OutOfMemory,
}

impl From<OutOfMemory> for Stop {
    ghost use Rattle.kernel_check.specs.declared.walk.Stop.{Stop};

    ghost from_gives = { λ _ stop. stop ≡ Stop.OutOfMemory };

    fn from(_error: OutOfMemory) -> Stop {
        Stop::OutOfMemory
    }
}

fn after(at: u32) -> u32
    ensures { at < 2 ^ 31 → result ≡ at + 1 }
{
    at.saturating_add(1)
}

fn met_at(alloc: Global, check: Check, sc: &Scope<'_, '_>, s: &Stmt, at: u32) -> Result<(), Stop>
    requires { IsRanged check sc.now }
    ensures { IsMet (excess check (declared_in sc.now.declared.now) (item_in sc.now (stmt s.now))) at result }
{
    match excess_of(alloc, check, sc, s) {
        Ok(Some(count)) => Err(Stop::Found { item: at, count }),
        Ok(None) => Ok(()),
        Err(_) => Err(Stop::OutOfMemory),
    }
}

// The number after those of a statement, unless the condition holds at one of its items.
#[cycle(walk)]
pub fn first_in<'x, 'n>(
    alloc: Global,
    check: Check,
    sc: &Scope<'x, 'n>,
    s: &'x Stmt,
    at: u32,
) -> Result<u32, Stop>
    requires { IsRanged check sc.now }
    ensures { Walked (excess check (declared_in sc.now.declared.now)) at (inner (stmt s.now) (loops_in sc.now.around.now) sc.now.tables.now) result }
{
    match s {
        Stmt::Begin => Ok(at),
        Stmt::For {
            var,
            lo,
            rel,
            hi,
            body,
        } => {
            met_at(alloc, check, sc, s, at)?;
            let interval = interval_of_loop(sc, lo, *rel, hi);
            let around = Around::Within(var, lo, *rel, hi, interval, sc.around);
            let inner = Scope {
                declared: sc.declared,
                tables: sc.tables,
                around: &around,
            };
            first_in_all(alloc, check, &inner, body, after(at))
        }
        Stmt::If { then, other, .. } => {
            met_at(alloc, check, sc, s, at)?;
            let next = first_in_all(alloc, check, sc, then, after(at))?;
            first_in_all(alloc, check, sc, other, next)
        }
        _ => {
            met_at(alloc, check, sc, s, at)?;
            Ok(after(at))
        }
    }
}

#[cycle(walk)]
fn first_in_all<'x, 'n>(
    alloc: Global,
    check: Check,
    sc: &Scope<'x, 'n>,
    body: &'x Stmts,
    at: u32,
) -> Result<u32, Stop>
    requires { IsRanged check sc.now }
    ensures { Walked (excess check (declared_in sc.now.declared.now)) at (inner_all (stmts body.now) (loops_in sc.now.around.now) sc.now.tables.now) result }
{
    let mut next = at;
    for s in body.as_slice() {
        next = first_in(alloc, check, sc, s, next)?;
    }
    Ok(next)
}
