//! The text of expressions.

ghost use Rattle.std.specs.Prelude.{◌≡◌, ◌++◌, true, codes};
ghost use Rattle.c_tree.specs.Trees.{expr, exprs};
ghost use Rattle.c_tree.specs.Layout as layout;
ghost use Rattle.c_printer.specs.Before as before;
ghost use Rattle.c_printer.specs.Before.{expr_before, side_before};
ghost use Rattle.c_printer.specs.Scopes.{scope_in};
ghost use Rattle.text_writer.specs.Written.{Adds};

use crate::marks::{bin_mark, rel_mark, un_mark};
use crate::scope::{Scope, is_array};
use c_tree::{BinOp, Expr, Exprs, Kind, Name, Rel};
use text_writer::Writer;

fn is_bin(e: &Expr) -> bool
    ensures { result ≡ layout.is_bin (expr e.now) }
{
    matches!(e, Expr::Bin(..))
}

fn is_un(e: &Expr) -> bool
    ensures { result ≡ layout.is_un (expr e.now) }
{
    matches!(e, Expr::Un(..))
}

fn is_loose(e: &Expr) -> bool
    ensures { result ≡ layout.is_loose (expr e.now) }
{
    matches!(e, Expr::Bin(BinOp::And | BinOp::Xor | BinOp::Or, _, _))
}

/// A literal, with the suffix of words or without it.
pub fn put_literal(out: &mut Writer, suffix: bool, value: u64)
    ensures { Adds out.old out.new (before.literal_before suffix value) }
{
    out.put_number(value);
    if suffix {
        out.put(b"ull");
    }
}

fn put_big(out: &mut Writer, high: u64, low: u64)
    ensures { Adds out.old out.new (λ rest. codes "bal_wide(" ++ before.literal_before true high (codes ", " ++ before.literal_before true low (codes ")" ++ rest))) }
{
    out.put(b"bal_wide(");
    put_literal(out, true, high);
    out.put(b", ");
    put_literal(out, true, low);
    out.put(b")");
}

// Whether literals under a cast have the suffix.
fn has_suffix_under_cast(scope: &Scope<'_>, e: &Expr) -> bool
    ensures { result ≡ before.suffix_under (scope_in scope.now) (expr e.now) }
{
    e.kind(&scope.signed) != Kind::Signed
}

fn subscript_has_suffix(scope: &Scope<'_>, array: &Name, e: &Expr) -> bool
    ensures { result ≡ layout.subscript_has_suffix (scope_in scope.now) array.now.bytes (expr e.now) }
{
    e.kind(&scope.signed) == Kind::Word || !is_array(scope, array)
}

/// Literals have a suffix where `suffix` says so, but under casts, comparisons and calls, which say it themselves.
#[cycle(expressions)]
pub fn put_expr(out: &mut Writer, scope: &Scope<'_>, suffix: bool, e: &Expr)
    ensures { Adds out.old out.new (expr_before (scope_in scope.now) suffix (expr e.now)) }
{
    match e {
        Expr::Lit(value) => put_literal(out, suffix, *value),
        Expr::Var(name) => out.put(name.bytes.as_slice()),
        Expr::Cell(name, subscripts) => {
            out.put(name.bytes.as_slice());
            put_subscripts(out, scope, name, subscripts);
        }
        Expr::Un(op, a) => {
            out.put(un_mark(*op));
            put_wrapped(out, scope, suffix, is_bin(a) || is_un(a), a);
        }
        Expr::Bin(op, a, b) => {
            put_wrapped(out, scope, suffix, is_bin(a), a);
            out.put(b" ");
            out.put(bin_mark(*op));
            out.put(b" ");
            put_wrapped(out, scope, suffix, is_bin(b), b);
        }
        Expr::Cast(a) => put_cast(out, scope, b"(uint64_t)", a),
        Expr::Test(rel, a, b) => {
            out.put(b"(uint64_t)(");
            put_comparison(out, scope, true, *rel, a, b);
            out.put(b")");
        }
        Expr::Min(a, b) => put_call(out, scope, true, b"umin(", a, b),
        Expr::Max(a, b) => put_call(out, scope, true, b"umax(", a, b),
        Expr::Least(a, b) => put_call(out, scope, false, b"bal_min(", a, b),
        Expr::Greatest(a, b) => put_call(out, scope, false, b"bal_max(", a, b),
        Expr::Widen(a) => put_cast(out, scope, b"(unsigned __int128)", a),
        Expr::Big(high, low) => put_big(out, *high, *low),
    }
}

// In parentheses, or not.
#[cycle(expressions)]
fn put_wrapped(out: &mut Writer, scope: &Scope<'_>, suffix: bool, wrapped: bool, e: &Expr)
    ensures { Adds out.old out.new (before.within wrapped (expr_before (scope_in scope.now) suffix (expr e.now))) }
{
    if !wrapped {
        return put_expr(out, scope, suffix, e);
    }
    out.put(b"(");
    put_expr(out, scope, suffix, e);
    out.put(b")");
}

// A cast, whose text is given.
#[cycle(expressions)]
fn put_cast(out: &mut Writer, scope: &Scope<'_>, cast: &[u8], e: &Expr)
    ensures { Adds out.old out.new (λ rest. cast.now ++ before.within (layout.is_bin (expr e.now)) (expr_before (scope_in scope.now) (before.suffix_under (scope_in scope.now) (expr e.now)) (expr e.now)) rest) }
{
    out.put(cast);
    put_wrapped(out, scope, has_suffix_under_cast(scope, e), is_bin(e), e);
}

/// The two sides of a comparison with its mark between them.
#[cycle(expressions)]
pub fn put_comparison(
    out: &mut Writer,
    scope: &Scope<'_>,
    suffix: bool,
    rel: Rel,
    a: &Expr,
    b: &Expr,
)
    ensures { Adds out.old out.new (λ rest. side_before (scope_in scope.now) suffix (expr a.now) (codes " " ++ (layout.rel_mark rel ++ (codes " " ++ side_before (scope_in scope.now) suffix (expr b.now) rest)))) }
{
    put_wrapped(out, scope, suffix, is_loose(a), a);
    out.put(b" ");
    out.put(rel_mark(rel));
    out.put(b" ");
    put_wrapped(out, scope, suffix, is_loose(b), b);
}

// A call of a function of two arguments, whose name is given with its parenthesis.
#[cycle(expressions)]
fn put_call(out: &mut Writer, scope: &Scope<'_>, suffix: bool, function: &[u8], a: &Expr, b: &Expr)
    ensures { Adds out.old out.new (λ rest. function.now ++ expr_before (scope_in scope.now) suffix (expr a.now) (codes ", " ++ expr_before (scope_in scope.now) suffix (expr b.now) (codes ")" ++ rest))) }
{
    out.put(function);
    put_expr(out, scope, suffix, a);
    out.put(b", ");
    put_expr(out, scope, suffix, b);
    out.put(b")");
}

#[cycle(expressions)]
fn put_subscripts(out: &mut Writer, scope: &Scope<'_>, array: &Name, subscripts: &Exprs)
    ensures { Adds out.old out.new (before.subscripts_before (scope_in scope.now) array.now.bytes (exprs subscripts.now)) }
{
    for e in subscripts.as_slice() {
        out.put(b"[");
        put_expr(out, scope, subscript_has_suffix(scope, array, e), e);
        out.put(b"]");
    }
}
