//! The text of statements, a line each.

ghost use Rattle.std.specs.Prelude.{◌++◌, codes};
ghost use Rattle.c_tree.specs.Names.{words};
ghost use Rattle.c_tree.specs.Plain as plain;
ghost use Rattle.c_tree.specs.Trees.{expr, tests as tests_in, a_test, stmt, stmts};
ghost use Rattle.c_tree.specs.Layout as layout;
ghost use Rattle.c_printer.specs.Before as before;
ghost use Rattle.c_printer.specs.Before.{stmt_before};
ghost use Rattle.c_printer.specs.Scopes.{scope_in};
ghost use Rattle.text_writer.specs.Written.{Adds, fixed};

use crate::expressions::{put_comparison, put_expr};
use crate::marks::{bin_mark, rel_mark};
use crate::scope::Scope;
use crate::text::{one_deeper, put_indent, put_index_bit, put_name};
use c_tree::{BinOp, Expr, Kind, Name, Rel, SignedNames, Stmt, Stmts, Tests};
use text_writer::Writer;

fn put_test(out: &mut Writer, scope: &Scope<'_>, test: &(Rel, Expr, Expr))
    ensures { Adds out.old out.new (before.test_before (scope_in scope.now) (a_test test.now)) }
{
    let (rel, a, b) = test;
    let suffix = a.kind(&scope.signed).join(b.kind(&scope.signed)) == Kind::Word;
    put_comparison(out, scope, suffix, *rel, a, b);
}

fn put_tests(out: &mut Writer, scope: &Scope<'_>, tests: &Tests)
    ensures { Adds out.old out.new (before.tests_before (scope_in scope.now) (tests_in tests.now)) }
{
    let [first, rest @ ..] = tests.as_slice() else {
        return;
    };
    put_test(out, scope, first);
    for test in rest {
        out.put(b" && ");
        put_test(out, scope, test);
    }
}

// for (int64_t var = lo; var < hi; var++) {
fn put_loop_start(
    out: &mut Writer,
    scope: &Scope<'_>,
    depth: usize,
    var: &Name,
    lo: &Expr,
    rel: Rel,
    hi: &Expr,
)
    ensures { Adds out.old out.new (before.loop_start (scope_in scope.now) depth var.now.bytes (expr lo.now) rel (expr hi.now)) }
{
    put_indent(out, depth);
    put_name(out, b"for (int64_t ", var, b" = ");
    put_expr(out, scope, false, lo);
    put_name(out, b"; ", var, b" ");
    out.put(rel_mark(rel));
    out.put(b" ");
    put_expr(out, scope, false, hi);
    put_name(out, b"; ", var, b"++) {\n");
}

// if (tests) {
fn put_choice_start(out: &mut Writer, scope: &Scope<'_>, depth: usize, tests: &Tests)
    ensures { Adds out.old out.new (before.choice_start (scope_in scope.now) depth (tests_in tests.now)) }
{
    put_indent(out, depth);
    out.put(b"if (");
    put_tests(out, scope, tests);
    out.put(b") {\n");
}

fn put_assign_mark(out: &mut Writer, op: Option<BinOp>)
    ensures { Adds out.old out.new (fixed (layout.assign_mark op)) }
{
    if let Some(op) = op {
        out.put(bin_mark(op));
    }
    out.put(b"=");
}

fn put_assign(
    out: &mut Writer,
    scope: &Scope<'_>,
    depth: usize,
    target: &Expr,
    op: Option<BinOp>,
    value: &Expr,
)
    ensures { Adds out.old out.new (stmt_before (scope_in scope.now) depth (plain.assign (expr target.now) op (expr value.now))) }
{
    put_indent(out, depth);
    put_expr(out, scope, true, target);
    out.put(b" ");
    put_assign_mark(out, op);
    out.put(b" ");
    put_expr(out, scope, true, value);
    out.put(b";\n");
}

// uint64_t *name = calloc(length, sizeof(uint64_t));
fn put_table_made(out: &mut Writer, scope: &Scope<'_>, depth: usize, name: &Name, length: &Expr)
    ensures { Adds out.old out.new (before.table_made (scope_in scope.now) depth name.now.bytes (expr length.now)) }
{
    put_indent(out, depth);
    put_name(out, b"uint64_t *", name, b" = calloc(");
    put_expr(out, scope, true, length);
    out.put(b", sizeof(uint64_t));\n");
}

// The return where a table wasn't given.
fn put_table_tested(out: &mut Writer, depth: usize, name: &Name)
    ensures { Adds out.old out.new (before.table_tested depth name.now.bytes) }
{
    put_indent(out, depth);
    put_name(out, b"if (", name, b" == 0) { return 1099511627776ull; }\n");
}

fn put_table(out: &mut Writer, scope: &Scope<'_>, depth: usize, name: &Name, length: &Expr)
    ensures { Adds out.old out.new (stmt_before (scope_in scope.now) depth (plain.table name.now.bytes (expr length.now))) }
{
    put_table_made(out, scope, depth, name, length);
    put_table_tested(out, depth, name);
}

// if (name >= (uint64_t)(extent)) {
fn put_check_start(out: &mut Writer, scope: &Scope<'_>, depth: usize, name: &Name, extent: &Expr)
    ensures { Adds out.old out.new (before.check_start (scope_in scope.now) depth name.now.bytes (expr extent.now)) }
{
    put_indent(out, depth);
    put_name(out, b"if (", name, b" >= (uint64_t)(");
    put_expr(out, scope, false, extent);
    out.put(b")) {\n");
}

// The return of a check.
fn put_check_return(out: &mut Writer, depth: usize, array: u32)
    ensures { Adds out.old out.new (before.check_return depth array) }
{
    let inner = one_deeper(out, depth);
    put_indent(out, inner);
    out.put(b"return ");
    put_index_bit(out, array);
    out.put(b"ull;\n");
}

fn put_check(
    out: &mut Writer,
    scope: &Scope<'_>,
    depth: usize,
    name: &Name,
    extent: &Expr,
    array: u32,
)
    ensures { Adds out.old out.new (stmt_before (scope_in scope.now) depth (plain.check name.now.bytes (expr extent.now) array)) }
{
    put_check_start(out, scope, depth, name, extent);
    put_check_return(out, depth, array);
    put_indent(out, depth);
    out.put(b"}\n");
}

// The comparison of an array's totals.
fn put_pair(out: &mut Writer, array: u64)
    ensures { Adds out.old out.new (before.pair_before array) }
{
    out.put(b"(uint64_t)(bal_def");
    out.put_number(array);
    out.put(b" != bal_use");
    out.put_number(array);
    out.put(b") << ");
    out.put_number(array);
}

fn put_verdict(out: &mut Writer, arrays: &[Name])
    ensures { Adds out.old out.new (before.verdict_before (words arrays.now)) }
{
    let [_, rest @ ..] = arrays else {
        return out.put(b"0");
    };
    put_pair(out, 0);
    for (index, _) in rest.iter().enumerate() {
        out.put(b" | ");
        put_pair(out, index as u64 + 1);
    }
}

fn put_return(out: &mut Writer, scope: &Scope<'_>, depth: usize)
    ensures { Adds out.old out.new (stmt_before (scope_in scope.now) depth plain.verdict) }
{
    put_indent(out, depth);
    out.put(b"return ");
    put_verdict(out, scope.arrays);
    out.put(b";\n");
}

/// A statement and the end of its last line.
#[cycle(statements)]
pub fn put_stmt<'x>(out: &mut Writer, scope: &'x Scope<'x>, depth: usize, s: &'x Stmt)
    ensures { Adds out.old out.new (stmt_before (scope_in scope.now) depth (stmt s.now)) }
{
    match s {
        Stmt::For {
            var,
            lo,
            rel,
            hi,
            body,
        } => {
            put_loop_start(out, scope, depth, var, lo, *rel, hi);
            let inner = Scope {
                arrays: scope.arrays,
                signed: SignedNames::Inside(var, &scope.signed),
            };
            put_block(out, &inner, depth, body);
            out.put(b"\n");
        }
        Stmt::If { tests, then, other } => {
            put_choice_start(out, scope, depth, tests);
            put_block(out, scope, depth, then);
            put_else(out, scope, depth, other);
        }
        Stmt::Assign { target, op, value } => put_assign(out, scope, depth, target, *op, value),
        Stmt::Table { name, length } => put_table(out, scope, depth, name, length),
        Stmt::Begin => out.put(b"#pragma balance begin\n"),
        Stmt::Check {
            value,
            extent,
            array,
        } => put_check(out, scope, depth, value, extent, *array),
        Stmt::Verdict => put_return(out, scope, depth),
    }
}

// The statements one level deeper, and the brace behind them.
#[cycle(statements)]
fn put_block<'x>(out: &mut Writer, scope: &'x Scope<'x>, depth: usize, body: &'x Stmts)
    ensures { Adds out.old out.new (before.block_before (scope_in scope.now) depth (stmts body.now)) }
{
    let inner = one_deeper(out, depth);
    put_stmts(out, scope, inner, body);
    put_indent(out, depth);
    out.put(b"}");
}

// The `else`, where there is one, and the end of the line.
#[cycle(statements)]
fn put_else<'x>(out: &mut Writer, scope: &'x Scope<'x>, depth: usize, other: &'x Stmts)
    ensures { Adds out.old out.new (before.else_before (scope_in scope.now) depth (stmts other.now)) }
{
    if other.is_empty() {
        out.put(b"\n");
    } else {
        put_other(out, scope, depth, other);
    }
}

// The `else` with its statements.
#[cycle(statements)]
fn put_other<'x>(out: &mut Writer, scope: &'x Scope<'x>, depth: usize, other: &'x Stmts)
    ensures { Adds out.old out.new (λ rest. codes " else {\n" ++ before.block_before (scope_in scope.now) depth (stmts other.now) (codes "\n" ++ rest)) }
{
    out.put(b" else {\n");
    put_block(out, scope, depth, other);
    out.put(b"\n");
}

/// Statements, one after another.
#[cycle(statements)]
pub fn put_stmts<'x>(out: &mut Writer, scope: &'x Scope<'x>, depth: usize, body: &'x Stmts)
    ensures { Adds out.old out.new (before.stmts_before (scope_in scope.now) depth (stmts body.now)) }
{
    for s in body.as_slice() {
        put_stmt(out, scope, depth, s);
    }
}
