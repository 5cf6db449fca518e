//! Trees as tests write them down: an operator or a word before its parts, in parentheses.

use c_tree::{BinOp, Expr, Name, Param, Rel, Stmt, UnOp, Unit};
use itoa::Buffer;
use std::alloc::Global;

/// Where memory runs out the text stays short, and is no tree that a test wants.
fn put(out: &mut Vec<u8>, piece: &[u8]) {
    let _ = out.extend_from_slice(piece);
}

fn put_number(out: &mut Vec<u8>, n: u64) {
    let mut buffer = Buffer::new();
    put(out, buffer.format(n).as_bytes());
}

fn put_signed(out: &mut Vec<u8>, n: i64) {
    let mut buffer = Buffer::new();
    put(out, buffer.format(n).as_bytes());
}

fn put_name(out: &mut Vec<u8>, name: &Name) {
    put(out, name.bytes.as_slice());
}

fn operator(op: BinOp) -> &'static [u8] {
    match op {
        BinOp::Add => b"+",
        BinOp::Sub => b"-",
        BinOp::Mul => b"*",
        BinOp::Div => b"/",
        BinOp::Rem => b"%",
        BinOp::Shl => b"<<",
        BinOp::Shr => b">>",
        BinOp::And => b"&",
        BinOp::Xor => b"^",
        BinOp::Or => b"|",
    }
}

fn sign(op: UnOp) -> &'static [u8] {
    match op {
        UnOp::Neg => b"-",
        UnOp::Inv => b"~",
    }
}

fn relation(rel: Rel) -> &'static [u8] {
    match rel {
        Rel::Lt => b"<",
        Rel::Le => b"<=",
        Rel::Gt => b">",
        Rel::Ge => b">=",
        Rel::Eq => b"==",
        Rel::Ne => b"!=",
    }
}

/// The word before the parts of an expression.
fn word_of(e: &Expr) -> &'static [u8] {
    match e {
        Expr::Lit(_) | Expr::Var(_) | Expr::Cell(_, _) => b"",
        Expr::Un(op, _) => sign(*op),
        Expr::Bin(op, _, _) => operator(*op),
        Expr::Cast(_) => b"word",
        Expr::Test(rel, _, _) => relation(*rel),
        Expr::Min(_, _) => b"umin",
        Expr::Max(_, _) => b"umax",
        Expr::Least(_, _) => b"bal_min",
        Expr::Greatest(_, _) => b"bal_max",
        Expr::Widen(_) => b"wide",
        Expr::Big(_, _) => b"bal_wide",
    }
}

#[cycle(show_expr)]
fn show_expr(out: &mut Vec<u8>, e: &Expr) {
    let word = word_of(e);
    if !word.is_empty() {
        put(out, b"(");
        put(out, word);
        put(out, b" ");
    }
    match e {
        Expr::Lit(n) => put_number(out, *n),
        Expr::Var(name) => put_name(out, name),
        Expr::Cell(name, subscripts) => {
            put_name(out, name);
            show_subscripts(out, subscripts.as_slice());
        }
        Expr::Un(_, a) | Expr::Cast(a) | Expr::Widen(a) => show_expr(out, a),
        Expr::Bin(_, a, b)
        | Expr::Test(_, a, b)
        | Expr::Min(a, b)
        | Expr::Max(a, b)
        | Expr::Least(a, b)
        | Expr::Greatest(a, b) => {
            show_expr(out, a);
            put(out, b" ");
            show_expr(out, b);
        }
        Expr::Big(high, low) => {
            put_number(out, *high);
            put(out, b" ");
            put_number(out, *low);
        }
    }
    if !word.is_empty() {
        put(out, b")");
    }
}

#[cycle(show_expr)]
fn show_subscripts(out: &mut Vec<u8>, subscripts: &[Expr]) {
    for subscript in subscripts {
        put(out, b"[");
        show_expr(out, subscript);
        put(out, b"]");
    }
}

fn show_tests(out: &mut Vec<u8>, tests: &[(Rel, Expr, Expr)]) {
    for (rel, a, b) in tests {
        put(out, b" (");
        put(out, relation(*rel));
        put(out, b" ");
        show_expr(out, a);
        put(out, b" ");
        show_expr(out, b);
        put(out, b")");
    }
}

fn show_assignment(out: &mut Vec<u8>, target: &Expr, op: Option<BinOp>, value: &Expr) {
    put(out, b"(");
    if let Some(op) = op {
        put(out, operator(op));
    }
    put(out, b"= ");
    show_expr(out, target);
    put(out, b" ");
    show_expr(out, value);
    put(out, b")");
}

fn show_bounds(out: &mut Vec<u8>, var: &Name, lo: &Expr, rel: Rel, hi: &Expr) {
    put_name(out, var);
    put(out, b" ");
    show_expr(out, lo);
    put(out, b" ");
    put(out, relation(rel));
    put(out, b" ");
    show_expr(out, hi);
}

fn show_named(out: &mut Vec<u8>, word: &[u8], name: &Name, e: &Expr) {
    put(out, word);
    put_name(out, name);
    put(out, b" ");
    show_expr(out, e);
}

#[cycle(show_stmt)]
fn show_stmt(out: &mut Vec<u8>, s: &Stmt) {
    match s {
        Stmt::For {
            var,
            lo,
            rel,
            hi,
            body,
        } => {
            put(out, b"(for ");
            show_bounds(out, var, lo, *rel, hi);
            show_stmts(out, body.as_slice());
            put(out, b")");
        }
        Stmt::If { tests, then, other } => {
            put(out, b"(if");
            show_tests(out, tests.as_slice());
            put(out, b" then");
            show_stmts(out, then.as_slice());
            put(out, b" else");
            show_stmts(out, other.as_slice());
            put(out, b")");
        }
        Stmt::Assign { target, op, value } => show_assignment(out, target, *op, value),
        Stmt::Table { name, length } => {
            show_named(out, b"(table ", name, length);
            put(out, b")");
        }
        Stmt::Begin => put(out, b"begin"),
        Stmt::Check {
            value,
            extent,
            array,
        } => {
            show_named(out, b"(check ", value, extent);
            put(out, b" ");
            put_number(out, u64::from(*array));
            put(out, b")");
        }
        Stmt::Verdict => put(out, b"verdict"),
    }
}

/// A space and the statement, for each.
#[cycle(show_stmt)]
fn show_stmts(out: &mut Vec<u8>, stmts: &[Stmt]) {
    for s in stmts {
        put(out, b" ");
        show_stmt(out, s);
    }
}

fn show_param(out: &mut Vec<u8>, param: &Param) {
    match param {
        Param::Int(name) => {
            put(out, b" (int ");
            put_name(out, name);
        }
        Param::Array {
            name,
            constant,
            extents,
        } => {
            put(out, if *constant { b" (const " } else { b" (array " });
            put_name(out, name);
            show_subscripts(out, extents.as_slice());
        }
    }
    put(out, b")");
}

fn show_ranges(out: &mut Vec<u8>, ranges: &[(Name, i64, i64)]) {
    for (name, least, greatest) in ranges {
        put(out, b" (range ");
        put_name(out, name);
        put(out, b" ");
        put_signed(out, *least);
        put(out, b" ");
        put_signed(out, *greatest);
        put(out, b")");
    }
}

fn show_words(out: &mut Vec<u8>, words: &[(Name, u64)]) {
    for (name, value) in words {
        put(out, b" (word ");
        put_name(out, name);
        put(out, b" ");
        put_number(out, *value);
        put(out, b")");
    }
}

fn show_names(out: &mut Vec<u8>, word: &[u8], names: &[Name]) {
    for name in names {
        put(out, word);
        put_name(out, name);
        put(out, b")");
    }
}

fn show_params(out: &mut Vec<u8>, params: &[Param]) {
    for param in params {
        show_param(out, param);
    }
}

/// The unit as a test writes it down: its name, and what it has, in order.
pub fn shown_unit(alloc: Global, unit: &Unit) -> Vec<u8> {
    let mut out = Vec::new(alloc);
    put_name(&mut out, &unit.name);
    if let Some(version) = unit.version {
        put(&mut out, b" (version ");
        put_number(&mut out, u64::from(version));
        put(&mut out, b")");
    }
    show_ranges(&mut out, unit.ranges.as_slice());
    show_params(&mut out, unit.params.as_slice());
    show_words(&mut out, unit.words.as_slice());
    show_names(&mut out, b" (wide ", unit.wides.as_slice());
    show_stmts(&mut out, unit.body.as_slice());
    out
}

/// The statements as a test writes them down, a space before each.
pub fn shown(alloc: Global, stmts: &[Stmt]) -> Vec<u8> {
    let mut out = Vec::new(alloc);
    show_stmts(&mut out, stmts);
    out
}

/// The expression as a test writes it down.
pub fn shown_expression(alloc: Global, e: &Expr) -> Vec<u8> {
    let mut out = Vec::new(alloc);
    show_expr(&mut out, e);
    out
}
