//! Of which kind expressions are: signed, words or wide.

ghost use Rattle.std.specs.Prelude.{◌≡◌};
ghost use Rattle.c_tree.specs.KindOf.{kind_shown};
ghost use Rattle.c_tree.specs.Kinds as kinds;
ghost use Rattle.c_tree.specs.Trees.{a_test, expr, exprs};
ghost use Rattle.acceptance.specs.Items as items;
ghost use Rattle.acceptance.specs.Printed as printed;
ghost use Rattle.scopes.specs.Scopes.{scope_in};
ghost use Rattle.unit_checks.specs.Places.{a_literal, a_subscript, names_in, signed_or_word};

use c_tree::{BinOp, Expr, Exprs, Kind, Name, Rel, UnOp};
use scopes::{Declared, Scope};

/// Where an expression stands.
#[derive(Clone, Copy)]
pub enum Place<'a, 'n> {
    Item(&'a Scope<'a, 'n>),
    Head(&'a Declared<'n>),
}

fn is_signed_name(place: Place<'_, '_>, x: &Name) -> bool
    ensures { result ≡ items.is_signed_name (names_in place.entry) x.now.bytes }
{
    match place {
        Place::Item(sc) => sc.is_signed_name(x),
        Place::Head(declared) => declared.is_int(x),
    }
}

fn is_signed_op(op: BinOp) -> bool
    ensures { result ≡ printed.is_signed_op op }
{
    match op {
        BinOp::Add => true,
        BinOp::Sub => true,
        BinOp::Mul => true,
        _ => false,
    }
}

fn is_signed_un(op: UnOp) -> bool
    ensures { result ≡ printed.is_signed_un op }
{
    match op {
        UnOp::Neg => true,
        UnOp::Inv => false,
    }
}

/// Whether an expression is signed; in a bound it may be the lesser or the greater of two.
pub fn is_signed_expr(place: Place<'_, '_>, bound: bool, e: &Expr) -> bool
    ensures { result ≡ printed.is_signed_expr (names_in place.entry) bound (expr e.now) }
{
    match e {
        Expr::Lit(_) => true,
        Expr::Var(x) => is_signed_name(place, x),
        Expr::Un(op, a) => is_signed_un(*op) && is_signed_expr(place, bound, a),
        Expr::Bin(op, a, b) => {
            is_signed_op(*op) && is_signed_expr(place, bound, a) && is_signed_expr(place, bound, b)
        }
        Expr::Least(a, b) => {
            bound && is_signed_expr(place, bound, a) && is_signed_expr(place, bound, b)
        }
        Expr::Greatest(a, b) => {
            bound && is_signed_expr(place, bound, a) && is_signed_expr(place, bound, b)
        }
        _ => false,
    }
}

/// Whether an expression of an item is signed.
pub fn is_signed(sc: &Scope<'_, '_>, bound: bool, e: &Expr) -> bool
    ensures { result ≡ printed.is_signed_expr (scope_in sc.now) bound (expr e.now) }
{
    let place = Place::Item(sc);
    is_signed_expr(place, bound, e)
}

fn kind_of(sc: &Scope<'_, '_>, e: &Expr) -> Kind
    ensures { kind_shown result ≡ printed.kind_of (scope_in sc.now) (expr e.now) }
{
    match e {
        Expr::Lit(_) => Kind::Either,
        Expr::Var(x) => if sc.is_signed_name(x) {
            Kind::Signed
        } else {
            Kind::Word
        },
        Expr::Cell(_, _) => Kind::Word,
        Expr::Un(_, a) => kind_of(sc, a),
        Expr::Bin(_, a, b) => kind_of(sc, a).join(kind_of(sc, b)),
        Expr::Cast(_) => Kind::Word,
        Expr::Test(_, _, _) => Kind::Word,
        Expr::Min(_, _) => Kind::Word,
        Expr::Max(_, _) => Kind::Word,
        Expr::Least(_, _) => Kind::Signed,
        Expr::Greatest(_, _) => Kind::Signed,
        Expr::Widen(_) => Kind::Word,
        Expr::Big(_, _) => Kind::Word,
    }
}

fn is_signed_kind(kind: Kind) -> bool
    ensures { result ≡ kinds.is_signed (kind_shown kind) }
{
    match kind {
        Kind::Signed => true,
        Kind::Either => false,
        Kind::Word => false,
    }
}

fn is_word_kind(kind: Kind) -> bool
    ensures { result ≡ kinds.is_word (kind_shown kind) }
{
    match kind {
        Kind::Word => true,
        Kind::Either => false,
        Kind::Signed => false,
    }
}

#[cycle(reads)]
fn reads_no_array(sc: &Scope<'_, '_>, e: &Expr) -> bool
    ensures { result ≡ printed.reads_no_array (scope_in sc.now) (expr e.now) }
{
    match e {
        Expr::Lit(_) => true,
        Expr::Var(_) => true,
        Expr::Cell(x, at) => !sc.is_array(x) && all_read_no_array(sc, at),
        Expr::Un(_, a) => reads_no_array(sc, a),
        Expr::Bin(_, a, b) => reads_no_array(sc, a) && reads_no_array(sc, b),
        Expr::Cast(a) => reads_no_array(sc, a),
        Expr::Test(_, a, b) => reads_no_array(sc, a) && reads_no_array(sc, b),
        Expr::Min(a, b) => reads_no_array(sc, a) && reads_no_array(sc, b),
        Expr::Max(a, b) => reads_no_array(sc, a) && reads_no_array(sc, b),
        Expr::Least(a, b) => reads_no_array(sc, a) && reads_no_array(sc, b),
        Expr::Greatest(a, b) => reads_no_array(sc, a) && reads_no_array(sc, b),
        Expr::Widen(a) => reads_no_array(sc, a),
        Expr::Big(_, _) => true,
    }
}

#[cycle(reads)]
fn all_read_no_array(sc: &Scope<'_, '_>, es: &Exprs) -> bool
    ensures { result ≡ printed.all_read_no_array (scope_in sc.now) (exprs es.now) }
{
    for e in es.as_slice() {
        if !reads_no_array(sc, e) {
            return false;
        }
    }
    true
}

/// Whether an expression is one of words.
#[cycle(word)]
pub fn is_word_expr(sc: &Scope<'_, '_>, e: &Expr) -> bool
    ensures { result ≡ printed.is_word_expr (scope_in sc.now) (expr e.now) }
{
    match e {
        Expr::Lit(_) => true,
        Expr::Var(x) => sc.declared.is_scalar(x),
        Expr::Cell(x, at) => if sc.is_array(x) {
            are_subscripts(sc, at)
        } else {
            sc.is_table(x) && is_entry(sc, at)
        },
        Expr::Un(_, a) => is_word_expr(sc, a),
        Expr::Bin(_, a, b) => is_word_expr(sc, a) && is_word_expr(sc, b),
        Expr::Cast(a) => is_signed_or_word(sc, a),
        Expr::Test(_, a, b) => is_word_expr(sc, a) && is_word_expr(sc, b),
        Expr::Min(a, b) => is_word_expr(sc, a) && is_word_expr(sc, b),
        Expr::Max(a, b) => is_word_expr(sc, a) && is_word_expr(sc, b),
        Expr::Least(_, _) => false,
        Expr::Greatest(_, _) => false,
        Expr::Widen(_) => false,
        Expr::Big(_, _) => false,
    }
}

/// Under a cast.
#[cycle(word)]
fn is_signed_or_word(sc: &Scope<'_, '_>, e: &Expr) -> bool
    ensures { result ≡ signed_or_word (scope_in sc.now) (expr e.now) }
{
    if is_signed_kind(kind_of(sc, e)) {
        is_signed(sc, false, e)
    } else {
        is_word_expr(sc, e)
    }
}

#[cycle(word)]
fn is_subscript(sc: &Scope<'_, '_>, e: &Expr) -> bool
    ensures { result ≡ a_subscript (scope_in sc.now) (expr e.now) }
{
    if is_word_kind(kind_of(sc, e)) {
        is_word_expr(sc, e) && reads_no_array(sc, e)
    } else {
        is_signed(sc, false, e)
    }
}

#[cycle(word)]
fn are_subscripts(sc: &Scope<'_, '_>, es: &Exprs) -> bool
    ensures { result ≡ printed.are_subscripts (scope_in sc.now) (exprs es.now) }
{
    for e in es.as_slice() {
        if !is_subscript(sc, e) {
            return false;
        }
    }
    true
}

#[cycle(word)]
fn is_entry(sc: &Scope<'_, '_>, es: &Exprs) -> bool
    ensures { result ≡ printed.is_entry (scope_in sc.now) (exprs es.now) }
{
    match es.as_slice() {
        [] => false,
        [e] => is_word_expr(sc, e),
        [_, _, ..] => false,
    }
}

fn is_literal(e: &Expr) -> bool
    ensures { result ≡ a_literal (expr e.now) }
{
    match e {
        Expr::Lit(_) => true,
        _ => false,
    }
}

/// Whether an expression is wide.
#[cycle(wide)]
pub fn is_wide_expr(sc: &Scope<'_, '_>, e: &Expr) -> bool
    ensures { result ≡ printed.is_wide_expr (scope_in sc.now) (expr e.now) }
{
    match e {
        Expr::Var(x) => sc.is_wide(x),
        Expr::Bin(op, a, b) => is_wide_expr(sc, a) && is_wide_side(sc, *op, b),
        Expr::Widen(a) => is_signed_or_word(sc, a),
        Expr::Big(_, _) => true,
        _ => false,
    }
}

#[cycle(wide)]
fn is_wide_side(sc: &Scope<'_, '_>, op: BinOp, b: &Expr) -> bool
    ensures { result ≡ printed.is_wide_bin op (expr b.now) (printed.is_wide_expr (scope_in sc.now) (expr b.now)) }
{
    match op {
        BinOp::Add => is_wide_expr(sc, b),
        BinOp::Mul => is_wide_expr(sc, b),
        BinOp::Div => is_literal(b),
        _ => false,
    }
}

/// Whether both sides of a comparison are signed, or both are words without cells of arrays.
pub fn is_test(sc: &Scope<'_, '_>, test: &(Rel, Expr, Expr)) -> bool
    ensures { result ≡ printed.is_test (scope_in sc.now) (a_test test.now) }
{
    let (_, a, b) = test;
    if is_word_kind(kind_of(sc, a).join(kind_of(sc, b))) {
        is_word_expr(sc, a) && is_word_expr(sc, b) && reads_no_array(sc, a) && reads_no_array(sc, b)
    } else {
        is_signed(sc, false, a) && is_signed(sc, false, b)
    }
}
