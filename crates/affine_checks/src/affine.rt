//! Affine expressions, and signed names in data.

ghost use Rattle.std.specs.Prelude.{◌≡◌};
ghost use Rattle.c_tree.specs.Trees.{expr};
ghost use Rattle.acceptance.specs.Affine as spec;
ghost use Rattle.acceptance.specs.Parts as parts;
ghost use Rattle.scopes.specs.Scopes.{scope_in};

use c_tree::{BinOp, Expr, UnOp};
use scopes::Scope;

fn has_name(e: &Expr) -> bool
    ensures { result ≡ spec.has_name (expr e.now) }
{
    match e {
        Expr::Lit(_) => false,
        Expr::Un(_, a) => has_name(a),
        Expr::Bin(_, a, b) => has_name(a) || has_name(b),
        _ => true,
    }
}

fn is_affine_un(op: UnOp) -> bool
    ensures { result ≡ spec.is_affine_un op }
{
    match op {
        UnOp::Neg => true,
        UnOp::Inv => false,
    }
}

fn is_affine_bin(op: BinOp, a: &Expr, b: &Expr) -> bool
    ensures { result ≡ spec.is_affine_bin op (spec.has_name (expr a.now)) (spec.has_name (expr b.now)) }
{
    match op {
        BinOp::Add | BinOp::Sub => true,
        BinOp::Mul => !(has_name(a) && has_name(b)),
        _ => false,
    }
}

/// Whether the expression is affine over the loop variables and `int64_t` parameters in scope.
pub fn is_affine(sc: &Scope<'_, '_>, e: &Expr) -> bool
    ensures { result ≡ spec.is_affine (scope_in sc.now) (expr e.now) }
{
    match e {
        Expr::Lit(_) => true,
        Expr::Var(x) => sc.is_signed_name(x),
        Expr::Un(op, a) => is_affine_un(*op) && is_affine(sc, a),
        Expr::Bin(op, a, b) => is_affine_bin(*op, a, b) && is_affine(sc, a) && is_affine(sc, b),
        _ => false,
    }
}

/// Whether a signed name stands outside subscripts.
pub fn has_signed(sc: &Scope<'_, '_>, e: &Expr) -> bool
    ensures { result ≡ parts.has_signed (scope_in sc.now) (expr e.now) }
{
    match e {
        Expr::Lit(_) => false,
        Expr::Var(x) => sc.is_signed_name(x),
        Expr::Cell(_, _) => false,
        Expr::Un(_, a) => has_signed(sc, a),
        Expr::Bin(_, a, b) => has_signed(sc, a) || has_signed(sc, b),
        Expr::Cast(a) => has_signed(sc, a),
        Expr::Test(_, a, b) => has_signed(sc, a) || has_signed(sc, b),
        Expr::Min(a, b) => has_signed(sc, a) || has_signed(sc, b),
        Expr::Max(a, b) => has_signed(sc, a) || has_signed(sc, b),
        Expr::Least(a, b) => has_signed(sc, a) || has_signed(sc, b),
        Expr::Greatest(a, b) => has_signed(sc, a) || has_signed(sc, b),
        Expr::Widen(a) => has_signed(sc, a),
        Expr::Big(_, _) => false,
    }
}

/// Whether no signed name stands outside casts and subscripts.
pub fn is_data(sc: &Scope<'_, '_>, e: &Expr) -> bool
    ensures { result ≡ parts.is_data (scope_in sc.now) (expr e.now) }
{
    match e {
        Expr::Lit(_) => true,
        Expr::Var(x) => !sc.is_signed_name(x),
        Expr::Cell(_, _) => true,
        Expr::Un(_, a) => is_data(sc, a),
        Expr::Bin(_, a, b) => is_data(sc, a) && is_data(sc, b),
        Expr::Cast(_) => true,
        Expr::Test(_, a, b) => is_data(sc, a) && is_data(sc, b),
        Expr::Min(a, b) => is_data(sc, a) && is_data(sc, b),
        Expr::Max(a, b) => is_data(sc, a) && is_data(sc, b),
        Expr::Least(a, b) => is_data(sc, a) && is_data(sc, b),
        Expr::Greatest(a, b) => is_data(sc, a) && is_data(sc, b),
        Expr::Widen(a) => is_data(sc, a),
        Expr::Big(_, _) => true,
    }
}
