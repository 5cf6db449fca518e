//! Which names are signed at a place, and of which kind an expression is.

ghost use Rattle.std.specs.Prelude.{◌≡◌};
ghost use Rattle.c_tree.specs.Kinds as kinds;
ghost use Rattle.c_tree.specs.KindOf.{kind_shown};
ghost use Rattle.c_tree.specs.Names.{is_among, names_around, words};
ghost use Rattle.c_tree.specs.Trees.{expr, word};

use crate::expr::Expr;
use crate::name::Name;

/// The names of the `int64_t` parameters, and of the variables of the loops around, of which the
/// innermost is the outermost of this chain.
#[derive(Clone, Copy)]
pub enum SignedNames<'a> {
    Parameters(&'a [Name]),
    Inside(&'a Name, &'a SignedNames<'a>),
}

/// Whether the name is one of these.
pub fn is_named(names: &[Name], name: &Name) -> bool
    ensures { result ≡ is_among (words names.now) (word name.now) }
{
    for other in names {
        if other.same(name) {
            return true;
        }
    }
    false
}

impl SignedNames<'_> {
    /// Whether a parameter or a loop around has this name.
    pub fn contains(&self, name: &Name) -> bool
        ensures { result ≡ is_among (names_around self.now) (word name.now) }
    {
        match self {
            SignedNames::Parameters(names) => is_named(names, name),
            SignedNames::Inside(variable, around) => variable.same(name) || around.contains(name),
        }
    }
}

/// What an expression is by the names in it.
#[derive(Clone, Copy, Debug, PartialEq, Eq)]
pub enum Kind {
    /// Of literals alone: whichever kind its place takes.
    Either,
    Signed,
    Word,
}

impl Kind {
    /// The kind of an operation or a comparison, by its sides.
    pub fn join(self, other: Kind) -> Kind
        ensures { kind_shown result ≡ kinds.join (kind_shown self) (kind_shown other) }
    {
        match self {
            Kind::Either => other,
            Kind::Signed | Kind::Word => self,
        }
    }
}

impl Expr {
    /// The kind of the expression where these names are signed.
    pub fn kind(&self, signed: &SignedNames<'_>) -> Kind
        ensures { kind_shown result ≡ kinds.kind (is_among (names_around signed.now)) (expr self.now) }
    {
        match self {
            Expr::Lit(_) => Kind::Either,
            Expr::Var(name) => if signed.contains(name) {
                Kind::Signed
            } else {
                Kind::Word
            },
            Expr::Un(_, a) => a.kind(signed),
            Expr::Bin(_, a, b) => a.kind(signed).join(b.kind(signed)),
            Expr::Least(_, _) | Expr::Greatest(_, _) => Kind::Signed,
            Expr::Cell(_, _)
            | Expr::Cast(_)
            | Expr::Test(_, _, _)
            | Expr::Min(_, _)
            | Expr::Max(_, _)
            | Expr::Widen(_)
            | Expr::Big(_, _) => Kind::Word,
        }
    }
}
