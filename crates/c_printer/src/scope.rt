//! What the text of an expression depends on: which names are arrays, and which are signed.

ghost use Rattle.std.specs.Prelude.{◌≡◌};
ghost use Rattle.c_tree.specs.Names.{is_among};
ghost use Rattle.c_tree.specs.Trees.{word};
ghost use Rattle.c_printer.specs.Scopes.{scope_in};

use c_tree::{Name, SignedNames, is_named};

/// The arrays, in declared order, and the signed names around a place.
#[derive(Clone, Copy)]
pub struct Scope<'a> {
    pub arrays: &'a [Name],
    pub signed: SignedNames<'a>,
}

pub fn is_array(scope: &Scope<'_>, name: &Name) -> bool
    ensures { result ≡ is_among (scope_in scope.now).arrays (word name.now) }
{
    is_named(scope.arrays, name)
}
