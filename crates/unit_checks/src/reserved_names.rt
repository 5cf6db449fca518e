//! S6: a declared name that is reserved.

ghost use Rattle.std.specs.Prelude.{◌≡◌, map};
ghost use Rattle.std.specs.List.{list_any};
ghost use Rattle.c_tree.specs.Reserved as names;
ghost use Rattle.c_tree.specs.Trees.{param, stmt};
ghost use Rattle.acceptance.specs.Items.{param_name};
ghost use Rattle.acceptance.specs.Sources as sources;
ghost use Rattle.scopes.specs.Names.{words_in};
ghost use Rattle.scopes.specs.Scopes.{declared_in};

use crate::name_lists::name_of;
use c_tree::{Name, Param, Stmt};
use scopes::Declared;

fn is_reserved(x: &Name) -> bool
    ensures { result ≡ names.is_reserved x.now.bytes }
{
    c_tree::is_reserved(x.bytes.as_slice())
}

/// Whether a loop's variable has a reserved name.
pub fn has_reserved_name(s: &Stmt) -> bool
    ensures { result ≡ sources.at_loop names.is_reserved (stmt s.now) }
{
    match s {
        Stmt::For { var, .. } => is_reserved(var),
        _ => false,
    }
}

fn param_reserved(params: &[Param]) -> bool
    ensures { result ≡ list_any (λ p. names.is_reserved (param_name p)) (map param params.now) }
{
    for p in params {
        if is_reserved(name_of(p)) {
            return true;
        }
    }
    false
}

fn word_reserved(words: &[(Name, u64)]) -> bool
    ensures { result ≡ list_any (λ w. names.is_reserved w.0) (words_in words.now) }
{
    for (name, _) in words {
        if is_reserved(name) {
            return true;
        }
    }
    false
}

/// Whether the function, a parameter, an array or a word has a reserved name.
pub fn head_has_reserved_name(declared: &Declared<'_>) -> bool
    ensures { result ≡ (sources.reserved_name (declared_in declared.now)).head }
{
    let unit = declared.unit;
    is_reserved(&unit.name)
        || param_reserved(unit.params.as_slice())
        || word_reserved(unit.words.as_slice())
}
