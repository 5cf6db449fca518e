//! The printer: the text of a unit, of a source or a printed one, as `c_tree` defines its layout. The text is
//! written piece by piece into one writer, which remembers to its end that memory ran out.
#![tactic(auto)]

mod expressions;
mod head;
mod marks;
mod power;
mod scope;
mod statements;
mod text;

ghost use Rattle.std.specs.Prelude.{◌≡◌, [], IfOk};
ghost use Rattle.c_tree.specs.Trees.{unit as unit_in};
ghost use Rattle.c_tree.specs.Layout.{layout};
ghost use Rattle.c_printer.specs.Before as before;
ghost use Rattle.c_printer.specs.Scopes.{scope_in};
ghost use Rattle.text_writer.specs.Written.{Adds};

use c_tree::{OutOfMemory, SignedNames, Unit, array_names, int_names};
use head::{put_head, put_version, put_wides, put_words};
use scope::Scope;
use statements::put_stmts;
use std::alloc::Global;
use text_writer::Writer;

// Everything behind the brace of the function.
fn put_body(out: &mut Writer, scope: &Scope<'_>, unit: &Unit)
    ensures { Adds out.old out.new (before.body_before (scope_in scope.now) (unit_in unit.now)) }
{
    put_words(out, &unit.words);
    put_wides(out, &unit.wides);
    put_stmts(out, scope, 1, &unit.body);
    out.put(b"}\n");
}

// The text of a unit with these names.
fn written(alloc: Global, scope: &Scope<'_>, unit: &Unit) -> Result<Vec<u8>, OutOfMemory>
    ensures { IfOk result (λ text. text.items ≡ before.whole_before (scope_in scope.now) (unit_in unit.now) []) }
{
    let mut out = Writer::new(alloc);
    put_version(&mut out, unit.version);
    put_head(&mut out, scope, unit);
    put_body(&mut out, scope, unit);
    Ok(out.finish()?)
}

/// The text of a unit.
pub fn print(alloc: Global, unit: &Unit) -> Result<Vec<u8>, OutOfMemory>
    ensures { IfOk result (λ text. text.items ≡ layout (unit_in unit.now)) }
{
    let arrays = array_names(alloc, unit.params.as_slice())?;
    let ints = int_names(alloc, unit.params.as_slice())?;
    let signed = SignedNames::Parameters(ints.as_slice());
    let scope = Scope {
        arrays: arrays.as_slice(),
        signed,
    };
    written(alloc, &scope, unit)
}
