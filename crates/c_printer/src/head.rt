//! The text of a unit's head: everything before its statements.

ghost use Rattle.std.specs.Prelude.{ℤ, map};
ghost use Rattle.c_tree.specs.Names.{words};
ghost use Rattle.c_tree.specs.Trees.{word, exprs, param, unit as unit_in};
ghost use Rattle.c_tree.specs.Layout as layout;
ghost use Rattle.c_printer.specs.Before as before;
ghost use Rattle.c_printer.specs.Scopes.{scope_in};
ghost use Rattle.text_writer.specs.Written.{Adds, fixed};

use crate::expressions::{put_expr, put_literal};
use crate::scope::Scope;
use crate::text::put_name;
use c_tree::{Exprs, Name, NameList, Param, Params, Ranges, Unit, Words, preamble};
use text_writer::Writer;

/// The preamble and the version of a printed unit.
pub fn put_version(out: &mut Writer, version: Option<u8>)
    ensures { Adds out.old out.new (before.version_before version) }
{
    let Some(version) = version else {
        return;
    };
    out.put(preamble());
    out.put(b"#pragma balance version ");
    out.put_number(u64::from(version));
    out.put(b"\n");
}

fn put_int(out: &mut Writer, value: i64)
    ensures { Adds out.old out.new (before.int_before value) }
{
    match format!(in *out.bytes.allocator(); "{value}") {
        Ok(digits) => out.put(digits.as_bytes()),
        Err(_) => out.failed = true,
    }
}

fn put_range(out: &mut Writer, range: &(Name, i64, i64))
    ensures { Adds out.old out.new (before.range_before (word range.now.0, range.now.1, range.now.2)) }
{
    let (name, least, greatest) = range;
    put_name(out, b"#pragma balance range ", name, b" ");
    put_int(out, *least);
    out.put(b" ");
    put_int(out, *greatest);
    out.put(b"\n");
}

fn put_ranges(out: &mut Writer, ranges: &Ranges)
    ensures { Adds out.old out.new (before.ranges_before (map (λ r. (word r.0, r.1, r.2)) ranges.now)) }
{
    for range in ranges.as_slice() {
        put_range(out, range);
    }
}

fn put_result(out: &mut Writer, version: Option<u8>)
    ensures { Adds out.old out.new (fixed (layout.result_text version)) }
{
    match version {
        None => out.put(b"void "),
        Some(_) => out.put(b"uint64_t "),
    }
}

fn put_extents(out: &mut Writer, scope: &Scope<'_>, extents: &Exprs)
    ensures { Adds out.old out.new (before.extents_before (scope_in scope.now) (exprs extents.now)) }
{
    for extent in extents.as_slice() {
        out.put(b"[");
        put_expr(out, scope, false, extent);
        out.put(b"]");
    }
}

fn put_const(out: &mut Writer, constant: bool)
    ensures { Adds out.old out.new (fixed (layout.const_text constant)) }
{
    if constant {
        out.put(b"const ");
    }
}

fn put_param(out: &mut Writer, scope: &Scope<'_>, p: &Param)
    ensures { Adds out.old out.new (before.param_before (scope_in scope.now) (param p.now)) }
{
    match p {
        Param::Int(name) => put_name(out, b"int64_t ", name, b""),
        Param::Array {
            name,
            constant,
            extents,
        } => {
            put_const(out, *constant);
            put_name(out, b"uint64_t ", name, b"");
            put_extents(out, scope, extents);
        }
    }
}

fn put_params(out: &mut Writer, scope: &Scope<'_>, params: &Params)
    ensures { Adds out.old out.new (before.params_before (scope_in scope.now) (map param params.now)) }
{
    let [first, rest @ ..] = params.as_slice() else {
        return;
    };
    put_param(out, scope, first);
    for p in rest {
        out.put(b", ");
        put_param(out, scope, p);
    }
}

fn put_word(out: &mut Writer, declared: &(Name, u64))
    ensures { Adds out.old out.new (before.word_before (word declared.now.0, declared.now.1)) }
{
    let (name, value) = declared;
    put_name(out, b"  uint64_t ", name, b" = ");
    put_literal(out, true, *value);
    out.put(b";\n");
}

/// The declarations of words.
pub fn put_words(out: &mut Writer, declared: &Words)
    ensures { Adds out.old out.new (before.words_before (map (λ w. (word w.0, w.1)) declared.now)) }
{
    for w in declared.as_slice() {
        put_word(out, w);
    }
}

/// The declarations of words of 128 bits.
pub fn put_wides(out: &mut Writer, names: &NameList)
    ensures { Adds out.old out.new (before.wides_before (words names.now)) }
{
    for name in names.as_slice() {
        put_name(out, b"  unsigned __int128 ", name, b" = 0;\n");
    }
}

// The function's name and its parameters.
fn put_signature(out: &mut Writer, scope: &Scope<'_>, name: &Name, params: &Params)
    ensures { Adds out.old out.new (before.signature_before (scope_in scope.now) name.now.bytes (map param params.now)) }
{
    put_name(out, b"", name, b"(");
    put_params(out, scope, params);
    out.put(b") {\n");
}

/// Everything between the version and the brace of the function.
pub fn put_head(out: &mut Writer, scope: &Scope<'_>, unit: &Unit)
    ensures { Adds out.old out.new (before.head_before (scope_in scope.now) (unit_in unit.now)) }
{
    put_ranges(out, &unit.ranges);
    put_result(out, unit.version);
    put_signature(out, scope, &unit.name, &unit.params);
}
