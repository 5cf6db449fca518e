//! What a command takes of a text, or why it refuses it.

ghost use Rattle.std.specs.Prelude.{◌≡◌, ◌≤◌, length, true, false, MatchResult};
ghost use Rattle.c_parser.specs.Answers.{IsRefused};
ghost use Rattle.c_tree.specs.Grammar.Texts.{IsText};
ghost use Rattle.c_tree.specs.Trees.{unit as tree};
ghost use Rattle.top_call.specs.Sources.{AnySource, AnyText, at_start as moved};
ghost use Rattle.top_call.specs.Stages.{IsRefusedFor, IsSourceOf, IsSourceStop, IsTaken, frame_of, unit_of};

use crate::checking::{checked_source, runnable};
use crate::runnable::Runnable;
use c_parser::parse;
use c_tree::{Refusal, Unit, is_printed};
use command_line::Stop;
use kernel_check::Kernel;
use layout_laws::preamble_tells_the_version;
use std::alloc::Global;
use tree_texts::texts_have_trees;

fn at_start(refusal: Refusal) -> Refusal
    ensures { result ≡ moved refusal }
{
    match refusal {
        Refusal::Syntax { .. } => Refusal::Syntax { byte: 0 },
        other => other,
    }
}

// Why a text is refused that has no unit, where a source is wanted.
fn refused(text: &[u8], refusal: Refusal) -> Refusal
    requires small { length text.now ≤ 16777216 }
    requires refused { IsRefused text.now refusal }
    ensures { IsRefusedFor AnySource text.now result }
{
    if is_printed(text) {
        at_start(refusal)
    } else {
        refusal
    }
}

// The unit of the text, where the text isn't printed.
fn placed(text: &[u8], unit: Unit) -> Result<Unit, Refusal>
    requires { IsText text.now (tree unit) }
    ensures { MatchResult result (λ u. IsSourceOf text.now (tree u)) (IsRefusedFor AnySource text.now) }
{
    texts_have_trees();
    preamble_tells_the_version();
    if is_printed(text) {
        Err(Refusal::Syntax { byte: 0 })
    } else {
        Ok(unit)
    }
}

fn source_unit(alloc: Global, text: &[u8]) -> Result<Unit, Refusal>
    requires { length text.now ≤ 16777216 }
    ensures { MatchResult result (λ u. IsSourceOf text.now (tree u)) (IsRefusedFor AnySource text.now) }
{
    match parse(alloc, text) {
        Ok(unit) => placed(text, unit),
        Err(refusal) => Err(refused(text, refusal)),
    }
}

fn source_of(alloc: Global, text: &[u8]) -> Result<Kernel, Refusal>
    requires { length text.now ≤ 16777216 }
    ensures { MatchResult result (λ k. IsTaken AnySource text.now (tree k.unit) k.frame) (IsRefusedFor AnySource text.now) }
{
    match source_unit(alloc, text) {
        Ok(unit) => checked_source(alloc, unit),
        Err(refusal) => Err(refusal),
    }
}

fn runnable_of(alloc: Global, text: &[u8]) -> Result<Runnable, Refusal>
    requires { length text.now ≤ 16777216 }
    ensures { MatchResult result (λ r. IsTaken AnyText text.now (unit_of r) (frame_of r)) (IsRefusedFor AnyText text.now) }
{
    texts_have_trees();
    match parse(alloc, text) {
        Ok(unit) => runnable(alloc, unit),
        Err(refusal) => Err(refusal),
    }
}

/// The source of a text, where it is accepted.
pub fn source(alloc: Global, text: &[u8]) -> Result<Kernel, Stop>
    requires { length text.now ≤ 16777216 }
    ensures { MatchResult result (λ k. IsTaken AnySource text.now (tree k.unit) k.frame) (IsSourceStop AnySource text.now) }
{
    match source_of(alloc, text) {
        Ok(kernel) => Ok(kernel),
        Err(refusal) => Err(Stop::from(refusal)),
    }
}

/// The source or printed unit of a text, where it is accepted.
pub fn any_text(alloc: Global, text: &[u8]) -> Result<Runnable, Stop>
    requires { length text.now ≤ 16777216 }
    ensures { MatchResult result (λ r. IsTaken AnyText text.now (unit_of r) (frame_of r)) (IsSourceStop AnyText text.now) }
{
    match runnable_of(alloc, text) {
        Ok(runnable) => Ok(runnable),
        Err(refusal) => Err(Stop::from(refusal)),
    }
}
