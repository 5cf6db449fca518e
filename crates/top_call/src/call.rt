//! The top call.

ghost use Rattle.std.specs.Prelude.{◌≡◌, ◌⊎◌, None, map, string_bytes};
ghost use Rattle.top_call.specs.Calls.{IsWritten, IsCut, IsTold, IsCall};
ghost use Rattle.command_line.specs.Commands.{ordered};
ghost use Rattle.top_call.specs.Met.{met};
ghost use Rattle.command_line.specs.Orders.{order_of};
ghost use Rattle.top_call.specs.Table.{Cause, AsksInOrder, IsComplete, EndsAsDefined};

use crate::stages::prepared;
use c_lexer::one_reading;
use c_parser::one_unit;
use command_line::{
    Command, Output, Status, Stop, WordsError, cannot_write, command_of, finished, line, no_memory,
    status_of, try_line, usage,
};
use data_file::{fits_as_frame, fits_as_meant, one_answer, some_answer};
use demo_kernels::kernels_are_usable;
use edge::{Shelf, Sink, write_all};
use fault_plan::{one_flip_answer, some_flip_answer};
use flip_laws::accepted_sources_tell_of_faults;
use frame_laws::{accepted_units_have_frames, frames_say_the_same, same_frames_act_alike};
use grammar_reading::unit_or_none;
use kernel_check::refused_or_not;
use layout_laws::preamble_tells_the_version;
use source_laws::accepted_sources_are_printed;
use std::alloc::Global;
use tree_texts::{instrumented_units_have_texts, texts_have_trees};

fn refused<E: Sink>(alloc: Global, command: Command<'_>, cause: &Stop, err: &mut E) -> Status
    ensures { IsTold (ordered command.entry) cause.now (E.held err.old) (E.held err.new) result }
{
    match line(alloc, command, cause) {
        Ok(line) => {
            try_line(err, line.as_slice());
            status_of(cause)
        }
        Err(_) => no_memory(err),
    }
}

fn written<O: Sink, E: Sink>(output: &Output, out: &mut O, err: &mut E) -> Status
    ensures { IsWritten output.now (O.held out.old) (O.held out.new) (E.held err.old) (E.held err.new) result
        ⊎ IsCut output.now (O.held out.old) (O.held out.new) (E.held err.old) (E.held err.new) result }
{
    match write_all(out, output.text.as_slice()) {
        Ok(()) => finished(output.finish),
        Err(_) => {
            try_line(err, cannot_write());
            Status::WriteFault
        }
    }
}

fn answered<F: Shelf, O: Sink, E: Sink>(
    alloc: Global,
    words: &[String],
    shelf: &mut F,
    out: &mut O,
    err: &mut E,
) -> Status
    ensures { IsCall (order_of (map string_bytes words.now)) (met F.told shelf.old shelf.new O.held out.old out.new E.held err.old err.new) result }
{
    match command_of(alloc, words) {
        Ok(command) => match prepared(alloc, command, shelf) {
            Ok(output) => written(&output, out, err),
            Err(cause) => refused(alloc, command, &cause, err),
        },
        Err(WordsError::Usage) => {
            try_line(err, usage());
            Status::Usage
        }
        Err(WordsError::OutOfMemory) => no_memory(err),
    }
}

/// Does what the words order. Texts go to `out`, and a line to `err` where there is no text.
/// All memory is taken before the first write.
pub fn balance<F: Shelf, O: Sink, E: Sink>(
    alloc: Global,
    words: &[String],
    shelf: &mut F,
    out: &mut O,
    err: &mut E,
) -> Status
    // All that a call does: the stages in order, the names asked, and what each ending leaves.
    ensures call { IsCall (order_of (map string_bytes words.now)) (met F.told shelf.old shelf.new O.held out.old out.new E.held err.old err.new) result }
    // Each status comes by its cause, with its text and its line.
    ensures cause { Cause (order_of (map string_bytes words.now)) (met F.told shelf.old shelf.new O.held out.old out.new E.held err.old err.new) result }
    // Usage comes by the words alone, and words out of form order nothing.
    ensures usage_only { result ≡ Status.Usage → order_of (map string_bytes words.now) ≡ None }
    ensures usage { order_of (map string_bytes words.now) ≡ None → (result ≡ Status.Usage) ⊎ (result ≡ Status.NoMemory) }
    ensures asked { AsksInOrder (order_of (map string_bytes words.now)) (met F.told shelf.old shelf.new O.held out.old out.new E.held err.old err.new) }
    // Where files are told, there and within their limits, the texts are accepted and no count rises, the text stands whole.
    ensures complete { IsComplete (order_of (map string_bytes words.now)) (met F.told shelf.old shelf.new O.held out.old out.new E.held err.old err.new) result }
    // Whatever files are told, an ending is defined, and the call ends by it, unless a count rises or memory is wanting.
    ensures determined { EndsAsDefined (order_of (map string_bytes words.now)) (met F.told shelf.old shelf.new O.held out.old out.new E.held err.old err.new) result }
{
    one_reading();
    one_unit();
    unit_or_none();
    preamble_tells_the_version();
    texts_have_trees();
    refused_or_not();
    one_answer();
    some_answer();
    one_flip_answer();
    some_flip_answer();
    fits_as_frame();
    fits_as_meant();
    accepted_units_have_frames();
    frames_say_the_same();
    same_frames_act_alike();
    accepted_sources_tell_of_faults();
    accepted_sources_are_printed();
    instrumented_units_have_texts();
    kernels_are_usable();
    answered(alloc, words, shelf, out, err)
}
