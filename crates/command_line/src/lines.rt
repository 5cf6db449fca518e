//! The lines on the error stream.

ghost use Rattle.std.specs.Prelude.{◌≡◌, IfOk, string_bytes};
ghost use Rattle.command_line.specs.Tried.{Tries};
ghost use Rattle.command_line.specs.Commands.{given, ordered};
ghost use Rattle.command_line.specs.Lines.{line_of, usage_line, write_line, memory_line, fault_line, too_long_line, refused_line, flip_name as flip_name_at, by_word as by_word_at, name_of as name_at};
ghost use Rattle.command_line.specs.Refusals.{refusal_text as text_of};

use crate::flip_refusals::flip_refusal_text;
use crate::outcome::{FileWord, Stop};
use crate::refusals::refusal_text;
use crate::status::Status;
use crate::words::Command;
use c_tree::{OutOfMemory, Refusal};
use edge::{ByteList, Sink, write_all};
use std::alloc::{AllocError, Global};
use text_writer::Writer;

const NO_MEMORY: &[u8] = b"balance: no memory\n";

/// The line of words that are in no form.
pub fn usage() -> &'static [u8]
    ensures { result.now ≡ usage_line }
{
    b"balance: usage: print [--split] SOURCE | run FILE DATA [FLIP] | try SOURCE DATA [FLIP] | report SOURCE | demo NUMBER\n"
}

/// The line of an output that failed.
pub fn cannot_write() -> &'static [u8]
    ensures { result.now ≡ write_line }
{
    b"balance: cannot write\n"
}

// The first where there is no flip.
fn flip_name<'a>(flip: Option<&'a str>, first: &'a str) -> &'a str
    ensures { result.now ≡ flip_name_at (given flip.entry) first.entry.now }
{
    match flip {
        Some(name) => name,
        None => first,
    }
}

// The second for data, the flip's for a flip, and else the first.
fn by_word<'a>(word: FileWord, first: &'a str, second: &'a str, flip: Option<&'a str>) -> &'a str
    ensures { result.now ≡ by_word_at word first.entry.now second.entry.now (given flip.entry) }
{
    match word {
        FileWord::Data => second,
        FileWord::Flip => flip_name(flip, first),
        FileWord::Source | FileWord::File => first,
    }
}

// The name of a file of a command.
fn name_of<'a>(command: Command<'a>, word: FileWord) -> &'a str
    ensures { result.now ≡ name_at (ordered command.entry) word }
{
    match command {
        Command::Print { source } | Command::Report { source } => source,
        Command::Demo { .. } => "",
        Command::Run { file, input, flip } => by_word(word, file, input, flip),
        Command::Attempt {
            source,
            input,
            flip,
        } => by_word(word, source, input, flip),
    }
}

fn fault(alloc: Global, name: &str) -> Result<String, AllocError>
    ensures { IfOk result (λ line. string_bytes line ≡ fault_line name.now) }
{
    format!(in alloc; "balance: cannot read {name}\n")
}

fn too_long(alloc: Global, name: &str, limit: usize) -> Result<String, AllocError>
    ensures { IfOk result (λ line. string_bytes line ≡ too_long_line name.now limit) }
{
    format!(in alloc; "balance: {name} is longer than {limit} bytes\n")
}

fn refused(alloc: Global, name: &str, refusal: Refusal) -> Result<String, AllocError>
    ensures { IfOk result (λ line. string_bytes line ≡ refused_line name.now (text_of refusal)) }
{
    let why = refusal_text(alloc, refusal)?;
    format!(in alloc; "balance: {name}: {why}\n")
}

// The words of a data file's refusal, and of a flip file's, are bytes.
fn refused_in(alloc: Global, name: &str, why: &[u8]) -> Result<ByteList, OutOfMemory>
    ensures { IfOk result (λ line. line ≡ refused_line name.now why.now) }
{
    let mut line = Writer::new(alloc);
    line.put(b"balance: ");
    line.put(name.as_bytes());
    line.put(b": ");
    line.put(why);
    line.put(b"\n");
    Ok(ByteList::new(line.finish()?))
}

fn bytes_of(line: String) -> ByteList
    ensures { result ≡ string_bytes line }
{
    ByteList::new(line.into_bytes())
}

/// The line of a cause.
pub fn line(alloc: Global, command: Command<'_>, cause: &Stop) -> Result<ByteList, OutOfMemory>
    ensures { IfOk result (λ line. line ≡ line_of (ordered command.entry) cause.now) }
{
    match cause {
        Stop::ReadFault(word) => Ok(bytes_of(fault(alloc, name_of(command, *word))?)),
        Stop::TooLong(word) => Ok(bytes_of(too_long(
            alloc,
            name_of(command, *word),
            word.limit(),
        )?)),
        Stop::SourceRefused(refusal) => Ok(bytes_of(refused(
            alloc,
            name_of(command, FileWord::Source),
            *refusal,
        )?)),
        Stop::DataRefused(why) => refused_in(
            alloc,
            name_of(command, FileWord::Data),
            why.as_slice(),
        ),
        Stop::FlipRefused(refusal) => refused_in(
            alloc,
            name_of(command, FileWord::Flip),
            flip_refusal_text(*refusal),
        ),
        Stop::NoMemory => Ok(bytes_of(String::from_str(alloc, "balance: no memory\n")?)),
    }
}

/// Writes a line. What fails here changes nothing else.
pub fn try_line<E: Sink>(err: &mut E, line: &[u8])
    ensures { Tries (E.held err.old) (E.held err.new) line.now }
{
    let _ = write_all(err, line);
}

/// Says that memory is wanting.
pub fn no_memory<E: Sink>(err: &mut E) -> Status
    ensures status { result ≡ Status.NoMemory }
    ensures line { Tries (E.held err.old) (E.held err.new) memory_line }
{
    try_line(err, NO_MEMORY);
    Status::NoMemory
}
