//! The words of each mode, read with clap: one simple command a mode.

ghost use Rattle.std.specs.Prelude.{◌≡◌, ◌≢◌, map, string_bytes, true, codes, IfOk, MatchResult, Err};
ghost use Rattle.clap.specs.Words.{app_of, is_simple_and_free, takes};
ghost use Rattle.command_line.specs.Commands.{given};
ghost use Rattle.command_line.specs.Forms.{IsMode, IsNotOne, IsNotRun, IsOne, IsRead, IsRun, name_form, run_form};

use crate::words::WordsError;
use clap::error::ErrorKind;
use clap::{Arg, ArgMatches, Command};
use std::alloc::{AllocError, Global};

/// The words of a mode with two names and maybe a third.
#[derive(Clone, Copy)]
pub struct Run<'a> {
    pub file: &'a str,
    pub input: &'a str,
    pub flip: Option<&'a str>,
}

fn name_command<'a>(alloc: Global, mode: &'a str) -> Result<Command<'a>, AllocError>
    ensures { IfOk result (λ command. app_of command ≡ name_form mode.entry.now) }
{
    let name = Arg::new(alloc, "name").required(true);
    Command::new(alloc, mode).arg(name)
}

fn run_command<'a>(alloc: Global, mode: &'a str) -> Result<Command<'a>, AllocError>
    ensures { IfOk result (λ command. app_of command ≡ run_form mode.entry.now) }
{
    let file = Arg::new(alloc, "file").required(true);
    let data = Arg::new(alloc, "data").required(true);
    let flip = Arg::new(alloc, "flip");
    let one = Command::new(alloc, mode).arg(file)?;
    let two = one.arg(data)?;
    two.arg(flip)
}

// What clap makes of the words, whatever they are.
fn parsed<'a>(command: Command<'a>, words: &'a [String]) -> Result<ArgMatches<'a>, WordsError>
    ensures taken { is_simple_and_free (app_of command.entry) ≡ true → IfOk result (IsRead (app_of command.entry) (map string_bytes words.entry.now)) }
    ensures usage { result ≡ Err WordsError.Usage → takes (app_of command.entry) (map string_bytes words.entry.now) ≢ true }
{
    match command.try_get_matches_from(words) {
        Ok(matches) => Ok(matches),
        Err(error) => {
            if error.kind() == ErrorKind::OutOfMemory {
                Err(WordsError::OutOfMemory)
            } else {
                Err(WordsError::Usage)
            }
        }
    }
}

/// The one name behind the mode.
pub fn name_of<'a>(alloc: Global, mode: &'a str, words: &'a [String]) -> Result<&'a str, WordsError>
    requires { IsMode (map string_bytes words.now) mode.now }
    ensures { MatchResult result (λ name. IsOne (map string_bytes words.entry.now) name.now) (λ why. why ≡ WordsError.Usage → IsNotOne (map string_bytes words.entry.now)) }
{
    let Ok(command) = name_command(alloc, mode) else {
        return Err(WordsError::OutOfMemory);
    };
    match parsed(command, words) {
        Ok(matches) => Ok(matches.get_str("name").unwrap()),
        Err(why) => Err(why),
    }
}

/// The names of a text, of its data and maybe of a flip, behind the mode.
pub fn run_of<'a>(alloc: Global, mode: &'a str, words: &'a [String]) -> Result<Run<'a>, WordsError>
    requires { IsMode (map string_bytes words.now) mode.now }
    ensures { MatchResult result (λ run. IsRun (map string_bytes words.entry.now) run.file.now run.input.now (given run.flip)) (λ why. why ≡ WordsError.Usage → IsNotRun (map string_bytes words.entry.now)) }
{
    let Ok(command) = run_command(alloc, mode) else {
        return Err(WordsError::OutOfMemory);
    };
    match parsed(command, words) {
        Ok(matches) => Ok(Run {
            file: matches.get_str("file").unwrap(),
            input: matches.get_str("data").unwrap(),
            flip: matches.get_str("flip"),
        }),
        Err(why) => Err(why),
    }
}
