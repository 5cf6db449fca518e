//! The words of the command line. Single words are tested here; how many there are, and which is which, clap says.

ghost use Rattle.std.specs.Prelude.{◌≡◌, codes, map, string_bytes, IfOk, MatchResult};
ghost use Rattle.std.specs.List.{list_all};
ghost use Rattle.command_line.specs.Commands.{IsInRange, Orders, OrdersNone};
ghost use Rattle.command_line.specs.Forms.{IsMode};
ghost use Rattle.command_line.specs.Orders.{is_name as is_name_of, number_of as number_in};

use crate::forms::{Run, name_of, run_of};
use std::alloc::Global;
use text_pieces::number;
use thiserror::Error;

const MOST_DIGITS: usize = 5;

const LAST_NUMBER: u64 = 399;

/// What the words order.
#[derive(Clone, Copy)]
pub enum Command<'a> {
    Print {
        source: &'a str,
    },
    Run {
        file: &'a str,
        input: &'a str,
        flip: Option<&'a str>,
    },
    Attempt {
        source: &'a str,
        input: &'a str,
        flip: Option<&'a str>,
    },
    Report {
        source: &'a str,
    },
    Demo {
        number: u32,
    },
}

/// Why words order nothing.
#[derive(Clone, Copy, Debug, PartialEq, Eq, Error)]
pub enum WordsError {
    #[error("usage")]
    Usage,
    #[error("out of memory")]
    OutOfMemory,
}

// Not empty, and no option.
fn is_name(word: &str) -> bool
    ensures { result ≡ is_name_of word.now }
{
    match word.as_bytes() {
        [] => false,
        [first, ..] => *first != b'-',
    }
}

fn are_names(words: &[String]) -> bool
    ensures { result ≡ list_all is_name_of (map string_bytes words.now) }
{
    words.iter().all(|word| is_name(word.as_str()))
}

// The number of a demonstration, in one to five digits.
fn number_of(word: &str) -> Option<u32>
    ensures { result ≡ number_in word.now }
{
    let digits = word.as_bytes();
    if digits.len() > MOST_DIGITS {
        return None;
    }
    match number(10, digits) {
        Some(value) if value <= LAST_NUMBER => Some(value as u32),
        _ => None,
    }
}

fn print_of<'a>(
    alloc: Global,
    mode: &'a str,
    words: &'a [String],
) -> Result<Command<'a>, WordsError>
    requires mode { mode.now ≡ codes "print" }
    requires words { IsMode (map string_bytes words.now) mode.now }
    ensures { MatchResult result (Orders (map string_bytes words.entry.now)) (OrdersNone (map string_bytes words.entry.now)) }
{
    match name_of(alloc, mode, words) {
        Ok(source) => Ok(Command::Print { source }),
        Err(why) => Err(why),
    }
}

fn report_of<'a>(
    alloc: Global,
    mode: &'a str,
    words: &'a [String],
) -> Result<Command<'a>, WordsError>
    requires mode { mode.now ≡ codes "report" }
    requires words { IsMode (map string_bytes words.now) mode.now }
    ensures { MatchResult result (Orders (map string_bytes words.entry.now)) (OrdersNone (map string_bytes words.entry.now)) }
{
    match name_of(alloc, mode, words) {
        Ok(source) => Ok(Command::Report { source }),
        Err(why) => Err(why),
    }
}

fn demo_of<'a>(alloc: Global, mode: &'a str, words: &'a [String]) -> Result<Command<'a>, WordsError>
    requires mode { mode.now ≡ codes "demo" }
    requires words { IsMode (map string_bytes words.now) mode.now }
    ensures { MatchResult result (Orders (map string_bytes words.entry.now)) (OrdersNone (map string_bytes words.entry.now)) }
{
    match name_of(alloc, mode, words) {
        Ok(word) => match number_of(word) {
            Some(number) => Ok(Command::Demo { number }),
            None => Err(WordsError::Usage),
        },
        Err(why) => Err(why),
    }
}

fn run_file_of<'a>(
    alloc: Global,
    mode: &'a str,
    words: &'a [String],
) -> Result<Command<'a>, WordsError>
    requires mode { mode.now ≡ codes "run" }
    requires words { IsMode (map string_bytes words.now) mode.now }
    ensures { MatchResult result (Orders (map string_bytes words.entry.now)) (OrdersNone (map string_bytes words.entry.now)) }
{
    match run_of(alloc, mode, words) {
        Ok(Run { file, input, flip }) => Ok(Command::Run { file, input, flip }),
        Err(why) => Err(why),
    }
}

fn attempt_of<'a>(
    alloc: Global,
    mode: &'a str,
    words: &'a [String],
) -> Result<Command<'a>, WordsError>
    requires mode { mode.now ≡ codes "try" }
    requires words { IsMode (map string_bytes words.now) mode.now }
    ensures { MatchResult result (Orders (map string_bytes words.entry.now)) (OrdersNone (map string_bytes words.entry.now)) }
{
    match run_of(alloc, mode, words) {
        Ok(Run { file, input, flip }) => Ok(Command::Attempt {
            source: file,
            input,
            flip,
        }),
        Err(why) => Err(why),
    }
}

// The command of a mode, on words of which all but the first are names.
fn by_mode<'a>(alloc: Global, mode: &'a str, words: &'a [String]) -> Result<Command<'a>, WordsError>
    requires { IsMode (map string_bytes words.now) mode.now }
    ensures { MatchResult result (Orders (map string_bytes words.entry.now)) (OrdersNone (map string_bytes words.entry.now)) }
{
    match mode {
        "print" => print_of(alloc, mode, words),
        "run" => run_file_of(alloc, mode, words),
        "try" => attempt_of(alloc, mode, words),
        "report" => report_of(alloc, mode, words),
        "demo" => demo_of(alloc, mode, words),
        _ => Err(WordsError::Usage),
    }
}

// The command of a mode and names.
fn ordered_by<'a>(alloc: Global, words: &'a [String]) -> Result<Command<'a>, WordsError>
    ensures { MatchResult result (Orders (map string_bytes words.entry.now)) (OrdersNone (map string_bytes words.entry.now)) }
{
    match words {
        [mode, names @ ..] => {
            if are_names(names) {
                by_mode(alloc, mode.as_str(), words)
            } else {
                Err(WordsError::Usage)
            }
        }
        [] => Err(WordsError::Usage),
    }
}

/// The command, where the words are in form.
pub fn command_of<'a>(alloc: Global, words: &'a [String]) -> Result<Command<'a>, WordsError>
    ensures orders { MatchResult result (Orders (map string_bytes words.entry.now)) (OrdersNone (map string_bytes words.entry.now)) }
    ensures range { IfOk result IsInRange }
{
    ordered_by(alloc, words)
}
