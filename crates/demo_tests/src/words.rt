//! Words that order something, and words that don't.

use command_line::{Command, WordsError, command_of};
use std::alloc::{AllocError, Global};
use std::test::Fail;

fn words_of(alloc: Global, line: &str) -> Result<Vec<String>, AllocError> {
    let mut words = Vec::new(alloc);
    for word in line.split(' ') {
        words.push(String::from_str(alloc, word)?)?;
    }
    Ok(words)
}

// What the words of a line order, as a line.
fn told(alloc: Global, line: &str) -> Result<String, AllocError> {
    let words = words_of(alloc, line)?;
    match command_of(alloc, words.as_slice()) {
        Ok(Command::Print { source }) => format!(in alloc; "print {source}"),
        Ok(Command::Report { source }) => format!(in alloc; "report {source}"),
        Ok(Command::Run { file, input, flip }) => {
            let flip = flip.unwrap_or("-");
            format!(in alloc; "run {file} {input} {flip}")
        }
        Ok(
            Command::Attempt {
                source,
                input,
                flip,
            },
        ) => {
            let flip = flip.unwrap_or("-");
            format!(in alloc; "try {source} {input} {flip}")
        }
        Ok(Command::Demo { number }) => format!(in alloc; "demo {number}"),
        Err(WordsError::Usage) => String::from_str(alloc, "usage"),
        Err(WordsError::OutOfMemory) => String::from_str(alloc, "memory"),
    }
}

#[test]
fn takes_words_in_form(rt: HostRuntime) -> Result<(), Fail> {
    let lines = [
        ("print k1.c", "print k1.c"),
        ("report k1.c", "report k1.c"),
        ("run k1.c d1", "run k1.c d1 -"),
        ("run k1.c d1 f1", "run k1.c d1 f1"),
        ("try k1.c d1", "try k1.c d1 -"),
        ("try k1.c d1 f1", "try k1.c d1 f1"),
        ("print print", "print print"),
        ("print help", "print help"),
        ("print a=b", "print a=b"),
        ("demo 0", "demo 0"),
        ("demo 399", "demo 399"),
        ("demo 007", "demo 7"),
        ("demo 00399", "demo 399"),
    ];
    for (line, order) in lines {
        assert_eq!(rt; told(rt.alloc(), line)?.as_str(), order);
    }
    Ok(())
}

#[test]
fn refuses_other_words(rt: HostRuntime) -> Result<(), Fail> {
    let lines = [
        "",
        "print",
        "report",
        "run",
        "try k1.c",
        "run k1.c",
        "print k1.c k2.c",
        "run a b c d",
        "fly k1.c",
        "Print k1.c",
        "help",
        "--help",
        "print ",
        "run k1.c  f1",
        "print -x",
        "print -",
        "print --",
        "print --help",
        "print -- k1.c",
        "print --split --split k1.c",
        "run k1.c -x",
        "demo",
        "demo 400",
        "demo 000007",
        "demo 1x",
        "demo +1",
        "demo -1",
        "demo 0x1",
        "demo 1 2",
        "demo 99999",
    ];
    for line in lines {
        assert_eq!(rt; told(rt.alloc(), line)?.as_str(), "usage");
    }
    Ok(())
}

#[test]
fn refuses_no_words(rt: HostRuntime) -> Result<(), Fail> {
    let words: Vec<String> = Vec::new(rt.alloc());
    let refused = match command_of(rt.alloc(), words.as_slice()) {
        Ok(_) => false,
        Err(why) => why == WordsError::Usage,
    };
    assert!(rt; refused);
    Ok(())
}
