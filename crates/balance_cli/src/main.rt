//! Prints the instrumented text of a source, and runs a source, its instrumented unit or a printed
//! text on a data file, with a flip of one bit or without. `main` gives the top call the arguments,
//! the files of the system and the standard streams.
#![tactic(auto)]

ghost use Rattle.std.specs.Prelude.{◌≡◌, IfOk, drop};
ghost use Rattle.std.specs.Vec.Iter.{into_iter_items};

use command_line::{Status, no_memory};
use edge::{FileShelf, StdSink};
use std::alloc::{AllocError, Global};
use std::env;
use std::io::ErrorKind;
use std::process::ExitCode;
use top_call::balance;

// The words after the program's name.
fn words_of(alloc: Global, mut args: env::Args) -> Result<Vec<String>, AllocError>
    ensures { IfOk result (λ words. words.items ≡ drop 1 (into_iter_items args)) }
{
    let mut words = Vec::new(alloc);
    let _program = args.next();
    for word in args {
        words.push(word)?;
    }
    Ok(words)
}

fn run(rt: &HostRuntime) -> Status {
    let mut shelf = FileShelf::new(rt);
    let mut out = StdSink::new(rt.stdout());
    let mut err = StdSink::new(rt.stderr());
    match env::args(rt) {
        Ok(args) => match words_of(rt.alloc(), args) {
            Ok(words) => balance(rt.alloc(), &words, &mut shelf, &mut out, &mut err),
            Err(_) => no_memory(&mut err),
        },
        Err(error) if error.kind() == ErrorKind::OutOfMemory => no_memory(&mut err),
        // An argument that isn't UTF-8 is in no form.
        Err(_) => balance(rt.alloc(), &[], &mut shelf, &mut out, &mut err),
    }
}

fn main(rt: HostRuntime) -> ExitCode {
    ExitCode::from(run(&rt).code())
}
