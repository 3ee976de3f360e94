//! The program: the whole run over the files and streams of the system.
#![tactic(auto)]

mod file_shelf;
mod retry;
mod writer_sink;

use file_shelf::FileShelf;
use std::env;
use std::io::ErrorKind;
use std::process::ExitCode;
use std::rt::Env;
use writer_sink::WriterSink;

/// A word of the command line is not UTF-8.
const UNREADABLE_WORDS: u8 = 1;

/// Memory ran out before the run.
const OUT_OF_MEMORY: u8 = 7;

// The words of the command line, without the program's name, or the status to end with.
fn words_of<R: Env + AllocGlobal>(rt: &R) -> Result<Vec<String>, u8> {
    let mut words = Vec::new(rt.alloc());
    match env::args(rt) {
        Ok(args) => {
            for word in args.skip(1) {
                if words.push(word).is_err() {
                    return Err(OUT_OF_MEMORY);
                }
            }
            Ok(words)
        }
        Err(error) if error.kind() == ErrorKind::OutOfMemory => Err(OUT_OF_MEMORY),
        Err(_) => Err(UNREADABLE_WORDS),
    }
}

fn main(rt: HostRuntime) -> ExitCode {
    let words = match words_of(&rt) {
        Ok(words) => words,
        Err(status) => return ExitCode::from(status),
    };
    let mut shelf = FileShelf::new(&rt, rt.alloc());
    let mut out = WriterSink::new(rt.stdout());
    let mut err = WriterSink::new(rt.stderr());
    let status = sd_tool::run(
        &rt,
        rt.alloc(),
        &words,
        &mut shelf,
        &mut out,
        &mut err,
        &mut None,
    );
    ExitCode::from(status)
}
