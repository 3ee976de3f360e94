//! Runs the cases of the files that its words name, each over a shelf and sinks in memory, and prints a line a case: as
//! expected, or what differs. The last line counts them; the status is 0 where no case is wrong.
//!
//! The head of `reader.rt` has the format of a file. A new case is a few lines there and one of the expected output.
#![tactic(auto)]

mod case;
mod compare;
mod fronts;
mod reader;
mod tally;
mod text;
mod trial;

use case::Case;
use reader::{Reader, begins};
use std::process::ExitCode;
use std::rt::{Env, Files};
use std::thread::Threads;
use std::{env, fs, io};
use tally::{Tally, Verdict};

fn main(rt: HostRuntime) -> ExitCode {
    match judge_files(&rt) {
        Ok(true) => ExitCode::from(0),
        Ok(false) => ExitCode::from(1),
        Err(_) => {
            let _ = eprintln!(rt; "a file was not read, or memory ran out");
            ExitCode::from(1)
        }
    }
}

// Judges the cases of each file that is named, and answers whether all are right.
fn judge_files<R: Env + Files + Print + AllocGlobal + Threads + Sync>(rt: &R) -> io::Result<bool> {
    let mut tally = Tally::new();
    for name in env::args(rt)?.skip(1) {
        let text = fs::read_to_string(rt, name.as_str())?;
        judge_text(rt, &name, &text, &mut tally)?;
    }
    let (cases, differing, wrong) = (tally.cases, tally.differing, tally.wrong);
    println!(rt; "{cases} cases, {differing} of them differ as they should, {wrong} wrong")?;
    Ok(wrong == 0)
}

// Judges each case of a text where the next one begins.
fn judge_text<R: Print + AllocGlobal + Threads + Sync>(
    rt: &R,
    name: &str,
    text: &str,
    tally: &mut Tally,
) -> io::Result<()> {
    let mut reader = Reader::new(rt.alloc());
    for (index, line) in text.split('\n').enumerate() {
        if begins(line) {
            judge_case(rt, reader.take_case(), tally)?;
        }
        if !reader.read_line(line)? {
            tally.count_wrong();
            let number = (index as u64).saturating_add(1);
            println!(rt; "{name}: line {number}: not understood")?;
        }
    }
    judge_case(rt, reader.take_case(), tally)
}

// Runs a case, and prints its line.
fn judge_case<R: Print + AllocGlobal + Threads + Sync>(
    rt: &R,
    case: Option<Case<'_>>,
    tally: &mut Tally,
) -> io::Result<()> {
    let Some(case) = case else {
        return Ok(());
    };
    let told = if case.fronts.is_some() {
        fronts::differences(rt, rt.alloc(), &case)?
    } else {
        compare::differences(rt, rt.alloc(), &case)?
    };
    let name = case.name;
    match tally.count(case.differs, told.is_empty()) {
        Verdict::AsExpected => println!(rt; "{name}: as expected"),
        Verdict::DiffersAsItShould => println!(rt; "{name}: differs as it should: {told}"),
        Verdict::Wrong if told.is_empty() => println!(rt; "{name}: differs in nothing"),
        Verdict::Wrong => println!(rt; "{name}: {told}"),
    }
}
