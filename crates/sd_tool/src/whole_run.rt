// The whole run: its readings, its commands, and the line of its end.
ghost use Rattle.std.specs.Prelude.{◌≡◌, None, IfOk, map, string_bytes, vec_len};
ghost use Rattle.sd_base.specs.Asked.{Adds};
ghost use Rattle.sd_base.specs.Shelf.{NoFile};
ghost use Rattle.sd_tool.specs.Devices.{seen};
ghost use Rattle.sd_tool.specs.inside.Devices.{contents, faults};
ghost use Rattle.sd_tool.specs.Theorem.{IsCourse, HasEffects, HasEqualTexts, HasLine, HasEnd, IsComplete};
ghost use Rattle.sd_tool.specs.Theorem.{HasFinished};
ghost use Rattle.sd_tool.specs.inside.ByStatus.{IsOneCourse};
ghost use Rattle.sd_tool.specs.Stops.{RunEnds, LeavesFinished};

use crate::execution::{Crew, execute_plan};
use crate::parts::write_line;
use crate::reading::prepare;
use crate::stop::Stop;
use sd_base::{Shelf, Sink};
use sd_manager::Manager;
use sd_parts::{Gate, Open};
use std::alloc::{AllocError, Global};
use std::thread::Threads;

/// Runs the program with these words over a shelf of files, and answers its status:
///
/// - 0 all was done;
/// - 1 the words are refused;
/// - 2 the file of the formula or the circuit, the vtree file, a loaded file or one to be checked is too long or has a
///   fault;
/// - 3 the script is too long or has a fault, or the vtree cannot be moved as a command says;
/// - 4 the total size passes the limit;
/// - 5 an input was not read;
/// - 6 an output or a printed line was not written;
/// - 7 memory ran out;
/// - 8 the arena of the diagrams was full.
///
/// The words are read first, then the file of the formula or the circuit, the vtree file, the script, and the files
/// that it loads; or the vtree file and the file to be checked. No other is asked for, and none after an output. At
/// every status but 0 the one line that says so is written to `err`. At 8 the manager that refused is put into `kept`,
/// which is empty before. Parts of a formula, and starts of which one is chosen, are worked in threads of `rt`.
///
/// At 0 to 4 the shelf tells no failed `finish` that it did not tell before; but at 2 and 3 it may tell that of a file
/// that is too long (`finished`).
///
/// `course` says all of this, by one walk over files and commands: `effects`, `line` and `ends` are its parts, and
/// `complete` follows from it. So do the laws of [`laws`](crate::laws), which speak of no course: what a run without a
/// script writes, of a formula (`written`), by parts (`parted`), over a chosen start (`chosen`) and of a circuit
/// (`circuits`), when it passes its limit (`limited`) and that it is done or does so (`done_or_over_limit`), what a
/// script of four lines writes (`joined`), what a check prints (`checked`), and in which order files are asked for
/// (`asked`).
pub fn run<R: Threads + Sync, F: Shelf, O: Sink, E: Sink>(
    rt: &R,
    alloc: Global,
    words: &[String],
    shelf: &mut F,
    out: &mut O,
    err: &mut E,
    kept: &mut Option<Manager>,
) -> u8
    requires hand { F.hand shelf.old ≡ NoFile }
    requires none { kept.old ≡ None }
    ensures hand { F.hand shelf.new ≡ NoFile }
    ensures course { IsCourse (map string_bytes words.now) result kept.new
        (seen F.Shelf O.Sink E.Sink shelf.old out.old err.old shelf.new out.new err.new) }
    ensures effects { HasEffects (map string_bytes words.now) result
        (seen F.Shelf O.Sink E.Sink shelf.old out.old err.old shelf.new out.new err.new) }
    ensures line { HasLine (map string_bytes words.now) result
        (seen F.Shelf O.Sink E.Sink shelf.old out.old err.old shelf.new out.new err.new) }
    ensures ends { HasEnd (map string_bytes words.now) result kept.new
        (seen F.Shelf O.Sink E.Sink shelf.old out.old err.old shelf.new out.new err.new) }
    ensures complete { IsComplete (map string_bytes words.now) result
        (seen F.Shelf O.Sink E.Sink shelf.old out.old err.old shelf.new out.new err.new) }
    ensures equal_texts { HasEqualTexts (map string_bytes words.now)
        (seen F.Shelf O.Sink E.Sink shelf.old out.old err.old shelf.new out.new err.new) }
    ensures finished { HasFinished result (F.unfinished shelf.old) (F.unfinished shelf.new) }
{
    run_and_report(alloc, open_crew(rt, alloc), words, shelf, out, err, kept)
}

/// Runs the program as [`run`] does, with these 64 gates before the work in threads, and answers its status. It has
/// each clause of that call:
///
/// - 0 all was done;
/// - 1 the words are refused;
/// - 2 the file of the formula or the circuit, the vtree file, a loaded file or one to be checked is too long or has a
///   fault;
/// - 3 the script is too long or has a fault, or the vtree cannot be moved as a command says;
/// - 4 the total size passes the limit;
/// - 5 an input was not read;
/// - 6 an output or a printed line was not written;
/// - 7 memory ran out;
/// - 8 the arena of the diagrams was full.
///
/// A gate is entered before the part of the formula, or the start, that has its number, counted from 0. Those that no
/// part and no start has are dropped.
pub fn run_gated<R: Threads + Sync, F: Shelf, O: Sink, E: Sink, G: Gate + Send + Drop>(
    rt: &R,
    alloc: Global,
    words: &[String],
    shelf: &mut F,
    out: &mut O,
    err: &mut E,
    kept: &mut Option<Manager>,
    gates: Vec<G>,
) -> u8
    requires gates { vec_len gates ≡ 64 }
    requires hand { F.hand shelf.old ≡ NoFile }
    requires none { kept.old ≡ None }
    ensures hand { F.hand shelf.new ≡ NoFile }
    ensures course { IsCourse (map string_bytes words.now) result kept.new
        (seen F.Shelf O.Sink E.Sink shelf.old out.old err.old shelf.new out.new err.new) }
    ensures effects { HasEffects (map string_bytes words.now) result
        (seen F.Shelf O.Sink E.Sink shelf.old out.old err.old shelf.new out.new err.new) }
    ensures line { HasLine (map string_bytes words.now) result
        (seen F.Shelf O.Sink E.Sink shelf.old out.old err.old shelf.new out.new err.new) }
    ensures ends { HasEnd (map string_bytes words.now) result kept.new
        (seen F.Shelf O.Sink E.Sink shelf.old out.old err.old shelf.new out.new err.new) }
    ensures complete { IsComplete (map string_bytes words.now) result
        (seen F.Shelf O.Sink E.Sink shelf.old out.old err.old shelf.new out.new err.new) }
    ensures equal_texts { HasEqualTexts (map string_bytes words.now)
        (seen F.Shelf O.Sink E.Sink shelf.old out.old err.old shelf.new out.new err.new) }
    ensures finished { HasFinished result (F.unfinished shelf.old) (F.unfinished shelf.new) }
{
    let crew = Crew { rt, alloc, gates };
    run_and_report(alloc, Ok(crew), words, shelf, out, err, kept)
}

// A crew with gates that do nothing.
fn open_crew<R>(rt: &R, alloc: Global) -> Result<Crew<'_, R, Open>, AllocError>
    ensures { IfOk result (λ crew. vec_len crew.gates ≡ 64) }
{
    let gates = Vec::from_slice(alloc, &[Open; 64])?;
    Ok(Crew { rt, alloc, gates })
}

// The run to its end, with the line of that end.
fn run_and_report<R: Threads + Sync, F: Shelf, O: Sink, E: Sink, G: Gate + Send + Drop>(
    alloc: Global,
    crew: Result<Crew<'_, R, G>, AllocError>,
    words: &[String],
    shelf: &mut F,
    out: &mut O,
    err: &mut E,
    kept: &mut Option<Manager>,
) -> u8
    requires hand { F.hand shelf.old ≡ NoFile }
    requires none { kept.old ≡ None }
    requires gates { IfOk crew (λ crew. vec_len crew.gates ≡ 64) }
    ensures hand { F.hand shelf.new ≡ NoFile }
    ensures course { IsOneCourse (map string_bytes words.now) result kept.new
        (seen F.Shelf O.Sink E.Sink shelf.old out.old err.old shelf.new out.new err.new) }
    ensures finished { HasFinished result (F.unfinished shelf.old) (F.unfinished shelf.new) }
{
    match read_and_execute(alloc, crew, words, shelf, out, kept) {
        Ok(()) => 0,
        Err(stop) => {
            write_line(err, &stop.parts());
            stop.status()
        }
    }
}

// The readings and the commands.
fn read_and_execute<R: Threads + Sync, F: Shelf, O: Sink, G: Gate + Send + Drop>(
    alloc: Global,
    crew: Result<Crew<'_, R, G>, AllocError>,
    words: &[String],
    shelf: &mut F,
    out: &mut O,
    kept: &mut Option<Manager>,
) -> Result<(), Stop>
    requires hand { F.hand shelf.old ≡ NoFile }
    requires none { kept.old ≡ None }
    requires gates { IfOk crew (λ crew. vec_len crew.gates ≡ 64) }
    ensures hand { F.hand shelf.new ≡ NoFile }
    ensures ends { RunEnds (Adds F.asked shelf.old shelf.new) (map string_bytes words.now) kept.new
        result
        (contents F.files O.written shelf.old out.old)
        (contents F.files O.written shelf.new out.new)
        (faults F.read_faults F.write_faults O.faults shelf.old out.old)
        (faults F.read_faults F.write_faults O.faults shelf.new out.new) }
    ensures finished { LeavesFinished result (F.unfinished shelf.old) (F.unfinished shelf.new) }
{
    let crew = match crew {
        Ok(crew) => crew,
        Err(_) => return Err(Stop::OutOfMemory),
    };
    match prepare(alloc, words, shelf) {
        Ok(plan) => execute_plan(crew, shelf, out, plan, kept),
        Err(stop) => Err(stop),
    }
}
