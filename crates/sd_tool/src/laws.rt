//! What follows from the clause `course` of [`run`](crate::run), said without a course: functions whose contracts state
//! a fact of every run, and that do nothing. Each holds of whatever shelf and sinks a run was over.

ghost use Rattle.sd_tool.specs.Laws.{FollowsCourse, HasWritten, HasWrittenValues, HasLimit};
ghost use Rattle.sd_tool.specs.Laws.{IsDoneOrOverLimit};
ghost use Rattle.sd_tool.specs.Laws.{HasJoined, HasAsked, HasChecked, HasChosen, HasCircuits};
ghost use Rattle.sd_tool.specs.Laws.{HasParted, HaveOneReading};
ghost use Rattle.std.specs.Prelude.{List, ℕ};

use sd_base::{Shelf, Sink};

/// At status 0 a run of a formula, over told files and without a script, parts or a choice of the start, wrote the text
/// of the canonical diagram of its formula and that of its vtree, changed no other file, and printed the size.
pub fn written<F: Shelf, O: Sink, E: Sink>()
    // By the job that the words have.
    ensures job { FollowsCourse F.Shelf O.Sink E.Sink HasWritten }

    // By the values of ordinary words, which are `--WORD=VALUE`, and `--WORD VALUE` where the value begins with no
    // hyphen, and of a flag `--WORD`, each option at most once.
    ensures values { FollowsCourse F.Shelf O.Sink E.Sink HasWrittenValues }
{}

/// Without a script, parts or a choice of the start, over told files, status 4 comes only where the first groups of the
/// input pass the limit, and the line tells the first such group and the size there. Where they do and no device
/// failed, 4, 7 or 8 comes.
pub fn limited<F: Shelf, O: Sink, E: Sink>()
    ensures { FollowsCourse F.Shelf O.Sink E.Sink HasLimit }
{}

/// A run without a script, parts or a choice of the start, whose words are accepted, and whose told files read as a
/// formula and a vtree, ends with status 0, 4, 7 or 8 where no device failed.
pub fn done_or_over_limit<F: Shelf, O: Sink, E: Sink>()
    ensures { FollowsCourse F.Shelf O.Sink E.Sink IsDoneOrOverLimit }
{}

/// A script of four lines, of which two bind two names to the input, a literal or a constant, the third joins these
/// and the last writes the joined one, wrote at status 0 the canonical diagram of both formulas joined. The formula is
/// that of a told file, and the words have no `--every`. Where no device failed, 0, 4, 7 or 8 comes.
pub fn joined<F: Shelf, O: Sink, E: Sink>()
    ensures { FollowsCourse F.Shelf O.Sink E.Sink HasJoined }
{}

/// The number of workers changes nothing that a run reads or does: words whose jobs differ in it alone have one
/// reading.
pub fn workers()
    ensures { (words others : List (List ℕ)) → HaveOneReading words others }
{}

/// A run in parts, over told files, wrote at status 0 what it writes without parts: the text of the canonical diagram
/// of its formula and that of the vtree, and it printed the size. The vtree is the start tree, or the one that the
/// search of the words found from it.
pub fn parted<F: Shelf, O: Sink, E: Sink>()
    ensures { FollowsCourse F.Shelf O.Sink E.Sink HasParted }
{}

/// A run with a choice of the start, over told files, wrote at status 0 the text of the canonical diagram of its
/// formula for the tree of the chosen start, or for the one that the search found from it, and printed the start
/// before.
pub fn chosen<F: Shelf, O: Sink, E: Sink>()
    ensures { FollowsCourse F.Shelf O.Sink E.Sink HasChosen }
{}

/// A run of a circuit, over told files, with `--out-sdd` and without a script, wrote at status 0 the text of the
/// canonical diagrams of its outputs, in order, and that of the vtree, changed no other file, and printed the size of
/// each. The vtree is the start tree, or the one that the search of the words found for the outputs from it.
pub fn circuits<F: Shelf, O: Sink, E: Sink>()
    ensures { FollowsCourse F.Shelf O.Sink E.Sink HasCircuits }
{}

/// A check of a file over the vtree of another, both told, printed at status 0 the verdict on it, changed no file, and
/// printed nothing else.
pub fn checked<F: Shelf, O: Sink, E: Sink>()
    ensures { FollowsCourse F.Shelf O.Sink E.Sink HasChecked }
{}

/// At status 1 no file is asked for, at 2 and 5 none is written, and at no status is one read after another was
/// written.
pub fn asked<F: Shelf, O: Sink, E: Sink>()
    ensures { FollowsCourse F.Shelf O.Sink E.Sink HasAsked }
{}
