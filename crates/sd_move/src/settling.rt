// A move that is kept: the runs of its journal are given back.
ghost use Rattle.std.specs.Prelude.{◌≡◌};
ghost use Rattle.sd_manager.specs.Valid.{IsTable};
ghost use Rattle.sd_move.specs.Journal.{CanSettle, IsSettledBy, IsLooseRun, MayGiveBack};

use crate::journal::Journal;
use sd_manager::Manager;

/// Settles a move: the runs of its journal are free then, and keep no node from a sweep any more. Takes no memory.
pub fn settle(m: &mut Manager, journal: Journal)
    requires runs { CanSettle journal m.old }
    ensures settled { IsSettledBy m.old m.new journal }
    ensures table { IsTable m.new }
{
    // Its contract tells that the table is valid.
    let _ = m.vtree();
    let Journal {
        kind: _,
        upper: _,
        lower: _,
        named,
    } = journal;
    for index in 0..named.len() {
        give_back(m, named[index].run);
    }
}

// Gives a run back, where there is one.
fn give_back(m: &mut Manager, run: Option<(u32, u32)>)
    requires loose { IsLooseRun m.old run }
    requires table { IsTable m.old }
    ensures given { MayGiveBack m.old m.new run }
    ensures table { IsTable m.new }
{
    if let Some(run) = run {
        m.give_run(run);
    }
}
