//! Taking away what nothing uses any more.
//!
//! A manager counts the uses of each node: in lists of nodes, in loose runs, and by roots. A node without uses is a
//! candidate as soon as it is made or its last use ends, and stands on a stack inside the table of nodes, so that no
//! walk looks for it. A sweep takes candidates until there is none; taking one away may make candidates of its
//! children. Since what a node uses stands below it, no ring of nodes keeps itself, and counts of uses find all that
//! is not reached.
//!
//! So a sweep costs what died and what is new since the last one. Clearing all marks and walking from the roots, which
//! is the usual form, would cost the whole table each time. Only where much of a large table was freed since the last
//! pass, or less of it in a sweep of very many candidates, does a sweep end with a pass over all records, in a row: it
//! puts the free numbers in order, and chains the others anew.

ghost use Rattle.std.specs.Prelude.{◌≡◌, ℕ, None};
ghost use Rattle.std.specs.Option.{IsSome};
ghost use Rattle.std.specs.FinMap.{get};
ghost use Rattle.sd_manager.specs.Valid.{IsTable};
ghost use Rattle.sd_sweep.specs.Reached.{IsReached, IsSwept};

use sd_manager::Manager;

/// Takes all nodes away that are under no held root and no loose run. Takes no memory, and costs what died and what is
/// new since the last sweep, and some sweeps of a large table a pass over all records.
pub fn sweep(m: &mut Manager)
    requires no_move { m.old.moving ≡ None }
    ensures swept { IsSwept m.old m.new }
    ensures unused { (n : ℕ) → IsSome (get m.new.linked n) → IsReached m.new n }
    ensures table { IsTable m.new }
{
    // That the epoch is a `u64` tells that it is the last one where it no longer rises.
    let _ = m.epoch();
    while let Some(number) = m.idle() {
        m.retire(number);
        // in the midst of a large sweep what dies goes in one loop there, while it has two elements
        m.retire_twos();
    }
}
