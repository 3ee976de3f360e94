// What is still known behind a sweep.
//
// A sweep raises the epoch, since an answer about a number that a later node takes over would be a wrong one. But the
// nodes that it leaves keep their numbers and their lists, so an answer is right behind it if the two numbers that it
// is about and its own all stand. The table of the computed answers is gone through once, the others are dropped, and
// what is left is of the new epoch, so that a step at nodes that stand need not be done again because others went. The
// clauses say that each answer that is left is right; how many are left stands in none of them.
ghost use Rattle.std.specs.Prelude.{◌≡◌, ◌+◌, ◌<◌, length, None, IsTrue};
ghost use Rattle.sd_cache.specs.Entries.{Entries};
ghost use Rattle.sd_manager.specs.Table.{Table};
ghost use Rattle.sd_apply.specs.Serving.{Serves};
ghost use Rattle.sd_apply.specs.Surviving.{AreSifted, IsStanding, OnlyTakesAway};

use sd_cache::Cache;
use sd_manager::{FIRST_NODE, Manager};

/// Behind a sweep of a manager whose epoch was `since`: the computed answers of that epoch are of today's, but for
/// those that name a node which is gone. Those of another epoch stay as they are. It costs a step for each entry of the
/// table where the sweep took a node away, and takes no memory.
pub fn keep_surviving(m: &Manager, c: &mut Cache, since: u64)
    requires no_move { m.now.moving ≡ None }
    requires serves { (t : Table) × Serves c.old t × (t.epoch ≡ since) × OnlyTakesAway t m.now }
    ensures entries { c.new.entries ≡ c.old.entries }
    ensures serves { Serves c.new m.now }
{
    let today = m.epoch();
    if c.epoch() != since || today == since {
        return;
    }
    for index in 0..c.computed().len() {
        drop_unless_standing(m, c, index);
    }
    c.renew(today);
}

// Drops the answer of an entry that names a node which is gone.
fn drop_unless_standing(m: &Manager, c: &mut Cache, index: usize)
    requires { index < length c.old.computed }
    ensures entries { c.new.entries ≡ c.old.entries }
    ensures epoch { c.new.epoch ≡ c.old.epoch }
    ensures sifted { (before : Entries) → AreSifted m.now before c.old.computed index
        → AreSifted m.now before c.new.computed (index + 1) }
{
    let (first, second, answer) = c.computed().numbers(index);
    if is_standing(m, first) && is_standing(m, second) && is_standing(m, answer) {
        return;
    }
    c.blank(index);
}

// Whether a code is of a constant, a literal or a linked node.
fn is_standing(m: &Manager, code: u32) -> bool
    ensures { IsTrue result → IsStanding m.now code }
{
    code < FIRST_NODE || m.is_linked(code - FIRST_NODE)
}
