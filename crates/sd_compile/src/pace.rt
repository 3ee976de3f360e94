// When a manager is swept: behind a group, a command, a part or a gate, once more elements are in use than a pace
// allows, garbage included. Behind a sweep it allows what was left and garbage beside it: as much again, half as much
// for groups where each left child of the vtree is a leaf, and for operations no less than a number, since these may
// ask for what died and then make it anew. What it allows is chosen for speed. The contracts tell when a sweep comes by
// the number that the pace has at that time, and not how it is chosen.
ghost use Rattle.std.specs.Prelude.{◌≤◌};
ghost use Rattle.sd_manager.specs.Valid.{total_length};

use crate::one_pass::is_right_linear;
use sd_manager::Manager;

// So many elements, with their nodes, fit the cache that a processor has for itself. There a sweep saves nothing.
const FITS_CACHE: u32 = 16_384;

// Six elements for each of the 65,536 answers of operations that the cache keeps: three nodes, of two elements or more,
// may be asked for again.
const LEAST_GARBAGE: u32 = 393_216;

// Over so many variables a group usually meets few of the nodes, so that it seldom asks for what died long ago. Nothing
// tells that it does not: the number is one of those that were tried.
const MANY: u32 = 256;

/// When the next sweep comes: one for the groups of a formula, one for the commands of a run, one for parts.
#[derive(Clone, Copy)]
pub struct Pace {
    /// How many elements may be in use before the next sweep.
    pub most: u32,
    // each group is joined to those before it, along the vtree
    of_groups: bool,
}

impl Pace {
    /// Before the first group of a formula.
    pub fn of_groups() -> Pace {
        Pace {
            most: FITS_CACHE,
            of_groups: true,
        }
    }

    /// Before the first one of any operations.
    pub fn of_operations() -> Pace {
        Pace {
            most: LEAST_GARBAGE,
            of_groups: false,
        }
    }

    /// No sweep comes before more elements than `room` are in use.
    pub fn wait_for(&mut self, room: u32)
        ensures room { room ≤ self.new.most }
        ensures later { self.old.most ≤ self.new.most }
    {
        self.most = self.most.max(room);
    }

    /// Behind a sweep: how many elements may be in use before the next one. Where each left child of the vtree is a
    /// leaf, a group seldom asks for what died, and half as much garbage as was left keeps the memory low.
    pub(crate) fn renew(&mut self, m: &Manager)
        ensures { total_length m.now ≤ self.new.most }
    {
        let left = m.used();
        let garbage = if self.of_groups && is_right_linear(m.vtree()) {
            left / 2
        } else if self.of_groups && m.vtree().variables() >= MANY {
            left
        } else {
            left.max(LEAST_GARBAGE)
        };
        self.most = left.saturating_add(garbage).max(FITS_CACHE);
    }
}
