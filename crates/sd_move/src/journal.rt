//! What a move remembers of the nodes that it changed.

use sd_model::Move;
use sd_vtree::VNode;
use std::marker::Model;

// A node that a move changed: its number, the place where it stood and, where it got another list, its old run.
#[derive(Clone, Copy)]
pub(crate) struct Entry {
    pub(crate) number: u32,
    pub(crate) place: VNode,
    pub(crate) run: Option<(u32, u32)>,
}

impl Model for Entry {
    ghost use Rattle.sd_move.specs.Journal.{Named};

    ghost Value = { Named };

    ghost view = { λ a. record { number = a.number; place = a.place; run = a.run } };

    ghost inverse = { λ n. record { number = n.number; place = n.place; run = n.run } };
}

/// What a move changed, by which it is undone or settled. Its runs stay in the arena until then, and keep the nodes
/// that they name from a sweep. So it cannot be dropped: it is spent by `undo` or by `settle`.
pub struct Journal {
    pub(crate) kind: Move,
    pub(crate) upper: VNode,
    pub(crate) lower: Option<VNode>,
    pub(crate) named: Vec<Entry>,
}

impl Model for Journal {
    ghost use Rattle.sd_move.specs.Journal.{Journal as TheJournal};

    ghost Value = { TheJournal };

    ghost view = { λ a. record { kind = a.kind; upper = a.upper; lower = a.lower; named = a.named.items } };
}

/// The size after a move, which is that of all held diagrams together, and the move's journal.
pub struct Moved {
    pub size: u32,
    pub journal: Journal,
}
