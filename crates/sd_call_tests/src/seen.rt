// What a test sees of a state.
ghost use Rattle.sd_manager.specs.Shown.{IsNodeOf};
ghost use Rattle.sd_call_tests.specs.Ready.{IsReady};

use crate::cases::{Case, State};
use sd_file::write_nodes;
use sd_manager::{Manager, NodeId};
use sd_model::Tree;
use std::alloc::{AllocError, Global};
use std::slice;

// The nodes that both roots hold, the texts of their diagrams, and the vtree.
#[derive(Debug, PartialEq, Eq, Drop)]
pub(crate) struct Seen {
    first: NodeId,
    second: NodeId,
    first_text: Vec<u8>,
    second_text: Vec<u8>,
    tree: Tree,
}

impl Seen {
    // Whether all that is seen is the same.
    pub(crate) fn is(&self, other: &Seen) -> bool {
        self == other
    }

    // Whether the roots hold the same nodes.
    pub(crate) fn has_nodes_of(&self, other: &Seen) -> bool {
        self.first == other.first && self.second == other.second
    }

    // Whether the diagram of the second root has this text.
    pub(crate) fn has_text(&self, text: &str) -> bool {
        self.second_text.as_slice() == text.as_bytes()
    }
}

// The text of the diagram of a node.
fn text_of(alloc: Global, m: &Manager, node: NodeId) -> Result<Vec<u8>, AllocError>
    requires node { IsNodeOf m.now node }
{
    let text = write_nodes(alloc, m, slice::from_ref(&node))?;
    Vec::from_slice(alloc, text.as_slice())
}

// What is seen of a state.
pub(crate) fn look(alloc: Global, state: &State) -> Result<Seen, AllocError>
    requires ready { IsReady state.now.m state.now.c state.now.first state.now.second }
{
    let first = state.m.node_of(&state.first);
    let second = state.m.node_of(&state.second);
    let first_text = text_of(alloc, &state.m, first)?;
    let second_text = text_of(alloc, &state.m, second)?;
    let tree = state.m.vtree().tree(alloc)?;
    Ok(Seen {
        first,
        second,
        first_text,
        second_text,
        tree,
    })
}

impl Case {
    // What is seen of a case.
    pub(crate) fn look(&self, alloc: Global) -> Result<Seen, AllocError> {
        look(alloc, &self.state)
    }

    // Whether this is seen of a case.
    pub(crate) fn shows(&self, alloc: Global, seen: &Seen) -> Result<bool, AllocError> {
        Ok(look(alloc, &self.state)?.is(seen))
    }

    // The length of all lists and loose runs in the arena.
    pub(crate) fn used(&self) -> u32 {
        self.state.m.used()
    }
}
