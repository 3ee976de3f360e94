// Operations over a state while a move of it can still be undone, and afterwards.
ghost use Rattle.std.specs.Prelude.{◌≡◌, ℕ};
ghost use Rattle.sd_manager.specs.Making.{Extends};
ghost use Rattle.sd_manager.specs.Shown.{IsNodeOf};
ghost use Rattle.sd_apply.specs.Serving.{Serves};
ghost use Rattle.sd_sweep.specs.Reached.{KeepsReached};
ghost use Rattle.sd_call_tests.specs.Ready.{IsReady};

use crate::cases::{Case, State};
use crate::moves::{go_back, move_at, not_made};
use sd_apply::{and, negate};
use sd_cache::Cache;
use sd_manager::{Manager, NodeId};
use sd_model::Move;
use sd_move::Moved;
use sd_move::laws::{keeps_reached, stays_undoable};
use sd_runs::TakeError;
use std::alloc::{AllocError, Global};

// The conjunction of a node and the negation of another one.
fn without(
    alloc: Global,
    m: &mut Manager,
    c: &mut Cache,
    one: NodeId,
    other: NodeId,
) -> Result<NodeId, TakeError>
    requires one { IsNodeOf m.old one }
    requires other { IsNodeOf m.old other }
    requires serves { Serves c.old m.old }
    ensures kept { Extends m.old m.new }
    ensures serves { Serves c.new m.new }
{
    let negation = negate(alloc, m, c, other)?;
    and(alloc, m, c, one, negation)
}

// Whether the node of the first root implies that of the second one. It makes the negation of the second one.
fn implies(alloc: Global, state: &mut State) -> Result<bool, AllocError>
    requires ready { IsReady state.old.m state.old.c state.old.first state.old.second }
    ensures reached { KeepsReached state.old.m state.new.m }
    ensures ready { IsReady state.new.m state.new.c state.new.first state.new.second }
{
    keeps_reached();
    let one = state.m.node_of(&state.first);
    let other = state.m.node_of(&state.second);
    match without(alloc, &mut state.m, &mut state.c, one, other) {
        Ok(rest) => Ok(rest.0 == 0),
        Err(TakeError::OutOfMemory) => Err(AllocError),
        Err(_) => Ok(false),
    }
}

// Makes a move at a position, asks whether the first root implies the second one, undoes the move, and asks again.
fn imply_meanwhile(
    alloc: Global,
    state: &mut State,
    kind: Move,
    position: u32,
) -> Result<bool, AllocError>
    requires ready { IsReady state.old.m state.old.c state.old.first state.old.second }
    ensures ready { IsReady state.new.m state.new.c state.new.first state.new.second }
{
    stays_undoable();
    let Some(place) = state.m.vtree().at_position(position) else {
        return Ok(false);
    };
    match move_at(alloc, state, kind, place, u32::MAX) {
        Ok(moved) => {
            let Moved { size: _, journal } = moved;
            let meanwhile = implies(alloc, state);
            go_back(state, journal);
            let afterwards = implies(alloc, state);
            Ok(meanwhile? && afterwards?)
        }
        Err(error) => not_made(error),
    }
}

impl Case {
    // Whether the first root implies the second one after a move and after that was undone.
    pub(crate) fn imply_meanwhile(
        &mut self,
        alloc: Global,
        kind: Move,
        position: u32,
    ) -> Result<bool, AllocError> {
        imply_meanwhile(alloc, &mut self.state, kind, position)
    }
}
