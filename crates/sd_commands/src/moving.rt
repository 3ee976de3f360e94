//! The commands that move the vtree.
ghost use Rattle.std.specs.Prelude.{◌≡◌, ◌<◌, ◌≤◌, ◌+◌, length, None, IfOk, IfErr, OnErr};
ghost use Rattle.sd_model.specs.Tree.{leaves};
ghost use Rattle.sd_vtree.specs.Numbered.{numbers, plain_tree};
ghost use Rattle.sd_manager.specs.Marking.{AreUnmarked};
ghost use Rattle.sd_manager.specs.Valid.{IsTable};
ghost use Rattle.sd_apply.specs.Serving.{Serves};
ghost use Rattle.sd_sweep.specs.Reached.{KeepsReached};
ghost use Rattle.sd_move.specs.Moves.{IsMoved, IsMoveRefusal, HasSizeAfter};
ghost use Rattle.sd_formula.specs.Dimacs.{Groups};
ghost use Rattle.sd_commands.specs.Commands.{State};
ghost use Rattle.sd_commands.specs.Standing.{Represents, StepsTo, StopsAt, IsAsBefore, root_count};

use crate::command::{Effect, RunCommand};
use crate::error::{CommandError, move_error};
use crate::state::RunState;
use sd_cache::Cache;
use sd_manager::Manager;
use sd_model::Move;
use sd_move::{MoveError, Moved, rotate_left, rotate_right, settle, swap};
use sd_vtree::VNode;
use sd_vtree::laws::plain_move;
use std::alloc::Global;

/// Moves the vtree at a position. Each name keeps its root, and each root its function.
pub(crate) fn turn_at(
    alloc: Global,
    state: &mut RunState,
    kind: Move,
    position: u32,
) -> Result<Option<Effect>, CommandError>
    requires represents { (seen : State) × Represents state.old seen }
    ensures done { (input : Groups) (seen : State) → Represents state.old seen →
        IfOk result
        (λ effect. StepsTo input seen (RunCommand.Turn kind position) state.new effect) }
    ensures stops { (input : Groups) (seen : State) → Represents state.old seen →
        IfErr result
        (λ e. StopsAt input seen (RunCommand.Turn kind position) state.new.manager e) }
    ensures err { OnErr result (IsAsBefore state.old state.new) }
    ensures variables { leaves (plain_tree state.new.manager.vtree) ≡ leaves (plain_tree
        state.old.manager.vtree) }
    ensures roots { root_count state.new ≤ root_count state.old + 1 }
{
    // the nodes of gates may be gone behind a move
    state.forget_gates();
    let Some(place) = state.manager.vtree().at_position(position) else {
        return Err(CommandError::NotMovable);
    };
    plain_move(state.manager.vtree(), place, kind);
    let limit = state.limit;
    match turn(
        alloc,
        &mut state.manager,
        &mut state.cache,
        kind,
        place,
        limit,
    ) {
        Ok(moved) => {
            let Moved { size: _, journal } = moved;
            settle(&mut state.manager, journal);
            Ok(None)
        }
        Err(error) => Err(move_error(error)),
    }
}

// The move of this kind at a node, within a limit of the size after it. Where it is refused, the vtree and each node
// under a held root are as before.
fn turn(
    alloc: Global,
    m: &mut Manager,
    c: &mut Cache,
    kind: Move,
    place: VNode,
    most: u32,
) -> Result<Moved, MoveError>
    requires no_move { m.old.moving ≡ None }
    requires place { place < length (numbers m.old.vtree) }
    requires unmarked { AreUnmarked m.old }
    requires serves { Serves c.old m.old }
    ensures moved { IfOk result (λ r. IsMoved m.old m.new kind place r.journal) }
    ensures size { IfOk result (λ r. HasSizeAfter m.old kind place r.size) }
    ensures within { IfOk result (λ r. r.size ≤ most) }
    ensures refused { IfErr result (λ e. IsMoveRefusal m.old m.new kind place most e) }
    ensures back { OnErr result (KeepsReached m.old m.new × (m.new.moving ≡ None)) }
    ensures bound { m.new.bound ≡ m.old.bound }
    ensures unmarked { AreUnmarked m.new }
    ensures serves { Serves c.new m.new }
    ensures table { IsTable m.new }
{
    match kind {
        Move::RotateLeft => rotate_left(alloc, m, c, place, most),
        Move::RotateRight => rotate_right(alloc, m, c, place, most),
        Move::Swap => swap(alloc, m, c, place, most),
    }
}
