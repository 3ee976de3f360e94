// The steps of a walk, and one step made.
ghost use Rattle.std.specs.Prelude.{◌≡◌, ◌<◌, ◌≤◌, List, length, None, IfOk, IfErr, IfSome, OnErr};
ghost use Rattle.std.specs.Option.{option_map, is_some};
ghost use Rattle.sd_model.specs.Expression.{Expression};
ghost use Rattle.sd_model.specs.Size.{HasSize};
ghost use Rattle.sd_vtree.specs.Numbered.{numbers, plain_tree, children_at};
ghost use Rattle.sd_manager.specs.Marking.{AreUnmarked};
ghost use Rattle.sd_manager.specs.Valid.{IsTable};
ghost use Rattle.sd_apply.specs.Serving.{Serves};
ghost use Rattle.sd_sweep.specs.Reached.{KeepsReached};
ghost use Rattle.sd_sweep.specs.Falling.{NeverFalls};
ghost use Rattle.sd_compile.specs.Total.{AreHeldFormulas};
ghost use Rattle.sd_search.specs.Walking.{move_of, child_on, AreStepsAt, HasStepped, IsStepRefusal};

use sd_cache::Cache;
use sd_manager::Manager;
use sd_model::Side;
use sd_move::{MoveError, Moved, rotate_left, swap};
use sd_vtree::VNode;
use std::alloc::Global;

// A move of a walk: at its node, or a swap of a child of it.
#[derive(Clone, Copy)]
pub(crate) enum Step {
    Swap,
    Rotate,
    SwapChild(Side),
}

// Makes a step at a node, where the total size afterwards is at most `most`.
pub(crate) fn make(
    alloc: Global,
    m: &mut Manager,
    c: &mut Cache,
    place: VNode,
    step: Step,
    most: u32,
) -> Result<Moved, MoveError>
    requires no_move { m.old.moving ≡ None }
    requires place { place < length (numbers m.old.vtree) }
    requires unmarked { AreUnmarked m.old }
    requires serves { Serves c.old m.old }
    ensures stepped { IfOk result (λ r. HasStepped m.old m.new (move_of step) place r.journal) }
    ensures sized { (fs : List Expression) → AreHeldFormulas m.old fs →
        IfOk result (λ r. HasSize fs (plain_tree m.new.vtree) r.size) }
    ensures within { IfOk result (λ r. r.size ≤ most) }
    ensures refused { IfErr result (λ e. IsStepRefusal m.old m.new (move_of step) place most e) }
    ensures back { OnErr result (KeepsReached m.old m.new × (m.new.moving ≡ None)) }
    ensures never_falls { NeverFalls m.old m.new }
    ensures bound { m.new.bound ≡ m.old.bound }
    ensures unmarked { AreUnmarked m.new }
    ensures serves { Serves c.new m.new }
    ensures table { IsTable m.new }
{
    // That the epoch is a `u64` tells that it is the last one where it no longer rises.
    let _ = m.epoch();
    let _ = m.vtree();
    match step {
        Step::Swap => swap(alloc, m, c, place, most),
        Step::Rotate => rotate_left(alloc, m, c, place, most),
        Step::SwapChild(side) => match child_of(m, place, side) {
            Some(child) => swap(alloc, m, c, child, most),
            None => Err(MoveError::NotMovable),
        },
    }
}

// The child of a node on a side, or None at a leaf.
fn child_of(m: &Manager, place: VNode, side: Side) -> Option<VNode>
    requires place { place < length (numbers m.now.vtree) }
    ensures child { result ≡ option_map (child_on side) (children_at m.now.vtree place) }
    ensures node { IfSome result (λ n. n < length (numbers m.now.vtree)) }
    ensures table { IsTable m.now }
{
    let Some(children) = m.vtree().children(place) else {
        return None;
    };
    match side {
        Side::Left => Some(children.0),
        Side::Right => Some(children.1),
    }
}

// The steps of a walk where the left child is a node.
static FROM_LEFT: [Step; 11] = [
    Step::Swap,
    Step::Rotate,
    Step::Swap,
    Step::Rotate,
    Step::Swap,
    Step::SwapChild(Side::Right),
    Step::Rotate,
    Step::Swap,
    Step::Rotate,
    Step::Swap,
    Step::Rotate,
];

// The steps of a walk where the right child alone is one.
static FROM_RIGHT: [Step; 11] = [
    Step::Rotate,
    Step::Swap,
    Step::Rotate,
    Step::Swap,
    Step::Rotate,
    Step::SwapChild(Side::Left),
    Step::Swap,
    Step::Rotate,
    Step::Swap,
    Step::Rotate,
    Step::Swap,
];

// The step of a walk at two leaves.
static OF_TWO: [Step; 1] = [Step::Swap];

// The steps of a walk at a node: none at a leaf.
pub(crate) fn steps_at(m: &Manager, place: VNode) -> &'static [Step]
    requires place { place < length (numbers m.now.vtree) }
    ensures steps { AreStepsAt m.now.vtree place result.now }
    ensures table { IsTable m.now }
{
    let Some(children) = m.vtree().children(place) else {
        return &[];
    };
    if is_inner(m, children.0) {
        return &FROM_LEFT;
    }
    if is_inner(m, children.1) {
        &FROM_RIGHT
    } else {
        &OF_TWO
    }
}

// Whether a node has children.
fn is_inner(m: &Manager, place: VNode) -> bool
    requires place { place < length (numbers m.now.vtree) }
    ensures inner { result ≡ is_some (children_at m.now.vtree place) }
{
    m.vtree().children(place).is_some()
}
