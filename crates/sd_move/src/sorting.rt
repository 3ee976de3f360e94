// The nodes of the upper place after a rotation: which can be linked with the lists that they have, and where.
ghost use Rattle.std.specs.Prelude.{◌≡◌, ◌≤◌, ℕ, ◌+◌, ◌<◌, List, [], ◌∷◌, ◌++◌, map, length, Some, OnOk, OnErr};
ghost use Rattle.std.specs.Option.{IsSome, option_map};
ghost use Rattle.std.specs.List.{AllByRecursion};
ghost use Rattle.sd_model.specs.Diagram.{Diagram};
ghost use Rattle.sd_vtree.specs.Numbered.{Numbered, numbers, children_at, IsUnder};
ghost use Rattle.sd_laws.specs.Values.{Valuation};
ghost use Rattle.sd_manager.specs.Table.{Table, key_at};
ghost use Rattle.sd_manager.specs.Valid.{IsTable};
ghost use Rattle.sd_manager.specs.Views.{pairs_at};
ghost use Rattle.sd_manager.specs.Shown.{ShowsCanonical, IsNodeOf};
ghost use Rattle.sd_apply.specs.Places.{IsThere, IsBelow, HasPlace};
ghost use Rattle.sd_move.specs.Moving.{Progress, MoveInProgress, HasBegun};
ghost use Rattle.sd_move.specs.Sorting.{on, TellsBelow, TellsAllBelow, CanSort, MaySort, TellsFit};
ghost use Rattle.sd_move.specs.Sorting.{IsSorted, HasSorted, rotation_of, MayRotate, CanRotate};
ghost use Rattle.sd_move.specs.Sorting.{HasRotated, place_entry};

use crate::beginning::rotate_detached;
use crate::journal::Entry;
use sd_manager::{Manager, NodeId, View};
use sd_model::{Move, Side};
use sd_vtree::VNode;
use std::alloc::AllocError;

/// A rotation: to the right, which divides the primes of the upper node's list, on the left side, or to the left,
/// which divides its subs, on the right side.
#[derive(Clone, Copy, Drop)]
pub(crate) struct Rotation {
    /// The side that it divides.
    pub(crate) side: Side,
    /// The vtree node at which it is made.
    pub(crate) upper: VNode,
    /// The child of that on the side.
    pub(crate) lower: VNode,
}

// Where a list of the upper node fits after a rotation.
#[derive(Clone, Copy)]
pub(crate) enum Fit {
    Upper,
    Lower,
    Neither,
}

// What stands on the side: the prime on the left one, the sub on the right one.
fn node_on(side: Side, pair: (NodeId, NodeId)) -> NodeId
    ensures { result ≡ on side pair }
{
    match side {
        Side::Left => pair.0,
        Side::Right => pair.1,
    }
}

// The vtree node at which a node stands that is no constant.
fn place_of(m: &Manager, node: NodeId) -> VNode
    requires node { IsNodeOf m.now node }
    requires least { 2 ≤ node }
    ensures place { (d : Diagram) → ShowsCanonical m.now node d → HasPlace m.now.vtree result d }
    ensures there { result < length (numbers m.now.vtree) }
    ensures table { IsTable m.now }
{
    let vtree = m.vtree();
    if node.0 < 2050 {
        return vtree.leaf(node.0 / 2);
    }
    let View::Decomposition { place, .. } = m.view(node) else {
        unreachable!()
    };
    place
}

/// Whether a node stands below a vtree node, where both stand below another one.
pub(crate) fn is_below(m: &Manager, at: VNode, node: NodeId, child: VNode) -> bool
    requires at { IsThere m.now.vtree at }
    requires node { IsBelow m.now at node }
    requires under { IsUnder m.now.vtree child at }
    ensures tells { TellsBelow m.now child node result }
    ensures table { IsTable m.now }
{
    // its contract tells that the table is valid
    let _ = m.vtree();
    if node.0 < 2 {
        return true;
    }
    let place = place_of(m, node);
    let lowest = m.vtree().lca_under(at, child, place);
    lowest.0 == child.0
}

/// Whether all that a node names on a side stands below a vtree node, where it stands below another one.
pub(crate) fn are_below(m: &Manager, at: VNode, number: u32, side: Side, child: VNode) -> bool
    requires at { IsThere m.now.vtree at }
    requires number { IsSome (key_at m.now number) }
    requires each { AllByRecursion (λ e. IsBelow m.now at (on side e))
        (pairs_at m.now (2050 + number)) }
    requires under { IsUnder m.now.vtree child at }
    ensures tells { TellsAllBelow m.now child side (pairs_at m.now (2050 + number)) result }
    ensures table { IsTable m.now }
{
    // its contract tells that the table is valid
    let _ = m.vtree();
    let node = NodeId(2050 + number);
    let View::Decomposition { count, .. } = m.view(node) else {
        unreachable!()
    };
    for index in 0..count {
        let pair = m.element(node, index);
        if !is_below(m, at, node_on(side, pair), child) {
            return false;
        }
    }
    true
}

// The child of a vtree node on the side.
pub(crate) fn child_on(m: &Manager, side: Side, node: VNode) -> VNode
    requires inner { IsSome (option_map (on side) (children_at m.now.vtree node)) }
    requires node { node < length (numbers m.now.vtree) }
    ensures child { option_map (on side) (children_at m.now.vtree node) ≡ Some result }
    ensures table { IsTable m.now }
{
    let Some(children) = m.vtree().children(node) else {
        unreachable!()
    };
    match side {
        Side::Left => children.0,
        Side::Right => children.1,
    }
}

// Where the list of a detached node of the upper place fits after a rotation.
fn fit_of(m: &Manager, side: Side, upper: VNode, lower: VNode, number: u32) -> Fit
    requires may { MaySort m.now side upper lower (number ∷ []) }
    requires table { IsTable m.now }
    ensures tells { TellsFit m.now side upper lower number result }
{
    if are_below(m, upper, number, side, child_on(m, side, lower)) {
        return Fit::Lower;
    }
    if are_below(m, upper, number, side, child_on(m, side, upper)) {
        return Fit::Upper;
    }
    Fit::Neither
}

// Sorts one detached node of the upper place. The only error: out of memory, and then nothing is changed.
fn sort_one(
    m: &mut Manager,
    side: Side,
    upper: VNode,
    lower: VNode,
    number: u32,
    entries: &mut Vec<Entry>,
    waiting: &mut Vec<u32>,
) -> Result<(), AllocError>
    requires may { MaySort m.old side upper lower (number ∷ []) }
    requires table { IsTable m.old }
    ensures sorted { OnOk result (IsSorted m.old m.new side upper lower number entries.old.items
        entries.new.items waiting.old.items waiting.new.items) }
    ensures err { OnErr result (m.new ≡ m.old) }
    ensures entries { OnErr result (entries.new.items ≡ entries.old.items) }
    ensures waiting { OnErr result (waiting.new.items ≡ waiting.old.items) }
    ensures table { IsTable m.new }
{
    match fit_of(m, side, upper, lower, number) {
        Fit::Lower => {
            entries.push(Entry {
                number,
                place: upper,
                run: None,
            })?;
            m.retag(number, lower);
            Ok(())
        }
        Fit::Upper => {
            m.retag(number, upper);
            Ok(())
        }
        Fit::Neither => {
            waiting.push(number)?;
            Ok(())
        }
    }
}

// Sorts the detached nodes of the upper place after a rotation: those whose lists fit one of its two nodes are linked
// there, with an entry for each that changed its place, and the others are listed. The only error: out of memory, and
// then some are not sorted.
pub(crate) fn sort_upper(
    m: &mut Manager,
    side: Side,
    upper: VNode,
    lower: VNode,
    numbers: &[u32],
    entries: &mut Vec<Entry>,
    waiting: &mut Vec<u32>,
) -> Result<(), AllocError>
    requires may { MaySort m.old side upper lower numbers.now }
    requires table { IsTable m.old }
    ensures going { (m0 : Table) (t : Numbered) (h : Progress) (v : Valuation)
        → CanSort m0 m.old t side upper lower h v numbers.now → MoveInProgress m0 m.new upper h v }
    ensures sorted { (left : List ℕ) × HasSorted m.old m.new side upper lower numbers.now left
        entries.old.items entries.new.items waiting.old.items waiting.new.items }
    ensures all { OnOk result (HasSorted m.old m.new side upper lower numbers.now []
        entries.old.items entries.new.items waiting.old.items waiting.new.items) }
    ensures table { IsTable m.new }
{
    for index in 0..numbers.len() {
        sort_one(m, side, upper, lower, numbers[index], entries, waiting)?;
    }
    Ok(())
}

// Adds an entry for each of the nodes, which stand at the place and keep their lists. The only error: out of memory,
// and then some are entered.
pub(crate) fn enter_all(
    place: VNode,
    numbers: &[u32],
    entries: &mut Vec<Entry>,
) -> Result<(), AllocError>
    ensures ok { OnOk result (entries.new.items
        ≡ entries.old.items ++ map (place_entry place) numbers.now) }
{
    for index in 0..numbers.len() {
        entries.push(Entry {
            number: numbers[index],
            place,
            run: None,
        })?;
    }
    Ok(())
}

// The rotation that divides the nodes of a side.
pub(crate) fn rotation_of(side: Side) -> Move
    ensures { result ≡ rotation_of side }
{
    match side {
        Side::Left => Move::RotateRight,
        Side::Right => Move::RotateLeft,
    }
}

// Rotates the vtree at the node of a move, where the nodes at its two nodes are detached, links those of the lower node
// at the upper one, and sorts those of the upper one. The only error: out of memory, and then some are not sorted.
pub(crate) fn rotate_and_sort(
    m: &mut Manager,
    rotation: Rotation,
    upper_nodes: &[u32],
    lower_nodes: &[u32],
    entries: &mut Vec<Entry>,
    waiting: &mut Vec<u32>,
) -> Result<(), AllocError>
    requires may { MayRotate m.old rotation.side rotation.upper rotation.lower upper_nodes.now
        lower_nodes.now }
    requires table { IsTable m.old }
    ensures going { (old : Table) (u : Numbered)
        → CanRotate old m.old rotation.side rotation.upper rotation.lower upper_nodes.now
        lower_nodes.now u → HasBegun old m.new rotation.upper }
    ensures rotated { (left : List ℕ) × HasRotated m.old m.new rotation.side rotation.upper
        rotation.lower upper_nodes.now lower_nodes.now left entries.old.items entries.new.items
        waiting.old.items waiting.new.items }
    ensures all { OnOk result (HasRotated m.old m.new rotation.side rotation.upper rotation.lower
        upper_nodes.now lower_nodes.now [] entries.old.items entries.new.items waiting.old.items
        waiting.new.items) }
    ensures table { IsTable m.new }
{
    let Rotation { side, upper, lower } = rotation;
    rotate_detached(m, rotation_of(side), upper, lower_nodes);
    sort_upper(m, side, upper, lower, upper_nodes, entries, waiting)
}
