// The difference of two nodes, which is true where the first one is and the second one is not.
//
// Where the left child of the lowest vtree node over both is a leaf, two halves stand for each of them (`halves.rt`),
// and no negation is made on the way. Elsewhere the second one is negated and the conjunction is taken. So an operand
// with a negative sign costs no node of its own on a right-linear vtree, and no more than its negation on others.
ghost use Rattle.std.specs.Prelude.{◌≡◌, ◌≤◌, ◌/◌, IfOk, IfErr};
ghost use Rattle.sd_manager.specs.Valid.{IsTable};
ghost use Rattle.sd_manager.specs.Making.{KeepsRule};
ghost use Rattle.sd_apply.specs.Recent.{Knows};
ghost use Rattle.sd_apply.specs.Steps.{IsStepAt};
ghost use Rattle.sd_apply.specs.Places.{IsBelow, IsThere};
ghost use Rattle.sd_apply.specs.Halves.{AreHalvesOf};
ghost use Rattle.sd_apply.specs.Difference.{SubtractsAt, SubtractsHalves, known_difference};

use crate::calls::apply;
use crate::halves::{BothHalves, are_same_halves, both_halves, make_halves};
use crate::negation::negate_at;
use crate::places::lca_with_children;
use crate::recent::Recent;
use sd_manager::{Manager, NodeId};
use sd_model::Operation;
use sd_runs::TakeError;
use sd_vtree::VNode;

/// The number of the difference among the operations.
pub(crate) const DIFFERENCE: u8 = 6;

/// The difference of equal nodes, beside a constant, and of the literals of one variable.
pub(crate) fn known(a: u32, b: u32) -> Option<u32>
    ensures { result ≡ known_difference a b }
{
    // most calls end here
    if a >= 2 && b >= 2 && a / 2 != b / 2 {
        return None;
    }
    if a == b || a == 0 || b == 1 {
        return Some(0);
    }
    if b == 0 {
        return Some(a);
    }
    if a / 2 == b / 2 && a < 2050 {
        return Some(a);
    }
    None
}

/// The difference of two nodes below a vtree node.
#[inline(never)]
pub(crate) fn subtract_at(
    m: &mut Manager,
    recent: &mut Recent,
    at: VNode,
    a: NodeId,
    b: NodeId,
) -> Result<NodeId, TakeError>
    requires at { IsThere m.old.vtree at }
    requires a { IsBelow m.old at a }
    requires b { IsBelow m.old at b }
    requires knows { Knows recent.old m.old }
    ensures ok { IfOk result (λ r. SubtractsAt m.old m.new at a b r) }
    ensures step { IsStepAt m.old m.new recent.new at }
    ensures rule { IfErr result (λ e. KeepsRule m.new e) }
{
    find_or_subtract(m, recent, at, a, b)
}

// The same in place, so that what is known is found without a call.
#[cycle(subtract)]
#[inline(always)]
fn find_or_subtract(
    m: &mut Manager,
    recent: &mut Recent,
    at: VNode,
    a: NodeId,
    b: NodeId,
) -> Result<NodeId, TakeError>
    requires at { IsThere m.old.vtree at }
    requires a { IsBelow m.old at a }
    requires b { IsBelow m.old at b }
    requires knows { Knows recent.old m.old }
    ensures ok { IfOk result (λ r. SubtractsAt m.old m.new at a b r) }
    ensures step { IsStepAt m.old m.new recent.new at }
    ensures rule { IfErr result (λ e. KeepsRule m.new e) }
{
    // its contract tells that the table is valid
    let _ = m.vtree();
    if let Some(code) = known(a.0, b.0) {
        return Ok(NodeId(code));
    }
    if a.is_true() {
        return negate_at(m, recent, at, b);
    }
    if let Some(code) = recent.look(DIFFERENCE, a.0, b.0) {
        return Ok(NodeId(code));
    }
    subtract_anew(m, recent, at, a, b)
}

// The difference of nodes that are neither constants nor of one leaf, which is not known, and is kept.
#[cycle(subtract)]
#[inline(never)]
fn subtract_anew(
    m: &mut Manager,
    recent: &mut Recent,
    at: VNode,
    a: NodeId,
    b: NodeId,
) -> Result<NodeId, TakeError>
    requires at { IsThere m.old.vtree at }
    requires a { IsBelow m.old at a }
    requires b { IsBelow m.old at b }
    requires least_a { 2 ≤ a }
    requires least_b { 2 ≤ b }
    requires differ { a / 2 ≡ b / 2 → 2050 ≤ a }
    requires knows { Knows recent.old m.old }
    ensures ok { IfOk result (λ r. SubtractsAt m.old m.new at a b r) }
    ensures step { IsStepAt m.old m.new recent.new at }
    ensures rule { IfErr result (λ e. KeepsRule m.new e) }
{
    let code = subtract_at_lca(m, recent, at, a, b)?;
    recent.keep(DIFFERENCE, a.0, b.0, code.0);
    Ok(code)
}

// The same from the halves of both, where they have them at the lowest vtree node below which they stand. Elsewhere it
// is the conjunction with a negation.
#[cycle(subtract)]
#[inline(always)]
fn subtract_at_lca(
    m: &mut Manager,
    recent: &mut Recent,
    at: VNode,
    a: NodeId,
    b: NodeId,
) -> Result<NodeId, TakeError>
    requires at { IsThere m.old.vtree at }
    requires a { IsBelow m.old at a }
    requires b { IsBelow m.old at b }
    requires least_a { 2 ≤ a }
    requires least_b { 2 ≤ b }
    requires differ { a / 2 ≡ b / 2 → 2050 ≤ a }
    requires knows { Knows recent.old m.old }
    ensures ok { IfOk result (λ r. SubtractsAt m.old m.new at a b r) }
    ensures step { IsStepAt m.old m.new recent.new at }
    ensures rule { IfErr result (λ e. KeepsRule m.new e) }
{
    let fork = lca_with_children(m, at, a, b);
    if let Some(found) = both_halves(m, &fork, a, b) {
        return subtract_by_halves(m, recent, &found, a, b);
    }
    and_negation(m, recent, at, a, b)
}

// The same as a conjunction with the negation of the second node.
#[inline(never)]
fn and_negation(
    m: &mut Manager,
    recent: &mut Recent,
    at: VNode,
    a: NodeId,
    b: NodeId,
) -> Result<NodeId, TakeError>
    requires at { IsThere m.old.vtree at }
    requires a { IsBelow m.old at a }
    requires b { IsBelow m.old at b }
    requires knows { Knows recent.old m.old }
    ensures ok { IfOk result (λ r. SubtractsAt m.old m.new at a b r) }
    ensures step { IsStepAt m.old m.new recent.new at }
    ensures rule { IfErr result (λ e. KeepsRule m.new e) }
{
    let other = negate_at(m, recent, at, b)?;
    apply(m, recent, Operation::And, at, a, other)
}

// The same from the halves of both nodes, where the left child of that vtree node is a leaf.
#[cycle(subtract)]
fn subtract_by_halves(
    m: &mut Manager,
    recent: &mut Recent,
    found: &BothHalves,
    a: NodeId,
    b: NodeId,
) -> Result<NodeId, TakeError>
    requires halves { AreHalvesOf m.old found.now a b }
    requires knows { Knows recent.old m.old }
    requires table { IsTable m.old }
    ensures ok { IfOk result (λ r. SubtractsAt m.old m.new found.now.node a b r) }
    ensures step { IsStepAt m.old m.new recent.new found.now.node }
    ensures rule { IfErr result (λ e. KeepsRule m.new e) }
{
    let right = found.split.right;
    let (first, second) = (&found.first, &found.second);
    let both = subtract_halves(m, recent, right, first, second)?;
    if are_same_halves(&both, first) {
        return Ok(a);
    }
    make_halves(m, found.node, &found.split, both.0, both.1)
}

// The difference of the halves of two nodes, for each value of the variable.
#[cycle(subtract)]
#[inline(always)]
fn subtract_halves(
    m: &mut Manager,
    recent: &mut Recent,
    right: VNode,
    first: &(NodeId, NodeId),
    second: &(NodeId, NodeId),
) -> Result<(NodeId, NodeId), TakeError>
    requires right { IsThere m.old.vtree right }
    requires first { IsBelow m.old right first.now.0 }
    requires other_first { IsBelow m.old right first.now.1 }
    requires second { IsBelow m.old right second.now.0 }
    requires other_second { IsBelow m.old right second.now.1 }
    requires knows { Knows recent.old m.old }
    ensures ok { IfOk result (λ r. SubtractsHalves m.old m.new right first.now second.now r) }
    ensures step { IsStepAt m.old m.new recent.new right }
    ensures rule { IfErr result (λ e. KeepsRule m.new e) }
{
    let high = find_or_subtract(m, recent, right, first.0, second.0)?;
    let low = find_or_subtract(m, recent, right, first.1, second.1)?;
    Ok((high, low))
}
