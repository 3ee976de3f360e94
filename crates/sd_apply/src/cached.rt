// The operations of one call: the cache is asked once, and keeps the answer. What the operation asks
// on its way stands in the table that the cache lends.
ghost use Rattle.std.specs.Prelude.{◌≡◌, ◌≤◌, ◌/◌, IfOk, IfErr, OnErr};
ghost use Rattle.sd_manager.specs.Making.{KeepsRule};
ghost use Rattle.sd_apply.specs.CachedSteps.{IsCachedStep};
ghost use Rattle.sd_apply.specs.Growing.{GrowsByAnswerBoth, GrowsStrictlyBelowBoth};
ghost use Rattle.sd_apply.specs.Serving.{Serves};
ghost use Rattle.sd_apply.specs.Places.{IsBelow, IsThere};
ghost use Rattle.sd_apply.specs.Calls.{Applies, NegatesAt};

use crate::calls::apply;
use crate::negation::negate_at;
use crate::opposites::{are_opposite, keep_opposites};
use crate::places::{lca_with_children, place_with_children};
use crate::recent::Recent;
use crate::terminal::{NEGATION, at_opposites, number, opposite, terminal};
use sd_cache::Cache;
use sd_manager::{Manager, NodeId};
use sd_model::Operation;
use sd_runs::TakeError;
use sd_vtree::VNode;
use std::alloc::Global;

/// A connective at two nodes below a vtree node.
pub(crate) fn apply_cached(
    alloc: Global,
    m: &mut Manager,
    c: &mut Cache,
    operation: Operation,
    at: VNode,
    a: NodeId,
    b: NodeId,
) -> Result<NodeId, TakeError>
    requires at { IsThere m.old.vtree at }
    requires a { IsBelow m.old at a }
    requires b { IsBelow m.old at b }
    requires serves { Serves c.old m.old }
    ensures ok { IfOk result (λ r. Applies m.old m.new operation at a b r) }
    ensures step { IsCachedStep m.old m.new c.new a b }
    ensures one { IfOk result (λ r. GrowsByAnswerBoth m.old m.new a b r) }
    ensures none { OnErr result (GrowsStrictlyBelowBoth m.old m.new a b) }
    ensures rule { IfErr result (λ e. KeepsRule m.new e) }
{
    // its contract tells that the table is valid
    let _ = m.vtree();
    if let Some(code) = terminal(number(operation), a.0, b.0) {
        return Ok(NodeId(code));
    }
    // what no terminal case answers and has the constant true is the exclusive or with it
    if a.is_true() {
        return negate_cached(alloc, m, c, at, b);
    }
    if b.is_true() {
        return negate_cached(alloc, m, c, at, a);
    }
    // both orders of the operands have one entry
    if a.0 < b.0 {
        look_up_or_apply(alloc, m, c, operation, at, a, b)
    } else {
        look_up_or_apply(alloc, m, c, operation, at, b, a)
    }
}

// The same at nodes that are neither constants nor of one leaf: from the cache, or applied at the
// lowest vtree node below which both stand, and kept there.
fn look_up_or_apply(
    alloc: Global,
    m: &mut Manager,
    c: &mut Cache,
    operation: Operation,
    at: VNode,
    a: NodeId,
    b: NodeId,
) -> Result<NodeId, TakeError>
    requires at { IsThere m.old.vtree at }
    requires a { IsBelow m.old at a }
    requires b { IsBelow m.old at b }
    requires least_a { 2 ≤ a }
    requires least_b { 2 ≤ b }
    requires differ { a / 2 ≡ b / 2 → 2050 ≤ a }
    requires serves { Serves c.old m.old }
    ensures ok { IfOk result (λ r. Applies m.old m.new operation at a b r) }
    ensures step { IsCachedStep m.old m.new c.new a b }
    ensures one { IfOk result (λ r. GrowsByAnswerBoth m.old m.new a b r) }
    ensures none { OnErr result (GrowsStrictlyBelowBoth m.old m.new a b) }
    ensures rule { IfErr result (λ e. KeepsRule m.new e) }
{
    let epoch = m.epoch();
    let kind = number(operation);
    if let Some(code) = c.look(epoch, kind, a.0, b.0) {
        return Ok(NodeId(code));
    }
    if are_opposite(m, c, a, b) {
        return Ok(at_opposites(operation));
    }
    let over = lca_with_children(m, at, a, b).node;
    let mut recent = Recent::lent(alloc, m, c);
    let found = apply(m, &mut recent, operation, over, a, b);
    recent.give_back(m, c);
    let code = found?;
    // an answer that is not kept is found again
    let _ = c.keep(epoch, kind, a.0, b.0, code.0);
    Ok(code)
}

/// The negation of a node below a vtree node.
pub(crate) fn negate_cached(
    alloc: Global,
    m: &mut Manager,
    c: &mut Cache,
    at: VNode,
    a: NodeId,
) -> Result<NodeId, TakeError>
    requires at { IsThere m.old.vtree at }
    requires a { IsBelow m.old at a }
    requires serves { Serves c.old m.old }
    ensures ok { IfOk result (λ r. NegatesAt m.old m.new at a r) }
    ensures step { IsCachedStep m.old m.new c.new a a }
    ensures one { IfOk result (λ r. GrowsByAnswerBoth m.old m.new a a r) }
    ensures none { OnErr result (GrowsStrictlyBelowBoth m.old m.new a a) }
    ensures rule { IfErr result (λ e. KeepsRule m.new e) }
{
    let epoch = m.epoch();
    if let Some(code) = opposite(a.0) {
        return Ok(NodeId(code));
    }
    if let Some(code) = c.look(epoch, NEGATION, a.0, 0) {
        return Ok(NodeId(code));
    }
    let over = place_with_children(m, at, a).node;
    let mut recent = Recent::lent(alloc, m, c);
    let found = negate_at(m, &mut recent, over, a);
    recent.give_back(m, c);
    let code = found?;
    keep_opposites(m, c, a, code);
    Ok(code)
}
