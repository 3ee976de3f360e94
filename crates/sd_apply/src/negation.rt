// Negation, which goes down to the subs of a decomposition.
//
// The primes stay, and subs that differ have negations that differ: so no elements are joined, and the cost is a visit
// of each node. Of two elements, which most nodes have, no list is made. The table of steps is asked for a sub before
// the call (`find_or_negate`); at the top it is asked in the call, so that the connectives' own calls stay short.
ghost use Rattle.std.specs.Prelude.{◌≤◌, IfOk, IfErr, OnErr};
ghost use Rattle.sd_manager.specs.Valid.{IsTable};
ghost use Rattle.sd_manager.specs.Making.{KeepsRule};
ghost use Rattle.sd_apply.specs.Recent.{Knows};
ghost use Rattle.sd_apply.specs.Steps.{IsStep, IsStepAt};
ghost use Rattle.sd_apply.specs.Growing.{GrowsByAnswer, GrowsStrictlyBelow};
ghost use Rattle.sd_apply.specs.Places.{IsBelow, IsThere, IsFork};
ghost use Rattle.sd_apply.specs.Elements.{AreListedElements};
ghost use Rattle.sd_apply.specs.Calls.{NegatesAt, NegatesSubs};

use crate::lists::{Pairs, are_two, elements_of, push};
use crate::making::make_apart;
use crate::places::{Fork, place_with_children};
use crate::recent::Recent;
use crate::terminal::{NEGATION, opposite};
use sd_manager::{Manager, NodeId};
use sd_runs::TakeError;
use sd_vtree::VNode;
use smallvec::SmallVec;

/// The negation of a node below a vtree node.
#[inline(never)]
pub(crate) fn negate_at(
    m: &mut Manager,
    recent: &mut Recent,
    at: VNode,
    a: NodeId,
) -> Result<NodeId, TakeError>
    requires at { IsThere m.old.vtree at }
    requires a { IsBelow m.old at a }
    requires knows { Knows recent.old m.old }
    ensures ok { IfOk result (λ r. NegatesAt m.old m.new at a r) }
    ensures step { IsStepAt m.old m.new recent.new at }
    ensures one { IfOk result (λ r. GrowsByAnswer m.old m.new at r) }
    ensures none { OnErr result (GrowsStrictlyBelow m.old m.new at) }
    ensures rule { IfErr result (λ e. KeepsRule m.new e) }
{
    find_or_negate(m, recent, at, a)
}

// The same in place, so that what is known is found without a call.
#[cycle(negate)]
#[inline(always)]
fn find_or_negate(
    m: &mut Manager,
    recent: &mut Recent,
    at: VNode,
    a: NodeId,
) -> Result<NodeId, TakeError>
    requires at { IsThere m.old.vtree at }
    requires a { IsBelow m.old at a }
    requires knows { Knows recent.old m.old }
    ensures ok { IfOk result (λ r. NegatesAt m.old m.new at a r) }
    ensures step { IsStepAt m.old m.new recent.new at }
    ensures one { IfOk result (λ r. GrowsByAnswer m.old m.new at r) }
    ensures none { OnErr result (GrowsStrictlyBelow m.old m.new at) }
    ensures rule { IfErr result (λ e. KeepsRule m.new e) }
{
    // its contract tells that the table is valid
    let _ = m.vtree();
    if let Some(code) = opposite(a.0) {
        return Ok(NodeId(code));
    }
    if let Some(code) = recent.look(NEGATION, a.0, 0) {
        return Ok(NodeId(code));
    }
    negate_anew(m, recent, at, a)
}

// The negation of a decomposition, which is not known, and is kept.
#[cycle(negate)]
#[inline(never)]
fn negate_anew(
    m: &mut Manager,
    recent: &mut Recent,
    at: VNode,
    a: NodeId,
) -> Result<NodeId, TakeError>
    requires at { IsThere m.old.vtree at }
    requires a { IsBelow m.old at a }
    requires code { 2050 ≤ a }
    requires knows { Knows recent.old m.old }
    ensures ok { IfOk result (λ r. NegatesAt m.old m.new at a r) }
    ensures step { IsStepAt m.old m.new recent.new at }
    ensures one { IfOk result (λ r. GrowsByAnswer m.old m.new at r) }
    ensures none { OnErr result (GrowsStrictlyBelow m.old m.new at) }
    ensures rule { IfErr result (λ e. KeepsRule m.new e) }
{
    let code = negate_elements(m, recent, at, a)?;
    recent.keep(NEGATION, a.0, 0, code.0);
    Ok(code)
}

// The node of the elements of a decomposition with their subs negated. Subs that differ have negations that differ, so
// none are joined.
#[cycle(negate)]
fn negate_elements(
    m: &mut Manager,
    recent: &mut Recent,
    at: VNode,
    a: NodeId,
) -> Result<NodeId, TakeError>
    requires at { IsThere m.old.vtree at }
    requires a { IsBelow m.old at a }
    requires code { 2050 ≤ a }
    requires knows { Knows recent.old m.old }
    ensures ok { IfOk result (λ r. NegatesAt m.old m.new at a r) }
    ensures step { IsStepAt m.old m.new recent.new at }
    ensures one { IfOk result (λ r. GrowsByAnswer m.old m.new at r) }
    ensures none { OnErr result (GrowsStrictlyBelow m.old m.new at) }
    ensures rule { IfErr result (λ e. KeepsRule m.new e) }
{
    let fork = place_with_children(m, at, a);
    if are_two(m, a) {
        let (prime, sub) = m.element(a, 0);
        let (other, value) = m.element(a, 1);
        let negated = negate_both(m, recent, fork.right, sub, value)?;
        return make_apart(m, &fork, &[(prime, negated.0), (other, negated.1)]);
    }
    let list = elements_of(recent.alloc, m, a)?;
    let pairs = negate_subs(m, recent, &fork, list.as_slice())?;
    make_apart(m, &fork, pairs.as_slice())
}

// The negations of two nodes.
#[cycle(negate)]
#[inline(always)]
fn negate_both(
    m: &mut Manager,
    recent: &mut Recent,
    at: VNode,
    a: NodeId,
    b: NodeId,
) -> Result<(NodeId, NodeId), TakeError>
    requires at { IsThere m.old.vtree at }
    requires a { IsBelow m.old at a }
    requires b { IsBelow m.old at b }
    requires knows { Knows recent.old m.old }
    ensures first { IfOk result (λ r. NegatesAt m.old m.new at a r.0) }
    ensures second { IfOk result (λ r. NegatesAt m.old m.new at b r.1) }
    ensures step { IsStepAt m.old m.new recent.new at }
    ensures rule { IfErr result (λ e. KeepsRule m.new e) }
{
    let first = find_or_negate(m, recent, at, a)?;
    let second = find_or_negate(m, recent, at, b)?;
    Ok((first, second))
}

// The elements with their subs negated.
#[cycle(negate)]
fn negate_subs(
    m: &mut Manager,
    recent: &mut Recent,
    fork: &Fork,
    list: &[(NodeId, NodeId)],
) -> Result<Pairs, TakeError>
    requires children { IsFork m.old.vtree fork.now }
    requires list { AreListedElements m.old fork.now.left fork.now.right list.now }
    requires knows { Knows recent.old m.old }
    requires table { IsTable m.old }
    ensures ok { IfOk result
        (λ r. NegatesSubs m.old m.new fork.now.right list.now r.items) }
    ensures step { IsStep m.old m.new recent.new fork.now.left fork.now.right }
    ensures rule { IfErr result (λ e. KeepsRule m.new e) }
{
    let mut pairs = SmallVec::new(recent.alloc);
    for i in 0..list.len() {
        let (prime, sub) = list[i];
        let other = find_or_negate(m, recent, fork.right, sub)?;
        push(&mut pairs, prime, other)?;
    }
    Ok(pairs)
}
