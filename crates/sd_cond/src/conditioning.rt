// Conditioning below the vtree node of a node.
ghost use Rattle.std.specs.Prelude.{◌≡◌, ◌≤◌, true, false, Some, IfOk, IfErr, IfSome, IfNone};
ghost use Rattle.sd_model.specs.Diagram.{Diagram};
ghost use Rattle.sd_vtree.specs.Numbered.{variable_at, IsUnder};
ghost use Rattle.sd_manager.specs.Table.{Table};
ghost use Rattle.sd_manager.specs.Shown.{ShowsCanonical, IsNodeOf};
ghost use Rattle.sd_manager.specs.Valid.{IsTable};
ghost use Rattle.sd_manager.specs.Making.{KeepsRule};
ghost use Rattle.sd_apply.specs.Places.{IsBelow, HasPlace, IsFork};
ghost use Rattle.sd_apply.specs.Elements.{AreListedElements};
ghost use Rattle.sd_apply.specs.Serving.{Serves};
ghost use Rattle.sd_cond.specs.Calls.{conditioned, AnswersOf, IsStep, Tells, FixesPairs};
ghost use Rattle.sd_cond.specs.ByHalves.{IsHalved};
ghost use Rattle.sd_cond.specs.Kept.{AreAnswers};

use crate::asked::Condition;
use crate::halved::Halved;
use crate::kept::KeptAnswers;
use crate::places::{is_left, is_over};
use sd_apply::{
    Fork, Pairs, Split, are_same, compress, elements_of, make_halves, own_halves,
    place_with_children, push, split_of,
};
use sd_cache::Cache;
use sd_manager::{Manager, NodeId};
use sd_runs::TakeError;
use sd_vtree::VNode;
use smallvec::SmallVec;
use std::alloc::Global;

/// The answer of conditioning at a constant or a literal.
pub(crate) fn at_terminal(a: NodeId, variable: u32, positive: bool) -> Option<NodeId>
    requires { 1 ≤ variable }
    ensures some { IfSome result (λ c. (t : Table) → IsTable t →
        AnswersOf t t (conditioned variable positive) a c) }
    ensures none { IfNone result (2050 ≤ a) }
{
    if a.is_decomposition() {
        return None;
    }
    if a.is_constant() || a.variable() != variable {
        return Some(a);
    }
    if a.is_positive() == positive {
        return Some(NodeId::TRUE);
    }
    Some(NodeId::FALSE)
}

/// Conditioning at a node below a vtree node below which the variable's leaf stands.
#[cycle(given)]
pub(crate) fn given_at(
    alloc: Global,
    m: &mut Manager,
    c: &mut Cache,
    kept: &mut KeptAnswers,
    condition: &Condition,
    at: VNode,
    a: NodeId,
) -> Result<NodeId, TakeError>
    requires variable { 1 ≤ condition.now.variable }
    requires leaf { variable_at m.old.vtree condition.now.leaf ≡ Some condition.now.variable }
    requires over { IsUnder m.old.vtree condition.now.leaf at }
    requires a { IsBelow m.old at a }
    requires knows { AreAnswers m.old
        (conditioned condition.now.variable condition.now.positive) kept.old }
    requires serves { Serves c.old m.old }
    ensures ok { IfOk result (λ r.
        AnswersOf m.old m.new (conditioned condition.now.variable condition.now.positive) a r) }
    ensures step { IsStep m.old m.new at c.new }
    ensures knows { AreAnswers m.new
        (conditioned condition.now.variable condition.now.positive) kept.new }
    ensures rule { IfErr result (λ e. KeepsRule m.new e) }
{
    // its contract tells that the table is valid
    let _ = m.vtree();
    if let Some(node) = at_terminal(a, condition.variable, condition.positive) {
        return Ok(node);
    }
    if let Some(code) = kept.look(a) {
        return Ok(NodeId(code));
    }
    let fork = place_with_children(m, at, a);
    if !is_over(m, at, fork.node, condition.leaf) {
        return Ok(a);
    }
    let code = given_here(alloc, m, c, kept, condition, &fork, a)?;
    let Ok(()) = kept.keep(alloc, a, code) else {
        return Err(TakeError::OutOfMemory);
    };
    Ok(code)
}

/// Conditioning at a decomposition, below whose vtree node the variable's leaf stands.
#[cycle(given)]
pub(crate) fn given_here(
    alloc: Global,
    m: &mut Manager,
    c: &mut Cache,
    kept: &mut KeptAnswers,
    condition: &Condition,
    fork: &Fork,
    a: NodeId,
) -> Result<NodeId, TakeError>
    requires variable { 1 ≤ condition.now.variable }
    requires leaf { variable_at m.old.vtree condition.now.leaf ≡ Some condition.now.variable }
    requires children { IsFork m.old.vtree fork.now }
    requires over { IsUnder m.old.vtree condition.now.leaf fork.now.node }
    requires node { IsNodeOf m.old a }
    requires code { 2050 ≤ a }
    requires place { (d : Diagram) → ShowsCanonical m.old a d
        → HasPlace m.old.vtree fork.now.node d }
    requires knows { AreAnswers m.old
        (conditioned condition.now.variable condition.now.positive) kept.old }
    requires serves { Serves c.old m.old }
    requires table { IsTable m.old }
    ensures ok { IfOk result (λ r.
        AnswersOf m.old m.new (conditioned condition.now.variable condition.now.positive) a r) }
    ensures step { IsStep m.old m.new fork.now.node c.new }
    ensures knows { AreAnswers m.new
        (conditioned condition.now.variable condition.now.positive) kept.new }
    ensures rule { IfErr result (λ e. KeepsRule m.new e) }
{
    if let Some(split) = split_of(m, fork) {
        if let Some(halves) = own_halves(m, fork.node, &split, a) {
            let halved = Halved {
                node: fork.node,
                split,
                halves,
            };
            return given_halves(alloc, m, c, kept, condition, &halved, a);
        }
    }
    given_elements(alloc, m, c, kept, condition, fork, a)
}

// The same by the halves, at a vtree node whose left child is a leaf: one of them where that leaf is the variable's,
// and else the node of both conditioned. It makes no list.
#[cycle(given)]
fn given_halves(
    alloc: Global,
    m: &mut Manager,
    c: &mut Cache,
    kept: &mut KeptAnswers,
    condition: &Condition,
    halved: &Halved,
    a: NodeId,
) -> Result<NodeId, TakeError>
    requires variable { 1 ≤ condition.now.variable }
    requires leaf { variable_at m.old.vtree condition.now.leaf ≡ Some condition.now.variable }
    requires over { IsUnder m.old.vtree condition.now.leaf halved.now.node }
    requires halved { IsHalved m.old halved.now a }
    requires knows { AreAnswers m.old
        (conditioned condition.now.variable condition.now.positive) kept.old }
    requires serves { Serves c.old m.old }
    requires table { IsTable m.old }
    ensures ok { IfOk result (λ r.
        AnswersOf m.old m.new (conditioned condition.now.variable condition.now.positive) a r) }
    ensures step { IsStep m.old m.new halved.now.node c.new }
    ensures knows { AreAnswers m.new
        (conditioned condition.now.variable condition.now.positive) kept.new }
    ensures rule { IfErr result (λ e. KeepsRule m.new e) }
{
    let Split { left, right, .. } = halved.split;
    let fork = Fork {
        node: halved.node,
        left,
        right,
    };
    if is_left(m, condition.leaf, &fork) {
        if condition.positive {
            return Ok(halved.halves.0);
        }
        return Ok(halved.halves.1);
    }
    let first = given_at(alloc, m, c, kept, condition, right, halved.halves.0)?;
    let second = given_at(alloc, m, c, kept, condition, right, halved.halves.1)?;
    make_halves(m, halved.node, &halved.split, first, second)
}

// The same by the elements.
#[cycle(given)]
fn given_elements(
    alloc: Global,
    m: &mut Manager,
    c: &mut Cache,
    kept: &mut KeptAnswers,
    condition: &Condition,
    fork: &Fork,
    a: NodeId,
) -> Result<NodeId, TakeError>
    requires variable { 1 ≤ condition.now.variable }
    requires leaf { variable_at m.old.vtree condition.now.leaf ≡ Some condition.now.variable }
    requires children { IsFork m.old.vtree fork.now }
    requires over { IsUnder m.old.vtree condition.now.leaf fork.now.node }
    requires node { IsNodeOf m.old a }
    requires code { 2050 ≤ a }
    requires place { (d : Diagram) → ShowsCanonical m.old a d
        → HasPlace m.old.vtree fork.now.node d }
    requires knows { AreAnswers m.old
        (conditioned condition.now.variable condition.now.positive) kept.old }
    requires serves { Serves c.old m.old }
    requires table { IsTable m.old }
    ensures ok { IfOk result (λ r.
        AnswersOf m.old m.new (conditioned condition.now.variable condition.now.positive) a r) }
    ensures step { IsStep m.old m.new fork.now.node c.new }
    ensures knows { AreAnswers m.new
        (conditioned condition.now.variable condition.now.positive) kept.new }
    ensures rule { IfErr result (λ e. KeepsRule m.new e) }
{
    let list = elements_of(alloc, m, a)?;
    let elements = list.as_slice();
    let pairs = given_pairs(alloc, m, c, kept, condition, fork, elements)?;
    let fixed = pairs.as_slice();
    if are_same(fixed, elements) {
        return Ok(a);
    }
    compress(alloc, m, c, fork.node, fixed)
}

// The elements where the variable has the value, without those whose prime is false then.
#[cycle(given)]
fn given_pairs(
    alloc: Global,
    m: &mut Manager,
    c: &mut Cache,
    kept: &mut KeptAnswers,
    condition: &Condition,
    fork: &Fork,
    list: &[(NodeId, NodeId)],
) -> Result<Pairs, TakeError>
    requires variable { 1 ≤ condition.now.variable }
    requires leaf { variable_at m.old.vtree condition.now.leaf ≡ Some condition.now.variable }
    requires children { IsFork m.old.vtree fork.now }
    requires over { IsUnder m.old.vtree condition.now.leaf fork.now.node }
    requires list { AreListedElements m.old fork.now.left fork.now.right list.now }
    requires knows { AreAnswers m.old
        (conditioned condition.now.variable condition.now.positive) kept.old }
    requires serves { Serves c.old m.old }
    requires table { IsTable m.old }
    ensures ok { IfOk result (λ r. FixesPairs m.old m.new condition.now.variable
        condition.now.positive fork.now.left fork.now.right list.now r.items) }
    ensures step { IsStep m.old m.new fork.now.node c.new }
    ensures knows { AreAnswers m.new
        (conditioned condition.now.variable condition.now.positive) kept.new }
    ensures rule { IfErr result (λ e. KeepsRule m.new e) }
{
    if is_left(m, condition.leaf, fork) {
        given_primes(alloc, m, c, kept, condition, fork, list)
    } else {
        given_subs(alloc, m, c, kept, condition, fork, list)
    }
}

// The same where the leaf stands on the side of the primes.
#[cycle(given)]
fn given_primes(
    alloc: Global,
    m: &mut Manager,
    c: &mut Cache,
    kept: &mut KeptAnswers,
    condition: &Condition,
    fork: &Fork,
    list: &[(NodeId, NodeId)],
) -> Result<Pairs, TakeError>
    requires variable { 1 ≤ condition.now.variable }
    requires leaf { variable_at m.old.vtree condition.now.leaf ≡ Some condition.now.variable }
    requires children { IsFork m.old.vtree fork.now }
    requires left { Tells m.old.vtree condition.now.leaf fork.now.left true }
    requires right { Tells m.old.vtree condition.now.leaf fork.now.right false }
    requires list { AreListedElements m.old fork.now.left fork.now.right list.now }
    requires knows { AreAnswers m.old
        (conditioned condition.now.variable condition.now.positive) kept.old }
    requires serves { Serves c.old m.old }
    requires table { IsTable m.old }
    ensures ok { IfOk result (λ r. FixesPairs m.old m.new condition.now.variable
        condition.now.positive fork.now.left fork.now.right list.now r.items) }
    ensures step { IsStep m.old m.new fork.now.node c.new }
    ensures knows { AreAnswers m.new
        (conditioned condition.now.variable condition.now.positive) kept.new }
    ensures rule { IfErr result (λ e. KeepsRule m.new e) }
{
    let mut pairs = SmallVec::new(alloc);
    for i in 0..list.len() {
        let (prime, sub) = list[i];
        let fixed = given_at(alloc, m, c, kept, condition, fork.left, prime)?;
        if !fixed.is_false() {
            push(&mut pairs, fixed, sub)?;
        }
    }
    Ok(pairs)
}

// The same where the leaf stands on the side of the subs.
#[cycle(given)]
fn given_subs(
    alloc: Global,
    m: &mut Manager,
    c: &mut Cache,
    kept: &mut KeptAnswers,
    condition: &Condition,
    fork: &Fork,
    list: &[(NodeId, NodeId)],
) -> Result<Pairs, TakeError>
    requires variable { 1 ≤ condition.now.variable }
    requires leaf { variable_at m.old.vtree condition.now.leaf ≡ Some condition.now.variable }
    requires children { IsFork m.old.vtree fork.now }
    requires left { Tells m.old.vtree condition.now.leaf fork.now.left false }
    requires right { Tells m.old.vtree condition.now.leaf fork.now.right true }
    requires list { AreListedElements m.old fork.now.left fork.now.right list.now }
    requires knows { AreAnswers m.old
        (conditioned condition.now.variable condition.now.positive) kept.old }
    requires serves { Serves c.old m.old }
    requires table { IsTable m.old }
    ensures ok { IfOk result (λ r. FixesPairs m.old m.new condition.now.variable
        condition.now.positive fork.now.left fork.now.right list.now r.items) }
    ensures step { IsStep m.old m.new fork.now.node c.new }
    ensures knows { AreAnswers m.new
        (conditioned condition.now.variable condition.now.positive) kept.new }
    ensures rule { IfErr result (λ e. KeepsRule m.new e) }
{
    let mut pairs = SmallVec::new(alloc);
    for i in 0..list.len() {
        let (prime, sub) = list[i];
        let value = given_at(alloc, m, c, kept, condition, fork.right, sub)?;
        push(&mut pairs, prime, value)?;
    }
    Ok(pairs)
}
