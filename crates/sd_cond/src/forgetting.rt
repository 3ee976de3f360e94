// Forgetting below the vtree node of a node.
ghost use Rattle.std.specs.Prelude.{◌≡◌, ◌≤◌, Some, IfOk, IfErr, IfSome, IfNone};
ghost use Rattle.sd_model.specs.Diagram.{Diagram};
ghost use Rattle.sd_vtree.specs.Numbered.{variable_at, IsUnder};
ghost use Rattle.sd_manager.specs.Table.{Table};
ghost use Rattle.sd_manager.specs.Shown.{ShowsCanonical, IsNodeOf};
ghost use Rattle.sd_manager.specs.Valid.{IsTable};
ghost use Rattle.sd_manager.specs.Making.{KeepsRule};
ghost use Rattle.sd_apply.specs.Places.{IsBelow, HasPlace, IsFork};
ghost use Rattle.sd_apply.specs.Elements.{AreListedElements};
ghost use Rattle.sd_apply.specs.Serving.{Serves};
ghost use Rattle.sd_cond.specs.Calls.{forgotten, AnswersOf, IsStep, ForgetsSubs};
ghost use Rattle.sd_cond.specs.Kept.{AreForgetAnswers};

use crate::asked::{Condition, Variable};
use crate::conditioning::given_here;
use crate::kept::ForgetAnswers;
use crate::places::{is_left, is_over};
use sd_apply::{Fork, Pairs, are_same, compress, elements_of, or, place_with_children, push};
use sd_cache::Cache;
use sd_manager::{Manager, NodeId};
use sd_runs::TakeError;
use sd_vtree::VNode;
use smallvec::SmallVec;
use std::alloc::Global;

/// The answer of forgetting at a constant or a literal.
pub(crate) fn forget_terminal(a: NodeId, variable: u32) -> Option<NodeId>
    requires { 1 ≤ variable }
    ensures some { IfSome result (λ c. (t : Table) → IsTable t →
        AnswersOf t t (forgotten variable) a c) }
    ensures none { IfNone result (2050 ≤ a) }
{
    if a.is_decomposition() {
        return None;
    }
    if a.is_constant() || a.variable() != variable {
        return Some(a);
    }
    Some(NodeId::TRUE)
}

/// Forgetting at a node below a vtree node below which the variable's leaf stands.
#[cycle(forget)]
fn forget_at(
    alloc: Global,
    m: &mut Manager,
    c: &mut Cache,
    answers: &mut ForgetAnswers,
    variable: &Variable,
    at: VNode,
    a: NodeId,
) -> Result<NodeId, TakeError>
    requires variable { 1 ≤ variable.now.number }
    requires leaf { variable_at m.old.vtree variable.now.leaf ≡ Some variable.now.number }
    requires over { IsUnder m.old.vtree variable.now.leaf at }
    requires a { IsBelow m.old at a }
    requires knows { AreForgetAnswers m.old variable.now.number answers.old }
    requires serves { Serves c.old m.old }
    ensures ok { IfOk result (λ r. AnswersOf m.old m.new (forgotten variable.now.number) a r) }
    ensures step { IsStep m.old m.new at c.new }
    ensures knows { AreForgetAnswers m.new variable.now.number answers.new }
    ensures rule { IfErr result (λ e. KeepsRule m.new e) }
{
    // its contract tells that the table is valid
    let _ = m.vtree();
    if let Some(node) = forget_terminal(a, variable.number) {
        return Ok(node);
    }
    if let Some(code) = answers.forgotten.look(a) {
        return Ok(NodeId(code));
    }
    let fork = place_with_children(m, at, a);
    if !is_over(m, at, fork.node, variable.leaf) {
        return Ok(a);
    }
    let code = forget_here(alloc, m, c, answers, variable, &fork, a)?;
    let Ok(()) = answers.forgotten.keep(alloc, a, code) else {
        return Err(TakeError::OutOfMemory);
    };
    Ok(code)
}

/// Forgetting at a decomposition, below whose vtree node the variable's leaf stands.
#[cycle(forget)]
pub(crate) fn forget_here(
    alloc: Global,
    m: &mut Manager,
    c: &mut Cache,
    answers: &mut ForgetAnswers,
    variable: &Variable,
    fork: &Fork,
    a: NodeId,
) -> Result<NodeId, TakeError>
    requires variable { 1 ≤ variable.now.number }
    requires leaf { variable_at m.old.vtree variable.now.leaf ≡ Some variable.now.number }
    requires children { IsFork m.old.vtree fork.now }
    requires over { IsUnder m.old.vtree variable.now.leaf fork.now.node }
    requires node { IsNodeOf m.old a }
    requires code { 2050 ≤ a }
    requires place { (d : Diagram) → ShowsCanonical m.old a d
        → HasPlace m.old.vtree fork.now.node d }
    requires knows { AreForgetAnswers m.old variable.now.number answers.old }
    requires serves { Serves c.old m.old }
    requires table { IsTable m.old }
    ensures ok { IfOk result (λ r. AnswersOf m.old m.new (forgotten variable.now.number) a r) }
    ensures step { IsStep m.old m.new fork.now.node c.new }
    ensures knows { AreForgetAnswers m.new variable.now.number answers.new }
    ensures rule { IfErr result (λ e. KeepsRule m.new e) }
{
    if is_left(m, variable.leaf, fork) {
        return forget_by_both(alloc, m, c, answers, variable, fork, a);
    }
    let list = elements_of(alloc, m, a)?;
    let elements = list.as_slice();
    let pairs = forget_subs(alloc, m, c, answers, variable, fork, elements)?;
    let projected = pairs.as_slice();
    if are_same(projected, elements) {
        return Ok(a);
    }
    compress(alloc, m, c, fork.node, projected)
}

// The elements with the variable forgotten in their subs, where it is none of the primes'.
#[cycle(forget)]
fn forget_subs(
    alloc: Global,
    m: &mut Manager,
    c: &mut Cache,
    answers: &mut ForgetAnswers,
    variable: &Variable,
    fork: &Fork,
    list: &[(NodeId, NodeId)],
) -> Result<Pairs, TakeError>
    requires variable { 1 ≤ variable.now.number }
    requires leaf { variable_at m.old.vtree variable.now.leaf ≡ Some variable.now.number }
    requires children { IsFork m.old.vtree fork.now }
    requires over { IsUnder m.old.vtree variable.now.leaf fork.now.right }
    requires list { AreListedElements m.old fork.now.left fork.now.right list.now }
    requires knows { AreForgetAnswers m.old variable.now.number answers.old }
    requires serves { Serves c.old m.old }
    requires table { IsTable m.old }
    ensures ok { IfOk result (λ r. ForgetsSubs m.old m.new variable.now.number fork.now.left
        fork.now.right list.now r.items) }
    ensures step { IsStep m.old m.new fork.now.node c.new }
    ensures knows { AreForgetAnswers m.new variable.now.number answers.new }
    ensures rule { IfErr result (λ e. KeepsRule m.new e) }
{
    let mut pairs = SmallVec::new(alloc);
    for i in 0..list.len() {
        let (prime, sub) = list[i];
        let value = forget_at(alloc, m, c, answers, variable, fork.right, sub)?;
        push(&mut pairs, prime, value)?;
    }
    Ok(pairs)
}

// Forgetting as the disjunction of conditioning on the variable and on its negation.
fn forget_by_both(
    alloc: Global,
    m: &mut Manager,
    c: &mut Cache,
    answers: &mut ForgetAnswers,
    variable: &Variable,
    fork: &Fork,
    a: NodeId,
) -> Result<NodeId, TakeError>
    requires variable { 1 ≤ variable.now.number }
    requires leaf { variable_at m.old.vtree variable.now.leaf ≡ Some variable.now.number }
    requires children { IsFork m.old.vtree fork.now }
    requires over { IsUnder m.old.vtree variable.now.leaf fork.now.node }
    requires node { IsNodeOf m.old a }
    requires code { 2050 ≤ a }
    requires place { (d : Diagram) → ShowsCanonical m.old a d
        → HasPlace m.old.vtree fork.now.node d }
    requires knows { AreForgetAnswers m.old variable.now.number answers.old }
    requires serves { Serves c.old m.old }
    requires table { IsTable m.old }
    ensures ok { IfOk result (λ r. AnswersOf m.old m.new (forgotten variable.now.number) a r) }
    ensures step { IsStep m.old m.new fork.now.node c.new }
    ensures knows { AreForgetAnswers m.new variable.now.number answers.new }
    ensures rule { IfErr result (λ e. KeepsRule m.new e) }
{
    let yes = Condition {
        variable: variable.number,
        positive: true,
        leaf: variable.leaf,
    };
    let first = given_here(alloc, m, c, &mut answers.with_true, &yes, fork, a)?;
    let no = Condition {
        positive: false,
        ..yes
    };
    let second = given_here(alloc, m, c, &mut answers.with_false, &no, fork, a)?;
    or(alloc, m, c, first, second)
}
