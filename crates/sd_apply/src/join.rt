// A node joined with a group of literals, in one pass along the node: the group has no node of its own where the left
// child of each vtree node on the way is a leaf.
//
// A compiler joins each group of a formula to what it has so far. With a node for the group, nodes are made and swept
// away for each, and an operation finds most products decided. Here the literals, sorted by their leaves, go down the
// vtree beside the node (`join_below`). Where the left child is a leaf, the node has two halves, and a literal
// of that variable decides one of them (`join_halves`); where none is of it, both halves go on. At another vtree node
// the literals that are left get a node, and the operation is applied (`join_by_node`).
//
// The cost is a visit of each node on the way for each index of the first literal that is left. What is found is kept
// by node and index, but for a decomposition with one use (`is_shared`), in a table of the join's own
// (`node_answers.rt`); the cache is not asked. A join that goes down left children too was tried in a model: it gains
// no more, and costs the right tree a tenth of its instructions.
ghost use Rattle.std.specs.Prelude.{◌≡◌, ◌≢◌, ◌≤◌, ◌<◌, ◌+◌, ◌*◌, ℕ, ℤ, length, Some, slice_get, unsigned_abs};
ghost use Rattle.std.specs.Prelude.{IfOk, IfErr, IfSome, IsTrue};
ghost use Rattle.sd_model.specs.declared.trees.Operation.TheVariants.{Xor};
ghost use Rattle.sd_model.specs.Diagram.{Diagram};
ghost use Rattle.sd_vtree.specs.Numbered.{number_of, numbers, IsUnder as StandsUnder};
ghost use Rattle.sd_manager.specs.Literals.{code_of_literal};
ghost use Rattle.sd_manager.specs.Shown.{IsNodeOf, ShowsCanonical};
ghost use Rattle.sd_manager.specs.Valid.{IsTable};
ghost use Rattle.sd_manager.specs.Making.{Extends, KeepsRule};
ghost use Rattle.sd_apply.specs.Steps.{IsStepAt};
ghost use Rattle.sd_apply.specs.Recent.{Knows};
ghost use Rattle.sd_apply.specs.Serving.{Serves};
ghost use Rattle.sd_apply.specs.Places.{width, IsBelow, IsThere, HasChildren, HasPlace};
ghost use Rattle.sd_apply.specs.Group.{AreOrdered, JoinsGroup, GrowsBelowGroup};
ghost use Rattle.sd_apply.specs.GroupCalls.{deciding, between, AreLiteralsBelow, JoinsFrom, IsGroupNode};
ghost use Rattle.sd_apply.specs.Halves.{IsSplit, Halves};
ghost use Rattle.sd_apply.specs.GroupCalls.{StandLower, StandsFrom, GoesRight, JoinsHalves, Remembers};

use crate::calls::apply;
use crate::halves::{Split, halves_of, is_same, make_halves, split_at};
use crate::node_answers::NodeAnswers;
use crate::places::place_of;
use crate::recent::Recent;
use sd_cache::Cache;
use sd_manager::{Manager, NodeId};
use sd_model::Operation;
use sd_runs::TakeError;
use sd_vtree::{VNode, Vtree};
use std::alloc::Global;

// What a join asks on its way.
#[derive(Drop)]
struct Tables {
    // what operations on two nodes answered in this epoch: the cache's own table, lent until the join ends
    recent: Recent,
    // what this join answered at each node, for the literals from an index on
    found: NodeAnswers,
}

/// A node joined with a group of literals, in one pass along the node: for And a clause, the disjunction of the
/// literals, is conjoined, and for Or a term, their conjunction, is disjoined. The literals stand behind the positions
/// of their leaves, in the order of these. It refuses as `and`, and the cache is not asked for the answer.
pub fn join_group(
    alloc: Global,
    m: &mut Manager,
    c: &mut Cache,
    operation: Operation,
    node: NodeId,
    literals: &[(u32, i32)],
) -> Result<NodeId, TakeError>
    requires operation { operation ≢ Xor }
    requires node { IsNodeOf m.old node }
    requires literals { AreOrdered m.old.vtree literals.now }
    requires serves { Serves c.old m.old }
    ensures ok { IfOk result (λ r. JoinsGroup m.old m.new operation node literals.now r) }
    ensures kept { Extends m.old m.new }
    ensures grown { GrowsBelowGroup m.old m.new node literals.now }
    ensures serves { Serves c.new m.new }
    ensures rule { IfErr result (λ e. KeepsRule m.new e) }
    ensures table { IsTable m.new }
{
    let root = m.vtree().root();
    if literals.len() == 0 {
        return Ok(m.constant(deciding_value(operation)));
    }
    let over = lowest_over(m, node, literals);
    let recent = Recent::lent(alloc, m, c);
    let found = NodeAnswers::new(alloc);
    let mut tables = Tables { recent, found };
    let joined = join_from(m, &mut tables, operation, over, node, literals, 0);
    let Tables { recent, found: _ } = tables;
    recent.give_back(m, c);
    joined
}

// The lowest vtree node below which a node and all literals stand.
fn lowest_over(m: &Manager, node: NodeId, literals: &[(u32, i32)]) -> VNode
    requires node { IsNodeOf m.now node }
    requires literals { AreOrdered m.now.vtree literals.now }
    requires some { 1 ≤ length literals.now }
    ensures there { IsThere m.now.vtree result }
    ensures node { IsBelow m.now result node }
    ensures literals { AreLiteralsBelow m.now result 0 literals.now }
    ensures lowest { (n : ℕ) → IsThere m.now.vtree n → IsBelow m.now n node →
        ((i : ℕ) (e : ℕ × ℤ) → slice_get literals.now i ≡ Some e →
        IsBelow m.now n (code_of_literal e.1)) → StandsUnder m.now.vtree result n }
{
    let first = leaf_of(m, literals, 0);
    let last = leaf_of(m, literals, literals.len() - 1);
    let vtree = m.vtree();
    if node.is_constant() {
        return vtree.lca(first, last);
    }
    let own = place_of(m, node);
    lca_of_three(vtree, first, last, own)
}

// The lowest vtree node at or below which three stand, of which the first stands before the last: it is that of the
// two outer ones.
fn lca_of_three(vtree: &Vtree, first: VNode, last: VNode, own: VNode) -> VNode
    requires first { first < length (numbers vtree.now) }
    requires last { last < length (numbers vtree.now) }
    requires own { own < length (numbers vtree.now) }
    requires order { (p q : ℕ) → slice_get (numbers vtree.now) p ≡ Some first →
        slice_get (numbers vtree.now) q ≡ Some last → p ≤ q }
    ensures node { result < length (numbers vtree.now) }
    ensures first { StandsUnder vtree.now first result }
    ensures last { StandsUnder vtree.now last result }
    ensures own { StandsUnder vtree.now own result }
    ensures lowest { (n : ℕ) → StandsUnder vtree.now first n → StandsUnder vtree.now last n →
        StandsUnder vtree.now own n → StandsUnder vtree.now result n }
{
    let low = vtree.position(first);
    let high = vtree.position(last);
    let place = vtree.position(own);
    if place < low {
        return vtree.lca(own, last);
    }
    if high < place {
        return vtree.lca(first, own);
    }
    vtree.lca(first, last)
}

// The leaf of the literal at an index.
fn leaf_of(m: &Manager, literals: &[(u32, i32)], index: usize) -> VNode
    requires literals { AreOrdered m.now.vtree literals.now }
    requires within { index < length literals.now }
    ensures node { result < length (numbers m.now.vtree) }
    ensures place { (e : ℕ × ℤ) → slice_get literals.now index ≡ Some e → (d : Diagram) →
        ShowsCanonical m.now (code_of_literal e.1) d → HasPlace m.now.vtree result d }
{
    let (_, literal) = literal_at(literals, index);
    m.vtree().leaf(literal.unsigned_abs())
}

// What `join_group` does at a node below a vtree node, with the literals from an index on. Most calls are decided at
// once or were answered before, so that much is told where the call stands.
#[cycle(join)]
#[inline(always)]
fn join_from(
    m: &mut Manager,
    tables: &mut Tables,
    operation: Operation,
    at: VNode,
    node: NodeId,
    literals: &[(u32, i32)],
    from: usize,
) -> Result<NodeId, TakeError>
    requires operation { operation ≢ Xor }
    requires at { IsThere m.old.vtree at }
    requires node { IsBelow m.old at node }
    requires literals { AreLiteralsBelow m.old at from literals.now }
    requires knows { Knows tables.old.recent m.old }
    requires remembers { Remembers tables.old.found m.old operation literals.now }
    ensures ok { IfOk result (λ r. JoinsFrom m.old m.new operation at node from literals.now r) }
    ensures step { IsStepAt m.old m.new tables.new.recent at }
    ensures remembers { Remembers tables.new.found m.new operation literals.now }
    ensures rule { IfErr result (λ e. KeepsRule m.new e) }
{
    let decided = m.constant(deciding_value(operation));
    if from >= literals.len() {
        return Ok(decided);
    }
    if node.0 == decided.0 {
        return Ok(decided);
    }
    if is_shared(m, at, node) {
        if let Some(code) = tables.found.look(node.0, from + 1) {
            return Ok(NodeId(code));
        }
    }
    join_below(m, tables, operation, at, node, literals, from)
}

// The same where some literals are left, and where no answer is kept.
#[cycle(join)]
fn join_below(
    m: &mut Manager,
    tables: &mut Tables,
    operation: Operation,
    at: VNode,
    node: NodeId,
    literals: &[(u32, i32)],
    from: usize,
) -> Result<NodeId, TakeError>
    requires operation { operation ≢ Xor }
    requires at { IsThere m.old.vtree at }
    requires node { IsBelow m.old at node }
    requires literals { AreLiteralsBelow m.old at from literals.now }
    requires some { from < length literals.now }
    requires knows { Knows tables.old.recent m.old }
    requires remembers { Remembers tables.old.found m.old operation literals.now }
    requires table { IsTable m.old }
    ensures ok { IfOk result (λ r. JoinsFrom m.old m.new operation at node from literals.now r) }
    ensures step { IsStepAt m.old m.new tables.new.recent at }
    ensures remembers { Remembers tables.new.found m.new operation literals.now }
    ensures rule { IfErr result (λ e. KeepsRule m.new e) }
{
    let lower = lower_right(m, at, node, literals, from);
    let shared = is_shared(m, lower, node);
    let code = join_at(m, tables, operation, lower, node, literals, from)?;
    if !shared {
        return Ok(code);
    }
    tables
        .found
        .keep(tables.recent.alloc, node.0, from + 1, code.0);
    Ok(code)
}

// Whether a pass along a node may come to this one again: not where one list alone names it.
#[inline(always)]
fn is_shared(m: &Manager, at: VNode, node: NodeId) -> bool
    requires node { IsBelow m.now at node }
    requires table { IsTable m.now }
{
    !node.is_decomposition() || m.uses(node) > 1
}

// The same from the two halves of the node where the left child of the vtree node is a leaf, and else by the group's
// own node.
#[cycle(join)]
#[inline(always)]
fn join_at(
    m: &mut Manager,
    tables: &mut Tables,
    operation: Operation,
    at: VNode,
    node: NodeId,
    literals: &[(u32, i32)],
    from: usize,
) -> Result<NodeId, TakeError>
    requires operation { operation ≢ Xor }
    requires at { IsThere m.old.vtree at }
    requires node { IsBelow m.old at node }
    requires literals { AreLiteralsBelow m.old at from literals.now }
    requires some { from < length literals.now }
    requires knows { Knows tables.old.recent m.old }
    requires remembers { Remembers tables.old.found m.old operation literals.now }
    requires table { IsTable m.old }
    ensures ok { IfOk result (λ r. JoinsFrom m.old m.new operation at node from literals.now r) }
    ensures step { IsStepAt m.old m.new tables.new.recent at }
    ensures remembers { Remembers tables.new.found m.new operation literals.now }
    ensures rule { IfErr result (λ e. KeepsRule m.new e) }
{
    let Some(found) = halves_at(m, at, node, literals, from) else {
        let recent = &mut tables.recent;
        return join_by_node(m, recent, operation, at, node, literals, from);
    };
    let (split, halves) = (&found.0, &found.1);
    let joined = join_halves(m, tables, operation, split, halves, literals, from)?;
    if is_same(&joined.0, &halves.0) && is_same(&joined.1, &halves.1) {
        return Ok(node);
    }
    make_halves(m, at, split, joined.0, joined.1)
}

// The halves of a node, joined with the literals from an index on. Of a literal of the variable one half is decided:
// it stays as it is.
#[cycle(join)]
#[inline(always)]
fn join_halves(
    m: &mut Manager,
    tables: &mut Tables,
    operation: Operation,
    split: &Split,
    halves: &(NodeId, NodeId),
    literals: &[(u32, i32)],
    from: usize,
) -> Result<(NodeId, NodeId), TakeError>
    requires operation { operation ≢ Xor }
    requires right { GoesRight m.old split.now from literals.now }
    requires first { IsBelow m.old split.now.right halves.now.0 }
    requires second { IsBelow m.old split.now.right halves.now.1 }
    requires some { from < length literals.now }
    requires knows { Knows tables.old.recent m.old }
    requires remembers { Remembers tables.old.found m.old operation literals.now }
    requires table { IsTable m.old }
    ensures ok { IfOk result (λ r. JoinsHalves m.old m.new operation split.now.right
        split.now.variable halves.now.0 halves.now.1 from literals.now r) }
    ensures step { IsStepAt m.old m.new tables.new.recent split.now.right }
    ensures remembers { Remembers tables.new.found m.new operation literals.now }
    ensures rule { IfErr result (λ e. KeepsRule m.new e) }
{
    let (_, literal) = literal_at(literals, from);
    let right = split.right;
    let one = halves.0;
    let other = halves.1;
    if literal.unsigned_abs() != split.variable {
        let first = join_from(m, tables, operation, right, one, literals, from)?;
        let second = join_from(m, tables, operation, right, other, literals, from)?;
        return Ok((first, second));
    }
    let next = from + 1;
    if (literal > 0) == deciding_value(operation) {
        let first = join_from(m, tables, operation, right, one, literals, next)?;
        Ok((first, other))
    } else {
        let second = join_from(m, tables, operation, right, other, literals, next)?;
        Ok((one, second))
    }
}

// The same by the node of the literals.
fn join_by_node(
    m: &mut Manager,
    recent: &mut Recent,
    operation: Operation,
    at: VNode,
    node: NodeId,
    literals: &[(u32, i32)],
    from: usize,
) -> Result<NodeId, TakeError>
    requires operation { operation ≢ Xor }
    requires at { IsThere m.old.vtree at }
    requires node { IsBelow m.old at node }
    requires literals { AreLiteralsBelow m.old at from literals.now }
    requires within { from ≤ length literals.now }
    requires knows { Knows recent.old m.old }
    requires table { IsTable m.old }
    ensures ok { IfOk result (λ r. JoinsFrom m.old m.new operation at node from literals.now r) }
    ensures step { IsStepAt m.old m.new recent.new at }
    ensures rule { IfErr result (λ e. KeepsRule m.new e) }
{
    let group = literals_node(m, recent, operation, at, literals, from)?;
    apply(m, recent, operation, at, node, group)
}

// The node of the literals from an index on, joined from the last to the first.
fn literals_node(
    m: &mut Manager,
    recent: &mut Recent,
    operation: Operation,
    at: VNode,
    literals: &[(u32, i32)],
    from: usize,
) -> Result<NodeId, TakeError>
    requires operation { operation ≢ Xor }
    requires at { IsThere m.old.vtree at }
    requires literals { AreLiteralsBelow m.old at from literals.now }
    requires within { from ≤ length literals.now }
    requires knows { Knows recent.old m.old }
    requires table { IsTable m.old }
    ensures ok { IfOk result (λ r. IsGroupNode m.new operation at from literals.now r) }
    ensures step { IsStepAt m.old m.new recent.new at }
    ensures rule { IfErr result (λ e. KeepsRule m.new e) }
{
    let mut node = m.constant(deciding_value(operation));
    let mut index = literals.len();
    while from < index {
        index -= 1;
        let literal = m.literal(literal_at(literals, index).1);
        node = apply(m, recent, between_literals(operation), at, literal, node)?;
    }
    Ok(node)
}

// The literal at an index.
fn literal_at(literals: &[(u32, i32)], index: usize) -> (u32, i32)
    requires { index < length literals.now }
    ensures { slice_get literals.now index ≡ Some result }
{
    literals[index]
}

// The constant that decides a connective.
fn deciding_value(operation: Operation) -> bool
    ensures { result ≡ deciding operation }
{
    matches!(operation, Operation::Or)
}

// The connective between the literals of a group.
fn between_literals(operation: Operation) -> Operation
    ensures { result ≡ between operation }
{
    match operation {
        Operation::And => Operation::Or,
        Operation::Or => Operation::And,
        Operation::Xor => Operation::Xor,
    }
}

// The leaf and the right child of a vtree node, and the halves of the node, where the literals go on below that child.
#[inline(always)]
fn halves_at(
    m: &Manager,
    at: VNode,
    node: NodeId,
    literals: &[(u32, i32)],
    from: usize,
) -> Option<(Split, (NodeId, NodeId))>
    requires at { IsThere m.now.vtree at }
    requires node { IsBelow m.now at node }
    requires literals { AreLiteralsBelow m.now at from literals.now }
    requires some { from < length literals.now }
    requires table { IsTable m.now }
    ensures split { IfSome result (λ r. IsSplit m.now.vtree at r.0) }
    ensures halves { IfSome result (λ r. Halves m.now at r.0.right r.0.variable node r.1) }
    ensures right { IfSome result (λ r. GoesRight m.now r.0 from literals.now) }
{
    let Some(split) = split_at(m, at) else {
        return None;
    };
    let next = next_right(literals, from, split.variable);
    if !are_right(m, at, &split, literals, from, next) {
        return None;
    }
    let Some(halves) = halves_of(m, at, &split, node) else {
        return None;
    };
    Some((split, halves))
}

// The index of the first literal from an index on that is not of the variable, where it is this or the next one.
#[inline(always)]
fn next_right(literals: &[(u32, i32)], from: usize, variable: u32) -> usize
    requires { from < length literals.now }
    ensures least { from ≤ result }
    ensures most { result ≤ from + 1 }
    ensures begins { (e : ℕ × ℤ) → slice_get literals.now from ≡ Some e → unsigned_abs e.1 ≢ variable →
        result ≡ from }
{
    let (_, literal) = literal_at(literals, from);
    if literal.unsigned_abs() == variable {
        from + 1
    } else {
        from
    }
}

// Whether the literals from the next index on stand below the right child.
#[inline(always)]
fn are_right(
    m: &Manager,
    at: VNode,
    split: &Split,
    literals: &[(u32, i32)],
    from: usize,
    next: usize,
) -> bool
    requires children { HasChildren m.now.vtree at split.now.left split.now.right }
    requires literals { AreLiteralsBelow m.now at from literals.now }
    requires order { from ≤ next }
    requires table { IsTable m.now }
    ensures { IsTrue result → AreLiteralsBelow m.now split.now.right next literals.now }
{
    if next >= literals.len() {
        return true;
    }
    let (position, _) = literal_at(literals, next);
    m.vtree().position(at) < position
}

// The vtree node itself where the node stands there, and else the one that `skip_right` finds.
#[inline(always)]
fn lower_right(m: &Manager, at: VNode, node: NodeId, literals: &[(u32, i32)], from: usize) -> VNode
    requires at { IsThere m.now.vtree at }
    requires node { IsBelow m.now at node }
    requires literals { AreLiteralsBelow m.now at from literals.now }
    requires some { from < length literals.now }
    requires table { IsTable m.now }
    ensures { StandLower m.now at node from literals.now result }
{
    if node.is_decomposition() && place_of(m, node).0 == at.0 {
        return at;
    }
    skip_right(m, at, node, literals, from)
}

// The first of the right children, one below the other, at which the node's place or the literal at an index stands.
#[inline(never)]
fn skip_right(m: &Manager, at: VNode, node: NodeId, literals: &[(u32, i32)], from: usize) -> VNode
    requires at { IsThere m.now.vtree at }
    requires node { IsBelow m.now at node }
    requires literals { AreLiteralsBelow m.now at from literals.now }
    requires some { from < length literals.now }
    requires table { IsTable m.now }
    ensures { StandLower m.now at node from literals.now result }
{
    let (first, _) = literal_at(literals, from);
    let least = least_position(m, at, node, first);
    let vtree = m.vtree();
    let mut lower = at;
    while vtree.position(lower) < least {
        let Some(children) = vtree.children(lower) else {
            return lower;
        };
        lower = children.1;
    }
    lower
}

// The least of a position and that of a node that is no constant.
fn least_position(m: &Manager, at: VNode, node: NodeId, first: u32) -> u32
    requires node { IsBelow m.now at node }
    requires table { IsTable m.now }
    ensures first { result ≤ first }
    ensures node { StandsFrom m.now node result }
{
    if node.is_constant() {
        return first;
    }
    let own = place_of(m, node);
    first.min(m.vtree().position(own))
}
