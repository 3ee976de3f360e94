// The difference of two nodes at the whole vtree. The cache is asked once, and keeps the answer.
ghost use Rattle.std.specs.Prelude.{◌≡◌, ◌≤◌, ◌/◌, IfOk, IfErr};
ghost use Rattle.sd_manager.specs.Shown.{IsNodeOf};
ghost use Rattle.sd_manager.specs.Valid.{IsTable};
ghost use Rattle.sd_manager.specs.Making.{Extends, KeepsRule};
ghost use Rattle.sd_apply.specs.CachedSteps.{IsCachedStep};
ghost use Rattle.sd_apply.specs.Growing.{GrowsBelowBoth};
ghost use Rattle.sd_apply.specs.Serving.{Serves};
ghost use Rattle.sd_apply.specs.Places.{IsBelow, IsThere};
ghost use Rattle.sd_apply.specs.Difference.{Subtracts, SubtractsAt};

use crate::cached::negate_cached;
use crate::places::lca_with_children;
use crate::recent::Recent;
use crate::subtracting::{DIFFERENCE, known, subtract_at};
use sd_cache::Cache;
use sd_manager::{Manager, NodeId};
use sd_runs::TakeError;
use sd_vtree::VNode;
use std::alloc::Global;

/// The difference of two nodes, which is true where the first one is and the second one is not. It is the conjunction
/// with a negation that is made only where the vtree asks for it. It refuses as `and`. New nodes stand below the lowest
/// vtree node below which both operands stand.
pub fn difference(
    alloc: Global,
    m: &mut Manager,
    c: &mut Cache,
    a: NodeId,
    b: NodeId,
) -> Result<NodeId, TakeError>
    requires first { IsNodeOf m.old a }
    requires second { IsNodeOf m.old b }
    requires serves { Serves c.old m.old }
    ensures ok { IfOk result (λ r. Subtracts m.old m.new a b r) }
    ensures kept { Extends m.old m.new }
    ensures grown { GrowsBelowBoth m.old m.new a b }
    ensures serves { Serves c.new m.new }
    ensures rule { IfErr result (λ e. KeepsRule m.new e) }
    ensures table { IsTable m.new }
{
    let root = m.vtree().root();
    subtract_cached(alloc, m, c, root, a, b)
}

// The difference of two nodes below a vtree node.
fn subtract_cached(
    alloc: Global,
    m: &mut Manager,
    c: &mut Cache,
    at: VNode,
    a: NodeId,
    b: NodeId,
) -> Result<NodeId, TakeError>
    requires at { IsThere m.old.vtree at }
    requires a { IsBelow m.old at a }
    requires b { IsBelow m.old at b }
    requires serves { Serves c.old m.old }
    ensures ok { IfOk result (λ r. SubtractsAt m.old m.new at a b r) }
    ensures step { IsCachedStep m.old m.new c.new a b }
    ensures rule { IfErr result (λ e. KeepsRule m.new e) }
{
    // its contract tells that the table is valid
    let _ = m.vtree();
    if let Some(code) = known(a.0, b.0) {
        return Ok(NodeId(code));
    }
    if a.is_true() {
        return negate_cached(alloc, m, c, at, b);
    }
    look_up_or_subtract(alloc, m, c, at, a, b)
}

// The same at nodes that are neither constants nor of one leaf: from the cache, or made at the lowest vtree node below
// which both stand, and kept there.
fn look_up_or_subtract(
    alloc: Global,
    m: &mut Manager,
    c: &mut Cache,
    at: VNode,
    a: NodeId,
    b: NodeId,
) -> Result<NodeId, TakeError>
    requires at { IsThere m.old.vtree at }
    requires a { IsBelow m.old at a }
    requires b { IsBelow m.old at b }
    requires least_a { 2 ≤ a }
    requires least_b { 2 ≤ b }
    requires differ { a / 2 ≡ b / 2 → 2050 ≤ a }
    requires serves { Serves c.old m.old }
    ensures ok { IfOk result (λ r. SubtractsAt m.old m.new at a b r) }
    ensures step { IsCachedStep m.old m.new c.new a b }
    ensures rule { IfErr result (λ e. KeepsRule m.new e) }
{
    let epoch = m.epoch();
    if let Some(code) = c.look(epoch, DIFFERENCE, a.0, b.0) {
        return Ok(NodeId(code));
    }
    let over = lca_with_children(m, at, a, b).node;
    let mut recent = Recent::lent(alloc, m, c);
    let found = subtract_at(m, &mut recent, over, a, b);
    recent.give_back(m, c);
    let code = found?;
    // an answer that is not kept is found again
    let _ = c.keep(epoch, DIFFERENCE, a.0, b.0, code.0);
    Ok(code)
}
