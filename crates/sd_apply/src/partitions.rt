// Partitions of a vtree node as lists of pairs: made of a node, multiplied, and with equal subs joined. None of these
// calls makes a node at the vtree node itself, so they serve while the nodes there are detached in a move.
//
// None of them asks the cache, whose keys are nodes and no lists. Their caller holds the table of what was answered, so
// that what the lists of many nodes share is negated and multiplied once for all of them.
ghost use Rattle.std.specs.Prelude.{◌≡◌, ℕ, List, map, IfOk, IfErr};
ghost use Rattle.sd_model.specs.Tree.{AreDistinct};
ghost use Rattle.sd_model.specs.Diagram.{Diagram};
ghost use Rattle.sd_manager.specs.Shown.{IsPartitionAt};
ghost use Rattle.sd_manager.specs.Valid.{IsTable};
ghost use Rattle.sd_manager.specs.Making.{Extends, KeepsRule};
ghost use Rattle.sd_apply.specs.Growing.{GrowsStrictlyBelow};
ghost use Rattle.sd_apply.specs.Partitions.{IsInnerNode, AreDisjointAt, ExpandsAt, MultipliesAt, MergesAt};
ghost use Rattle.sd_apply.specs.Places.{IsBelow};
ghost use Rattle.sd_apply.specs.Recent.{Knows};

use crate::calls::{merge, multiply};
use crate::lists::{Pairs, below_left, below_right, by_sub, elements_of};
use crate::negation::negate_at;
use crate::places::{Fork, place_of};
use crate::recent::Recent;
use sd_manager::{Manager, NodeId};
use sd_model::Operation;
use sd_runs::TakeError;
use sd_vtree::VNode;
use std::alloc::Global;

/// A node that stands at a vtree node or below it, as a partition there: its own elements where it stands at it, the
/// node beside the prime true where it stands below the right child or is constant, and else the node beside the sub
/// true with its negation beside false. It refuses as `and`.
pub fn expand_at(
    alloc: Global,
    m: &mut Manager,
    recent: &mut Recent,
    place: VNode,
    a: NodeId,
) -> Result<Pairs, TakeError>
    requires place { IsInnerNode m.old.vtree place }
    requires a { IsBelow m.old place a }
    requires knows { Knows recent.old m.old }
    ensures ok { IfOk result (λ r. ExpandsAt m.old m.new place a r.items) }
    ensures kept { Extends m.old m.new }
    ensures grown { GrowsStrictlyBelow m.old m.new place }
    ensures knows { Knows recent.new m.new }
    ensures rule { IfErr result (λ e. KeepsRule m.new e) }
    ensures table { IsTable m.new }
{
    let Some(children) = m.vtree().children(place) else {
        unreachable!()
    };
    if a.0 < 2 {
        return below_right(alloc, a);
    }
    let own = place_of(m, a);
    if own.0 == place.0 {
        return elements_of(alloc, m, a);
    }
    let middle = m.vtree().position(place);
    let at = m.vtree().position(own);
    if middle < at {
        return below_right(alloc, a);
    }
    let other = negate_at(m, recent, children.0, a)?;
    below_left(alloc, a, other)
}

/// The products of two lists of elements at a vtree node, without those that have a false prime. The second list is a
/// partition; of the first at most one prime is true under each assignment. It refuses as `and`.
pub fn multiply_at(
    m: &mut Manager,
    recent: &mut Recent,
    operation: Operation,
    place: VNode,
    first: &[(NodeId, NodeId)],
    second: &[(NodeId, NodeId)],
) -> Result<Pairs, TakeError>
    requires first { AreDisjointAt m.old place first.now }
    requires second { (ds : List (Diagram × Diagram)) × IsPartitionAt m.old place second.now ds }
    requires knows { Knows recent.old m.old }
    ensures ok { IfOk result
        (λ r. MultipliesAt m.old m.new operation place first.now second.now r.items) }
    ensures kept { Extends m.old m.new }
    ensures grown { GrowsStrictlyBelow m.old m.new place }
    ensures knows { Knows recent.new m.new }
    ensures rule { IfErr result (λ e. KeepsRule m.new e) }
    ensures table { IsTable m.new }
{
    let Some(children) = m.vtree().children(place) else {
        unreachable!()
    };
    let fork = Fork {
        node: place,
        left: children.0,
        right: children.1,
    };
    multiply(m, recent, operation, &fork, first, second)
}

/// A partition of a vtree node with the primes of equal subs joined: the list that a node there has. It refuses as
/// `and`.
pub fn merge_at(
    alloc: Global,
    m: &mut Manager,
    recent: &mut Recent,
    place: VNode,
    pairs: &[(NodeId, NodeId)],
) -> Result<Pairs, TakeError>
    requires partition { (ds : List (Diagram × Diagram)) × IsPartitionAt m.old place pairs.now ds }
    requires knows { Knows recent.old m.old }
    ensures ok { IfOk result (λ r. MergesAt m.old m.new place pairs.now r.items) }
    ensures differ { IfOk result (λ r. AreDistinct (map (λ e. e.1) r.items)) }
    ensures kept { Extends m.old m.new }
    ensures grown { GrowsStrictlyBelow m.old m.new place }
    ensures knows { Knows recent.new m.new }
    ensures rule { IfErr result (λ e. KeepsRule m.new e) }
    ensures table { IsTable m.new }
{
    let Some(children) = m.vtree().children(place) else {
        unreachable!()
    };
    let fork = Fork {
        node: place,
        left: children.0,
        right: children.1,
    };
    let sorted = by_sub(alloc, pairs)?;
    merge(m, recent, &fork, sorted.as_slice())
}
