// A node as elements at the lowest vtree node of an operation.
ghost use Rattle.std.specs.Prelude.{◌≤◌, ◌<◌, length, IfOk, IfErr};
ghost use Rattle.sd_vtree.specs.Numbered.{numbers};
ghost use Rattle.sd_manager.specs.Making.{KeepsRule};
ghost use Rattle.sd_apply.specs.Recent.{Knows};
ghost use Rattle.sd_apply.specs.Steps.{IsStep};
ghost use Rattle.sd_apply.specs.Places.{IsBelow, IsFork};
ghost use Rattle.sd_apply.specs.Calls.{Expands};

use crate::lists::{Pairs, below_left, below_right, elements_of};
use crate::negation::negate_at;
use crate::places::{Fork, place_of};
use crate::recent::Recent;
use sd_manager::{Manager, NodeId};
use sd_runs::TakeError;

/// A node below a vtree node, as elements there: its own where it stands there, and else two or
/// one made of it.
#[inline(always)]
pub(crate) fn expand(
    m: &mut Manager,
    recent: &mut Recent,
    fork: &Fork,
    a: NodeId,
) -> Result<Pairs, TakeError>
    requires children { IsFork m.old.vtree fork.now }
    requires node { fork.now.node < length (numbers m.old.vtree) }
    requires a { IsBelow m.old fork.now.node a }
    requires least { 2 ≤ a }
    requires knows { Knows recent.old m.old }
    ensures ok { IfOk result
        (λ r. Expands m.old m.new fork.now.node fork.now.left fork.now.right a r.items) }
    ensures step { IsStep m.old m.new recent.new fork.now.left fork.now.right }
    ensures rule { IfErr result (λ e. KeepsRule m.new e) }
{
    let place = fork.node;
    let own = place_of(m, a);
    if own.0 == place.0 {
        return elements_of(recent.alloc, m, a);
    }
    let middle = m.vtree().position(place);
    let at = m.vtree().position(own);
    if middle < at {
        return below_right(recent.alloc, a);
    }
    let other = negate_at(m, recent, fork.left, a)?;
    below_left(recent.alloc, a, other)
}
