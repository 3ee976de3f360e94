// The node of elements whose subs differ already.
ghost use Rattle.std.specs.Prelude.{map, IfOk, IfErr, OnErr};
ghost use Rattle.sd_model.specs.Tree.{AreDistinct};
ghost use Rattle.sd_manager.specs.Valid.{IsTable};
ghost use Rattle.sd_manager.specs.Making.{Extends, KeepsRule};
ghost use Rattle.sd_apply.specs.Growing.{GrowsBelow, GrowsByAnswer, GrowsStrictlyBelow};
ghost use Rattle.sd_apply.specs.Places.{IsFork};
ghost use Rattle.sd_apply.specs.Elements.{IsPartitionBelow};
ghost use Rattle.sd_apply.specs.Calls.{Joins};

use crate::places::Fork;
use sd_manager::{Manager, NodeId};
use sd_runs::TakeError;

/// The node of a partition, no two subs of which are equal.
pub(crate) fn make_apart(
    m: &mut Manager,
    fork: &Fork,
    pairs: &[(NodeId, NodeId)],
) -> Result<NodeId, TakeError>
    requires children { IsFork m.old.vtree fork.now }
    requires pairs { IsPartitionBelow m.old fork.now.left fork.now.right pairs.now }
    requires differ { AreDistinct (map (λ e. e.1) pairs.now) }
    requires table { IsTable m.old }
    ensures ok { IfOk result (λ r. Joins m.old m.new fork.now.left fork.now.right pairs.now r) }
    ensures kept { Extends m.old m.new }
    ensures grown { GrowsBelow m.old m.new fork.now.node }
    ensures one { IfOk result (λ r. GrowsByAnswer m.old m.new fork.now.node r) }
    ensures none { OnErr result (GrowsStrictlyBelow m.old m.new fork.now.node) }
    ensures rule { IfErr result (λ e. KeepsRule m.new e) }
    ensures table { IsTable m.new }
{
    m.make(fork.node, pairs)
}
