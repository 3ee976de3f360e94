// What joins the groups of a formula, and what joins the literals of a group.
ghost use Rattle.std.specs.Prelude.{◌≡◌, IfOk, IfErr};
ghost use Rattle.sd_manager.specs.Valid.{IsTable};
ghost use Rattle.sd_manager.specs.Shown.{IsNodeOf};
ghost use Rattle.sd_manager.specs.Making.{Extends, KeepsRule};
ghost use Rattle.sd_apply.specs.Answers.{Combines};
ghost use Rattle.sd_apply.specs.Serving.{Serves};
ghost use Rattle.sd_compile.specs.Joined.{neutral, outer, inner};

use sd_apply::{and, or, xor};
use sd_cache::Cache;
use sd_formula::Kind;
use sd_manager::{Manager, NodeId};
use sd_model::Operation;
use sd_runs::TakeError;
use std::alloc::Global;

/// Two nodes, joined. It refuses as `sd_apply::and`.
pub fn connect(
    alloc: Global,
    m: &mut Manager,
    c: &mut Cache,
    operation: Operation,
    a: NodeId,
    b: NodeId,
) -> Result<NodeId, TakeError>
    requires first { IsNodeOf m.old a }
    requires second { IsNodeOf m.old b }
    requires serves { Serves c.old m.old }
    ensures ok { IfOk result (λ r. Combines m.old m.new operation a b r) }
    ensures kept { Extends m.old m.new }
    ensures serves { Serves c.new m.new }
    ensures rule { IfErr result (λ e. KeepsRule m.new e) }
    ensures table { IsTable m.new }
{
    match operation {
        Operation::And => and(alloc, m, c, a, b),
        Operation::Or => or(alloc, m, c, a, b),
        Operation::Xor => xor(alloc, m, c, a, b),
    }
}

pub(crate) fn between_groups(kind: Kind) -> Operation
    ensures { result ≡ outer kind }
{
    match kind {
        Kind::Cnf => Operation::And,
        Kind::Dnf => Operation::Or,
    }
}

pub(crate) fn within_group(kind: Kind, exclusive: bool) -> Operation
    ensures { result ≡ inner kind exclusive }
{
    match kind {
        Kind::Cnf if exclusive => Operation::Xor,
        Kind::Cnf => Operation::Or,
        Kind::Dnf => Operation::And,
    }
}

// The value of no operands.
pub(crate) fn neutral_value(operation: Operation) -> bool
    ensures { result ≡ neutral operation }
{
    matches!(operation, Operation::And)
}
