// Managers with held roots, ready for moves.
ghost use Rattle.std.specs.Prelude.{◌≡◌, ◌^◌, ◌<◌, IfOk};
ghost use Rattle.sd_model.specs.Tree.{leaves};
ghost use Rattle.sd_vtree.specs.Numbered.{plain_tree};
ghost use Rattle.sd_manager.specs.Literals.{IsLiteralTo};
ghost use Rattle.sd_manager.specs.Making.{Extends};
ghost use Rattle.sd_manager.specs.Shown.{IsNodeOf};
ghost use Rattle.sd_call_tests.specs.Ready.{IsFresh};

use sd_apply::{and, or, xor};
use sd_cache::Cache;
use sd_manager::{Manager, NodeId, Root};
use sd_runs::TakeError;
use sd_vtree::Vtree;
use std::alloc::{AllocError, Global};
use std::marker::Model;

// A manager with a cache, and two roots of it.
#[derive(Drop)]
pub(crate) struct State {
    pub(crate) m: Manager,
    pub(crate) c: Cache,
    pub(crate) first: Root,
    pub(crate) second: Root,
}

// A state that is ready for a move. Contracts see nothing of it, so a test over it has no proof.
#[derive(Drop)]
pub(crate) struct Case {
    pub(crate) state: State,
}

impl Model for Case {
    ghost use Rattle.std.specs.Prelude.{ℕ};
    ghost use Rattle.sd_call_tests.specs.Ready.{IsReady};

    ghost Value = { ℕ };

    ghost view = { λ _. 0 };

    ghost invariant = { λ a. IsReady a.state.m a.state.c a.state.first a.state.second };
}

// `(1 and 3) or (2 and 4)` on the balanced vtree, in an arena of at most so many elements. Two roots hold it.
pub(crate) fn crossed_terms(alloc: Global, bound: u32) -> Result<Case, TakeError>
    requires { bound < 2 ^ 31 }
{
    let (mut m, mut c) = fresh(alloc, Vtree::balanced(alloc, 4)?, bound)?;
    if m.vtree().variables() != 4 {
        return Err(TakeError::OutOfMemory);
    }
    let odd = both(alloc, &mut m, &mut c, 1, 3)?;
    let even = both(alloc, &mut m, &mut c, 2, 4)?;
    let node = or(alloc, &mut m, &mut c, odd, even)?;
    Ok(hold_both(m, c, node, node)?)
}

// A new manager and a new cache.
fn fresh(alloc: Global, vtree: Vtree, bound: u32) -> Result<(Manager, Cache), AllocError>
    requires { bound < 2 ^ 31 }
    ensures fresh { IfOk result (λ r. IsFresh r.0 r.1) }
    ensures vtree { IfOk result (λ r. r.0.vtree ≡ vtree) }
{
    let m = Manager::new(alloc, vtree, bound)?;
    let c = Cache::new(alloc)?;
    Ok((m, c))
}

// Two nodes held by the first two roots of a manager.
fn hold_both(m: Manager, c: Cache, one: NodeId, other: NodeId) -> Result<Case, AllocError>
    requires fresh { IsFresh m c }
    requires one { IsNodeOf m one }
    requires other { IsNodeOf m other }
{
    let mut m = m;
    let first = m.hold(one)?;
    let second = m.hold(other)?;
    let state = State {
        m,
        c,
        first,
        second,
    };
    Ok(Case { state })
}

// The conjunction of two literals.
fn both(
    alloc: Global,
    m: &mut Manager,
    c: &mut Cache,
    first: i32,
    second: i32,
) -> Result<NodeId, TakeError>
    requires first { IsLiteralTo (leaves (plain_tree m.old.vtree)) first }
    requires second { IsLiteralTo (leaves (plain_tree m.old.vtree)) second }
    requires fresh { IsFresh m.old c.old }
    ensures shown { IfOk result (λ r. IsNodeOf m.new r) }
    ensures kept { Extends m.old m.new }
    ensures fresh { IsFresh m.new c.new }
{
    let first = m.literal(first);
    let second = m.literal(second);
    and(alloc, m, c, first, second)
}

// A manager and its cache, with the nodes of `2 and 3` and of `1 or (2 and 3)`.
#[derive(Drop)]
struct Unheld {
    m: Manager,
    c: Cache,
    pair: NodeId,
    clause: NodeId,
}

// `2 and 3`, and `1 or (2 and 3)`, on the left vtree over four variables.
fn on_the_left(alloc: Global) -> Result<Unheld, TakeError>
    ensures fresh { IfOk result (λ r. IsFresh r.m r.c) }
    ensures pair { IfOk result (λ r. IsNodeOf r.m r.pair) }
    ensures clause { IfOk result (λ r. IsNodeOf r.m r.clause) }
{
    let (mut m, mut c) = fresh(alloc, Vtree::left(alloc, 4)?, 1000)?;
    if m.vtree().variables() != 4 {
        return Err(TakeError::OutOfMemory);
    }
    let pair = both(alloc, &mut m, &mut c, 2, 3)?;
    let one = m.literal(1);
    let clause = or(alloc, &mut m, &mut c, one, pair)?;
    Ok(Unheld { m, c, pair, clause })
}

// `2 and 3`, and `1 or (2 and 3)`, held on the left vtree over four variables.
pub(crate) fn pair_and_clause(alloc: Global) -> Result<Case, TakeError> {
    let Unheld { m, c, pair, clause } = on_the_left(alloc)?;
    Ok(hold_both(m, c, pair, clause)?)
}

// The same where both roots hold `1 or (2 and 3)`.
pub(crate) fn clause_alone(alloc: Global) -> Result<Case, TakeError> {
    let Unheld { m, c, clause, .. } = on_the_left(alloc)?;
    Ok(hold_both(m, c, clause, clause)?)
}

// A vtree over 60 variables: 1 and 2 on the left side of its root, and a right vtree over the others on the right side.
fn two_beside_the_rest(alloc: Global) -> Result<Vtree, AllocError> {
    let mut vtree = Vtree::right(alloc, 60)?;
    let root = vtree.root();
    let Ok(()) = vtree.rotate_left(root) else {
        return Err(AllocError);
    };
    Ok(vtree)
}

// `1 and 2`, and the exclusive or of the variables 3 to 60, held in an arena of at most 260 elements.
pub(crate) fn pair_and_parity(alloc: Global) -> Result<Case, TakeError> {
    let (mut m, mut c) = fresh(alloc, two_beside_the_rest(alloc)?, 260)?;
    if m.vtree().variables() != 60 {
        return Err(TakeError::OutOfMemory);
    }
    let pair = both(alloc, &mut m, &mut c, 1, 2)?;
    let odd = parity(alloc, &mut m, &mut c, 58)?;
    Ok(hold_both(m, c, pair, odd)?)
}

// `1 and 2`, and the exclusive or of the variables 41 to 60. `3 and 5` is there too, and nothing uses it.
pub(crate) fn parity_and_garbage(alloc: Global) -> Result<Case, TakeError> {
    let (mut m, mut c) = fresh(alloc, two_beside_the_rest(alloc)?, 1000)?;
    if m.vtree().variables() != 60 {
        return Err(TakeError::OutOfMemory);
    }
    let _ = both(alloc, &mut m, &mut c, 3, 5)?;
    let pair = both(alloc, &mut m, &mut c, 1, 2)?;
    let odd = parity(alloc, &mut m, &mut c, 20)?;
    Ok(hold_both(m, c, pair, odd)?)
}

// The exclusive or of so many of the variables up to 60, from the last one upwards.
fn parity(alloc: Global, m: &mut Manager, c: &mut Cache, count: u32) -> Result<NodeId, TakeError>
    requires sixty { leaves (plain_tree m.old.vtree) ≡ 60 }
    requires count { count < 60 }
    requires fresh { IsFresh m.old c.old }
    ensures shown { IfOk result (λ r. IsNodeOf m.new r) }
    ensures kept { Extends m.old m.new }
    ensures fresh { IsFresh m.new c.new }
{
    let mut node = m.constant(false);
    for index in 0..count {
        let variable = 60 - index;
        let literal = m.literal(variable as i32);
        node = xor(alloc, m, c, literal, node)?;
    }
    Ok(node)
}
