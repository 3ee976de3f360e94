//! Whether exactly one prime of a node is true under each assignment.
//!
//! The unions of neighbours are made level by level, so a node of k elements costs 2(k - 1) operations: two primes meet
//! in just one union, so no two are true together where no two unions are.

ghost use Rattle.std.specs.Prelude.{◌≡◌, ℕ, ◌+◌, ◌<◌, ◌≤◌, Bool, true, false, List, [], ◌∷◌};
ghost use Rattle.std.specs.Prelude.{◌≢◌, length, map, drop, IfOk, IfErr, Some, None};
ghost use Rattle.sd_check.specs.declared.rules.Rule.TheVariants.{Cover};
ghost use Rattle.sd_manager.specs.Valid.{IsTable};
ghost use Rattle.sd_manager.specs.Making.{Extends, KeepsRule};
ghost use Rattle.sd_apply.specs.Serving.{Serves};
ghost use Rattle.sd_check.specs.Unions.{AreNodes, CountsTo, TellsUnion, TellsPrimes};

use crate::rules::Rule;
use sd_apply::{and, negate, or};
use sd_cache::Cache;
use sd_manager::{Manager, NodeId};
use sd_runs::TakeError;
use std::alloc::{AllocError, Global};

/// Which of the rules on all primes these break, if any: that no two are true together, and that always one is true.
pub(crate) fn prime_rule(
    alloc: Global,
    m: &mut Manager,
    c: &mut Cache,
    elements: &[(NodeId, NodeId)],
) -> Result<Option<Rule>, TakeError>
    requires some { 1 ≤ length elements.now }
    requires nodes { AreNodes m.old (map (λ e. e.0) elements.now) }
    requires serves { Serves c.old m.old }
    ensures ok { IfOk result (λ r. (n : List Bool → ℕ)
        → CountsTo m.old n (map (λ e. e.0) elements.now) → TellsPrimes n r) }
    ensures kept { Extends m.old m.new }
    ensures serves { Serves c.new m.new }
    ensures rule { IfErr result (λ e. KeepsRule m.new e) }
    ensures table { IsTable m.new }
{
    if are_opposite(alloc, m, c, elements)? {
        return Ok(None);
    }
    let mut unions = primes_of(alloc, elements)?;
    match joined(alloc, m, c, &mut unions)? {
        None => Ok(Some(Rule::Overlap)),
        Some(union) => Ok(cover_rule(union)),
    }
}

/// What the union of all primes tells.
fn cover_rule(union: NodeId) -> Option<Rule>
    ensures covers { union ≡ 1 → result ≡ None }
    ensures else_not { union ≢ 1 → result ≡ Some Cover }
{
    if union.is_true() {
        None
    } else {
        Some(Rule::Cover)
    }
}

/// Whether there are two elements, and the second prime is the negation of the first.
fn are_opposite(
    alloc: Global,
    m: &mut Manager,
    c: &mut Cache,
    elements: &[(NodeId, NodeId)],
) -> Result<bool, TakeError>
    requires nodes { AreNodes m.old (map (λ e. e.0) elements.now) }
    requires serves { Serves c.old m.old }
    ensures ok { IfOk result (λ b. b ≡ true → (n : List Bool → ℕ)
        → CountsTo m.old n (map (λ e. e.0) elements.now) → (a : List Bool) → n a ≡ 1) }
    ensures kept { Extends m.old m.new }
    ensures serves { Serves c.new m.new }
    ensures rule { IfErr result (λ e. KeepsRule m.new e) }
    ensures table { IsTable m.new }
{
    let _ = m.vtree();
    if elements.len() != 2 {
        return Ok(false);
    }
    let one = elements[0].0;
    let other = elements[1].0;
    let negation = negate(alloc, m, c, one)?;
    Ok(negation.0 == other.0)
}

/// The primes, with room for their unions.
fn primes_of(alloc: Global, elements: &[(NodeId, NodeId)]) -> Result<Vec<NodeId>, AllocError>
    ensures { IfOk result (λ v. v.items ≡ map (λ e. e.0) elements.now) }
{
    let mut primes = Vec::new(alloc);
    primes.reserve(elements.len())?;
    for element in elements {
        primes.push(element.0)?;
    }
    Ok(primes)
}

/// The union of all nodes of a list, or None where two are true together. Unions are put behind the nodes, and each is
/// joined with its neighbour in its turn.
fn joined(
    alloc: Global,
    m: &mut Manager,
    c: &mut Cache,
    unions: &mut Vec<NodeId>,
) -> Result<Option<NodeId>, TakeError>
    requires some { 1 ≤ length unions.old.items }
    requires nodes { AreNodes m.old unions.old.items }
    requires serves { Serves c.old m.old }
    ensures ok { IfOk result (λ r. (n : List Bool → ℕ) → CountsTo m.old n unions.old.items
        → TellsUnion m.new n r) }
    ensures kept { Extends m.old m.new }
    ensures serves { Serves c.new m.new }
    ensures rule { IfErr result (λ e. KeepsRule m.new e) }
    ensures table { IsTable m.new }
{
    let _ = m.vtree();
    let mut next = 0;
    while next + 1 < unions.len() {
        if !join_next(alloc, m, c, unions, next)? {
            return Ok(None);
        }
        next += 2;
    }
    Ok(Some(unions[next]))
}

/// Puts the union of two neighbours behind all, or answers that they are true together.
fn join_next(
    alloc: Global,
    m: &mut Manager,
    c: &mut Cache,
    unions: &mut Vec<NodeId>,
    next: usize,
) -> Result<bool, TakeError>
    requires two { next + 1 < length unions.old.items }
    requires nodes { AreNodes m.old unions.old.items }
    requires serves { Serves c.old m.old }
    ensures joined { IfOk result (λ b. b ≡ true → (n : List Bool → ℕ)
        → CountsTo m.old n (drop next unions.old.items)
        → CountsTo m.new n (drop (next + 2) unions.new.items)) }
    ensures met { IfOk result (λ b. b ≡ false → (n : List Bool → ℕ)
        → CountsTo m.old n (drop next unions.old.items) → (a : List Bool) × (2 ≤ n a)) }
    ensures longer { IfOk result (λ b. b ≡ true
        → length unions.new.items ≡ length unions.old.items + 1) }
    ensures nodes { IfOk result (λ b. b ≡ true → AreNodes m.new unions.new.items) }
    ensures kept { Extends m.old m.new }
    ensures serves { Serves c.new m.new }
    ensures rule { IfErr result (λ e. KeepsRule m.new e) }
    ensures table { IsTable m.new }
{
    let one = unions[next];
    let other = unions[next + 1];
    let both = and(alloc, m, c, one, other)?;
    if !both.is_false() {
        return Ok(false);
    }
    let either = or(alloc, m, c, one, other)?;
    unions.push(either)?;
    Ok(true)
}
