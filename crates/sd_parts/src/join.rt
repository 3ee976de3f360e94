//! The answers of the parts of a formula, joined into one root.
//!
//! A part is read into the manager just before its join, so that no part counts beside what is joined. The limit is
//! tested behind each part that has a group, and what died is swept where that pays.
ghost use Rattle.std.specs.Prelude.{◌≡◌, ◌<◌, ◌≤◌, ◌+◌, ◌-◌, ◌^◌, List, length};
ghost use Rattle.std.specs.Prelude.{Some, None, Err, IfOk, IfErr, OnOk, OnErr};
ghost use Rattle.std.specs.Option.{IsSome};
ghost use Rattle.std.specs.FinMap.{get, len};
ghost use Rattle.sd_model.specs.Tree.{leaves};
ghost use Rattle.sd_model.specs.Expression.{Expression, expression_value};
ghost use Rattle.sd_vtree.specs.Numbered.{plain_tree};
ghost use Rattle.sd_formula.specs.Formulas.{expression_of, groups_part};
ghost use Rattle.sd_manager.specs.Valid.{IsTable};
ghost use Rattle.sd_manager.specs.Making.{Extends, KeepsRule, without_root};
ghost use Rattle.sd_manager.specs.Marking.{AreUnmarked};
ghost use Rattle.sd_apply.specs.Answers.{HasAnswer};
ghost use Rattle.sd_apply.specs.Serving.{Serves};
ghost use Rattle.sd_sweep.specs.Falling.{NeverFalls};
ghost use Rattle.sd_compile.specs.Joined.{outer};
ghost use Rattle.sd_compile.specs.Total.{AreHeldFormulas, IsWithinLimit};
ghost use Rattle.sd_compile.specs.Compiling.{prefix_of, HoldsFormula, KeepsOtherRoots, KeepsAll};
ghost use Rattle.sd_records.specs.Records.{AreRecords, UnfoldToValue};
ghost use Rattle.sd_parts.specs.Parts.{IsPartsOutcome, Joined};
ghost use Rattle.sd_parts.specs.Work.{AreAnswers, IsPassedByParts, KeepsArenaRule, first_refusal};
ghost use Rattle.sd_parts.specs.Join.{AreJoinsWithin, IsJoinRefused, IsTurnRefused};

use crate::cutting::begin_of_part;
use crate::part::PartAnswer;
use sd_cache::Cache;
use sd_compile::laws::total_of_formulas;
use sd_compile::{CompileError, Pace, begin, connect, finish, sweep_past, try_hold};
use sd_formula::{Formula, Kind};
use sd_manager::{Manager, NodeId, Root};
use sd_model::Operation;
use sd_records::{Records, import};
use sd_runs::TakeError;
use std::alloc::Global;

/// Joins the answers of the parts of a formula, in order, into a new root. The first answer that is a refusal decides,
/// and is handed on as it is. Else a join refuses where the total size passes the limit behind a part that has a group,
/// and as `sd_apply::and`. After a refusal no root is new.
pub fn join_parts(
    alloc: Global,
    m: &mut Manager,
    c: &mut Cache,
    f: &Formula,
    answers: &[PartAnswer],
    limit: u32,
) -> Result<Root, CompileError>
    requires variables { leaves (plain_tree m.old.vtree) ≡ f.now.variables }
    requires no_move { m.old.moving ≡ None }
    requires room { len m.old.roots < 2 ^ 32 - 1 }
    requires unmarked { AreUnmarked m.old }
    requires serves { Serves c.old m.old }
    requires answers { AreAnswers f.now (plain_tree m.old.vtree) limit answers.now }
    ensures absent { IfOk result (λ root. get m.old.roots root ≡ None) }
    ensures count { len m.new.roots ≤ len m.old.roots + 1 }
    ensures ok { IfOk result (λ root. HoldsFormula m.new (expression_of f.now) root) }
    ensures kept { IfOk result (λ root. KeepsOtherRoots m.old m.new root) }
    ensures joined { (all : List Expression) → AreHeldFormulas m.old all → OnOk result
        (IsPartsOutcome (plain_tree m.old.vtree) limit all f.now (length answers.now) Joined) }
    ensures passed { (all : List Expression) → AreHeldFormulas m.old all → IfErr result
        (λ e. IsPassedByParts (plain_tree m.old.vtree) limit all f.now (length answers.now) e) }
    ensures refused { (e : CompileError) → first_refusal answers.now ≡ Some e →
        (result ≡ Err e) × (m.new ≡ m.old) }
    ensures full { first_refusal answers.now ≡ None → IfErr result (λ e. KeepsArenaRule m.new e) }
    ensures all_kept { OnErr result (KeepsAll m.old m.new) }
    ensures never_falls { NeverFalls m.old m.new }
    ensures serves { Serves c.new m.new }
    ensures unmarked { AreUnmarked m.new }
    ensures table { IsTable m.new }
{
    total_of_formulas(m);
    if let Some(error) = first_refused(answers) {
        return Err(error);
    }
    let mut root = match begin(m, f) {
        Ok(work) => finish(work),
        Err(_) => return Err(CompileError::OutOfMemory),
    };
    match join_all(alloc, m, c, f, answers, &mut root, limit) {
        Ok(()) => Ok(root),
        Err(error) => {
            m.release(root);
            Err(error)
        }
    }
}

// The first refusal.
fn first_refused(answers: &[PartAnswer]) -> Option<CompileError>
    ensures { result ≡ first_refusal answers.now }
{
    for answer in answers {
        if let Err(error) = &answer.outcome {
            return Some(*error);
        }
    }
    None
}

// Joins all parts to what the root holds, which is the value of no groups.
fn join_all(
    alloc: Global,
    m: &mut Manager,
    c: &mut Cache,
    f: &Formula,
    answers: &[PartAnswer],
    root: &mut Root,
    limit: u32,
) -> Result<(), CompileError>
    requires no_move { m.old.moving ≡ None }
    requires unmarked { AreUnmarked m.old }
    requires serves { Serves c.old m.old }
    requires holds { HoldsFormula m.old (prefix_of f.now 0) root.old }
    requires answers { AreAnswers f.now (plain_tree m.old.vtree) limit answers.now }
    requires compiled { first_refusal answers.now ≡ None }
    ensures ok { OnOk result (HoldsFormula m.new (expression_of f.now) root.new) }
    ensures within { OnOk result (AreJoinsWithin (without_root m.old root.old) f.now
        (length answers.now) limit (length answers.now)) }
    ensures err { IfErr result (λ e. IsJoinRefused (without_root m.old root.old) m.new f.now
        (length answers.now) limit e) }
    ensures root { root.new ≡ root.old }
    ensures held { IsSome (get m.new.roots root.new) }
    ensures kept { KeepsOtherRoots m.old m.new root.old }
    ensures never_falls { NeverFalls m.old m.new }
    ensures serves { Serves c.new m.new }
    ensures unmarked { AreUnmarked m.new }
    ensures table { IsTable m.new }
{
    // its contract tells that the table is valid
    let _ = m.vtree();
    let groups = f.groups();
    let count = answers.len();
    let mut pace = Pace::of_operations();
    for part in 0..count {
        let Ok(records) = &answers[part].outcome else {
            unreachable!()
        };
        let first = begin_of_part(groups, count, part);
        let last = begin_of_part(groups, count, part + 1);
        let turn = Turn {
            first: first as u32,
            last: last as u32,
            limit,
        };
        join_turn(alloc, m, c, f, records, root, turn)?;
        sweep_past(m, c, &mut pace, limit);
    }
    Ok(())
}

// How many groups stand before a part and behind it, and the limit.
#[derive(Clone, Copy)]
struct Turn {
    first: u32,
    last: u32,
    limit: u32,
}

// Joins a part to what the root holds, which is the prefix before it. A part without groups changes nothing.
fn join_turn(
    alloc: Global,
    m: &mut Manager,
    c: &mut Cache,
    f: &Formula,
    records: &Records,
    root: &mut Root,
    turn: Turn,
) -> Result<(), CompileError>
    requires no_move { m.old.moving ≡ None }
    requires unmarked { AreUnmarked m.old }
    requires serves { Serves c.old m.old }
    requires order { turn.first ≤ turn.last }
    requires holds { HoldsFormula m.old (prefix_of f.now turn.first) root.old }
    requires records { AreRecords (plain_tree m.old.vtree) records.now }
    requires value { UnfoldToValue (plain_tree m.old.vtree) records.now
        (expression_value (expression_of (groups_part f.now turn.first turn.last))) }
    ensures ok { OnOk result (HoldsFormula m.new (prefix_of f.now turn.last) root.new) }
    ensures within { turn.first < turn.last → OnOk result (IsWithinLimit
        (without_root m.old root.old) (prefix_of f.now turn.last) turn.limit) }
    ensures err { IfErr result (λ e. IsTurnRefused (without_root m.old root.old) m.new f.now
        turn.first turn.last turn.limit e) }
    ensures root { root.new ≡ root.old }
    ensures held { IsSome (get m.new.roots root.new) }
    ensures kept { KeepsOtherRoots m.old m.new root.old }
    ensures never_falls { NeverFalls m.old m.new }
    ensures serves { Serves c.new m.new }
    ensures unmarked { AreUnmarked m.new }
    ensures table { IsTable m.new }
{
    // its contract tells that the table is valid
    let _ = m.vtree();
    if turn.first == turn.last {
        return Ok(());
    }
    let node = match joined_node(alloc, m, c, f, records, root, turn) {
        Ok(node) => node,
        Err(TakeError::ArenaFull { elements }) => return Err(CompileError::ArenaFull { elements }),
        Err(TakeError::OutOfMemory) => return Err(CompileError::OutOfMemory),
    };
    if let Some(size) = try_hold(m, root, node, turn.limit) {
        return Err(CompileError::OverLimit {
            group: turn.last,
            size,
            limit: turn.limit,
        });
    }
    Ok(())
}

// The node of the prefix with the groups of a part.
fn joined_node(
    alloc: Global,
    m: &mut Manager,
    c: &mut Cache,
    f: &Formula,
    records: &Records,
    root: &Root,
    turn: Turn,
) -> Result<NodeId, TakeError>
    requires serves { Serves c.old m.old }
    requires order { turn.first ≤ turn.last }
    requires holds { HoldsFormula m.old (prefix_of f.now turn.first) root.now }
    requires records { AreRecords (plain_tree m.old.vtree) records.now }
    requires value { UnfoldToValue (plain_tree m.old.vtree) records.now
        (expression_value (expression_of (groups_part f.now turn.first turn.last))) }
    ensures ok { IfOk result
        (λ node. HasAnswer m.new (expression_value (prefix_of f.now turn.last)) node) }
    ensures kept { Extends m.old m.new }
    ensures serves { Serves c.new m.new }
    ensures rule { IfErr result (λ e. KeepsRule m.new e) }
    ensures table { IsTable m.new }
{
    let part = import(alloc, m, c, records)?;
    let prefix = m.node_of(root);
    connect(alloc, m, c, between_groups(f.kind()), prefix, part)
}

fn between_groups(kind: Kind) -> Operation
    ensures { result ≡ outer kind }
{
    match kind {
        Kind::Cnf => Operation::And,
        Kind::Dnf => Operation::Or,
    }
}
