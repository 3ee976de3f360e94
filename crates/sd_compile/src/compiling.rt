// A formula compiled into a root: its groups are joined one after another, and after each the total size is within the
// limit.
//
// The new prefix is tried by giving the root the new node; if the total size passes the limit then, the root gets the
// former node back, for which no memory is needed. What decides is the size of the diagrams that roots hold, and never
// what else is in the table, so that the answer follows from the formula and the vtree alone. While all lists in use
// together are within the limit, no size has to be counted (`limited.rt`).
//
// `add_group` sweeps behind each answer. `compile`, which adds all groups, and `add_group_past` sweep only where that
// pays (`pace.rt`). Behind the last group `compile` sweeps only if that is refused.
ghost use Rattle.std.specs.Prelude.{◌≡◌, ◌↔◌, ℕ, ◌+◌, ◌-◌, ◌^◌, ◌<◌, ◌≤◌, None, IfOk, IfErr, OnOk, OnErr, IsTrue};
ghost use Rattle.std.specs.Prelude.{length};
ghost use Rattle.std.specs.Option.{IsSome};
ghost use Rattle.std.specs.FinMap.{get, len};
ghost use Rattle.sd_model.specs.Tree.{leaves};
ghost use Rattle.sd_vtree.specs.Numbered.{plain_tree};
ghost use Rattle.sd_model.specs.Expression.{expression_value};
ghost use Rattle.sd_formula.specs.Formulas.{expression_of};
ghost use Rattle.sd_manager.specs.Valid.{IsTable, total_length};
ghost use Rattle.sd_manager.specs.Making.{Extends, KeepsRule, without_root};
ghost use Rattle.sd_apply.specs.Answers.{HasAnswer};
ghost use Rattle.sd_apply.specs.Serving.{Serves};
ghost use Rattle.sd_sweep.specs.Reached.{IsReached};
ghost use Rattle.sd_sweep.specs.Falling.{NeverFalls};
ghost use Rattle.sd_compile.specs.Total.{IsWithinLimit};
ghost use Rattle.sd_manager.specs.Marking.{AreUnmarked};
ghost use Rattle.sd_compile.specs.Compiling.{prefix_of, HoldsFormula, HoldsPrefix, IsBegun, KeepsOtherRoots, KeepsAll};
ghost use Rattle.sd_compile.specs.Compiling.{IsGroupRefused, IsFormulaRefused, AreWithinLimit, IsSweptPast, MaySweep};

use crate::connectives::{between_groups, connect, neutral_value, within_group};
use crate::error::{CompileError, compile_error};
use crate::groups::group_node;
use crate::limited::{sweep_kept, sweep_past, try_hold};
use crate::one_pass::{join_literals, stays_exclusive, suits_one_pass};
use crate::pace::Pace;
use sd_cache::Cache;
use sd_formula::Formula;
use sd_manager::{Manager, NodeId, Root};
use sd_runs::TakeError;
use std::alloc::{AllocError, Global};
use std::marker::Model;

/// A formula of which the first groups are compiled: the root of this prefix, and the number of its groups.
#[derive(Drop)]
pub struct Compiling {
    root: Root,
    groups: u32,
}

impl Model for Compiling {
    ghost use Rattle.sd_compile.specs.Compiling.{CompiledPrefix};

    ghost Value = { CompiledPrefix };

    ghost view = { λ a. record { root = a.root; groups = a.groups } };
}

/// Holds the value of no groups. The only error: out of memory, and then nothing is changed.
pub fn begin(m: &mut Manager, f: &Formula) -> Result<Compiling, AllocError>
    requires variables { leaves (plain_tree m.old.vtree) ≡ f.now.variables }
    requires no_move { m.old.moving ≡ None }
    requires room { len m.old.roots < 2 ^ 32 - 1 }
    ensures ok { IfOk result (λ work. IsBegun m.old m.new f.now work) }
    ensures err { OnErr result (m.new ≡ m.old) }
    ensures table { IsTable m.new }
{
    let root = m.hold(m.constant(neutral_value(between_groups(f.kind()))))?;
    Ok(Compiling { root, groups: 0 })
}

/// Joins the next group to the prefix. It refuses where with the new prefix the total size passes the limit, and as
/// `sd_apply::and`; then `work` is unchanged. A sweep follows at each answer.
pub fn add_group(
    alloc: Global,
    m: &mut Manager,
    c: &mut Cache,
    f: &Formula,
    work: &mut Compiling,
    limit: u32,
) -> Result<(), CompileError>
    requires variables { leaves (plain_tree m.old.vtree) ≡ f.now.variables }
    requires no_move { m.old.moving ≡ None }
    requires unmarked { AreUnmarked m.old }
    requires serves { Serves c.old m.old }
    requires left { work.old.groups < length f.now.groups }
    requires holds { HoldsPrefix m.old f.now work.old }
    ensures ok { OnOk result (HoldsPrefix m.new f.now work.new) }
    ensures next { OnOk result (work.new.groups ≡ work.old.groups + 1) }
    ensures within { OnOk result (IsWithinLimit (without_root m.old work.old.root)
        (prefix_of f.now (work.old.groups + 1)) limit) }
    ensures err { IfErr result (λ e.
        IsGroupRefused (without_root m.old work.old.root) m.new f.now limit work.old.groups e) }
    ensures unchanged { OnErr result (work.new ≡ work.old) }
    ensures all_kept { OnErr result (KeepsAll m.old m.new) }
    ensures root { work.new.root ≡ work.old.root }
    ensures kept { KeepsOtherRoots m.old m.new work.old.root }
    ensures never_falls { NeverFalls m.old m.new }
    ensures swept { (n : ℕ) → IsSome (get m.new.linked n) → IsReached m.new n }
    ensures serves { Serves c.new m.new }
    ensures unmarked { AreUnmarked m.new }
    ensures table { IsTable m.new }
{
    let answer = join_next(alloc, m, c, f, work, limit);
    sweep_kept(m, c);
    answer
}

/// Joins the next group as `add_group` does. Behind it garbage stays only where no more elements are in use than the
/// pace allows and than the limit. Then the pace allows no less than what is in use.
pub fn add_group_past(
    alloc: Global,
    m: &mut Manager,
    c: &mut Cache,
    f: &Formula,
    work: &mut Compiling,
    pace: &mut Pace,
    limit: u32,
) -> Result<(), CompileError>
    requires variables { leaves (plain_tree m.old.vtree) ≡ f.now.variables }
    requires no_move { m.old.moving ≡ None }
    requires unmarked { AreUnmarked m.old }
    requires serves { Serves c.old m.old }
    requires left { work.old.groups < length f.now.groups }
    requires holds { HoldsPrefix m.old f.now work.old }
    ensures ok { OnOk result (HoldsPrefix m.new f.now work.new) }
    ensures next { OnOk result (work.new.groups ≡ work.old.groups + 1) }
    ensures within { OnOk result (IsWithinLimit (without_root m.old work.old.root)
        (prefix_of f.now (work.old.groups + 1)) limit) }
    ensures err { IfErr result (λ e.
        IsGroupRefused (without_root m.old work.old.root) m.new f.now limit work.old.groups e) }
    ensures unchanged { OnErr result (work.new ≡ work.old) }
    ensures all_kept { OnErr result (KeepsAll m.old m.new) }
    ensures root { work.new.root ≡ work.old.root }
    ensures kept { KeepsOtherRoots m.old m.new work.old.root }
    ensures never_falls { NeverFalls m.old m.new }
    ensures past { IsSweptPast m.new pace.old.most limit }
    ensures used { total_length m.new ≤ pace.new.most }
    ensures serves { Serves c.new m.new }
    ensures unmarked { AreUnmarked m.new }
    ensures table { IsTable m.new }
{
    let answer = join_next(alloc, m, c, f, work, limit);
    sweep_past(m, c, pace, limit);
    answer
}

// Joins the next group to the prefix as `add_group` does, and sweeps nothing.
fn join_next(
    alloc: Global,
    m: &mut Manager,
    c: &mut Cache,
    f: &Formula,
    work: &mut Compiling,
    limit: u32,
) -> Result<(), CompileError>
    requires variables { leaves (plain_tree m.old.vtree) ≡ f.now.variables }
    requires no_move { m.old.moving ≡ None }
    requires unmarked { AreUnmarked m.old }
    requires serves { Serves c.old m.old }
    requires left { work.old.groups < length f.now.groups }
    requires holds { HoldsPrefix m.old f.now work.old }
    ensures ok { OnOk result (HoldsPrefix m.new f.now work.new) }
    ensures next { OnOk result (work.new.groups ≡ work.old.groups + 1) }
    ensures within { OnOk result (IsWithinLimit (without_root m.old work.old.root)
        (prefix_of f.now (work.old.groups + 1)) limit) }
    ensures err { IfErr result (λ e.
        IsGroupRefused (without_root m.old work.old.root) m.new f.now limit work.old.groups e) }
    ensures unchanged { OnErr result (work.new ≡ work.old) }
    ensures all_kept { OnErr result (KeepsAll m.old m.new) }
    ensures root { work.new.root ≡ work.old.root }
    ensures kept { KeepsOtherRoots m.old m.new work.old.root }
    ensures never_falls { NeverFalls m.old m.new }
    ensures serves { Serves c.new m.new }
    ensures unmarked { AreUnmarked m.new }
    ensures table { IsTable m.new }
{
    // its contract tells that the table is valid
    let _ = m.vtree();
    let node = match next_node(alloc, m, c, f, work) {
        Ok(node) => node,
        Err(error) => return Err(compile_error(error)),
    };
    let group = next_group(f, work);
    if let Some(size) = try_hold(m, &mut work.root, node, limit) {
        return Err(CompileError::OverLimit { group, size, limit });
    }
    work.groups = group;
    Ok(())
}

// The number of the next group, counted from 1.
fn next_group(f: &Formula, work: &Compiling) -> u32
    requires { work.now.groups < length f.now.groups }
    ensures { result ≡ work.now.groups + 1 }
{
    let _ = f.groups();
    work.groups + 1
}

// The node of the prefix with one group more: joined in one pass along the node of the prefix, or by a node of its own
// where it is exclusive and not found to be implied, or wide on a vtree where that is dear.
fn next_node(
    alloc: Global,
    m: &mut Manager,
    c: &mut Cache,
    f: &Formula,
    work: &Compiling,
) -> Result<NodeId, TakeError>
    requires variables { leaves (plain_tree m.old.vtree) ≡ f.now.variables }
    requires serves { Serves c.old m.old }
    requires left { work.now.groups < length f.now.groups }
    requires holds { HoldsPrefix m.old f.now work.now }
    ensures ok { IfOk result
        (λ node. HasAnswer m.new (expression_value (prefix_of f.now (work.now.groups + 1))) node) }
    ensures kept { Extends m.old m.new }
    ensures serves { Serves c.new m.new }
    ensures rule { IfErr result (λ e. KeepsRule m.new e) }
    ensures table { IsTable m.new }
{
    // its contract tells that the table is valid
    let _ = m.vtree();
    let index = work.groups as usize;
    let prefix = m.node_of(&work.root);
    let literals = f.group(index);
    if f.is_exclusive(index) {
        let stays = stays_exclusive(alloc, m, prefix, literals)?;
        if stays {
            return Ok(prefix);
        }
        return next_by_node(alloc, m, c, f, work);
    }
    if !suits_one_pass(m.vtree(), literals) {
        return next_by_node(alloc, m, c, f, work);
    }
    join_literals(alloc, m, c, f.kind(), prefix, literals)
}

// The same by the node of the group.
fn next_by_node(
    alloc: Global,
    m: &mut Manager,
    c: &mut Cache,
    f: &Formula,
    work: &Compiling,
) -> Result<NodeId, TakeError>
    requires variables { leaves (plain_tree m.old.vtree) ≡ f.now.variables }
    requires serves { Serves c.old m.old }
    requires left { work.now.groups < length f.now.groups }
    requires holds { HoldsPrefix m.old f.now work.now }
    ensures ok { IfOk result
        (λ node. HasAnswer m.new (expression_value (prefix_of f.now (work.now.groups + 1))) node) }
    ensures kept { Extends m.old m.new }
    ensures serves { Serves c.new m.new }
    ensures rule { IfErr result (λ e. KeepsRule m.new e) }
    ensures table { IsTable m.new }
{
    let index = work.groups as usize;
    let within = within_group(f.kind(), f.is_exclusive(index));
    let group = group_node(alloc, m, c, within, f.group(index))?;
    let prefix = m.node_of(&work.root);
    connect(alloc, m, c, between_groups(f.kind()), prefix, group)
}

/// The root of the prefix.
pub fn finish(work: Compiling) -> Root
    ensures { result ≡ work.root }
{
    work.root
}

// Joins all groups that are left. Sweeps come between them only as often as what they take away pays for.
fn add_groups(
    alloc: Global,
    m: &mut Manager,
    c: &mut Cache,
    f: &Formula,
    work: &mut Compiling,
    limit: u32,
) -> Result<(), CompileError>
    requires variables { leaves (plain_tree m.old.vtree) ≡ f.now.variables }
    requires no_move { m.old.moving ≡ None }
    requires unmarked { AreUnmarked m.old }
    requires serves { Serves c.old m.old }
    requires holds { HoldsPrefix m.old f.now work.old }
    ensures ok { OnOk result (HoldsFormula m.new (expression_of f.now) work.new.root) }
    ensures within { OnOk result (AreWithinLimit (without_root m.old work.old.root) f.now limit
        work.old.groups (length f.now.groups)) }
    ensures err { IfErr result (λ e.
        IsFormulaRefused (without_root m.old work.old.root) m.new f.now limit work.old.groups e) }
    ensures held { IsSome (get m.new.roots work.new.root) }
    ensures root { work.new.root ≡ work.old.root }
    ensures kept { KeepsOtherRoots m.old m.new work.old.root }
    ensures never_falls { NeverFalls m.old m.new }
    ensures serves { Serves c.new m.new }
    ensures unmarked { AreUnmarked m.new }
    ensures table { IsTable m.new }
{
    // its contract tells that the table is valid
    let _ = m.vtree();
    let mut pace = Pace::of_groups();
    let groups = f.groups();
    'left: while is_left(f, work) {
        if let Err(error) = join_next(alloc, m, c, f, work, limit) {
            sweep_kept(m, c);
            return Err(error);
        }
        let is_last = work.groups as usize == groups;
        sweep_between(m, c, &mut pace, is_last, limit);
    }
    Ok(())
}

// Sweeps behind a group that is not the last one, where the pace or the limit asks for it.
fn sweep_between(m: &mut Manager, c: &mut Cache, pace: &mut Pace, is_last: bool, limit: u32)
    requires no_move { m.old.moving ≡ None }
    requires unmarked { AreUnmarked m.old }
    requires serves { Serves c.old m.old }
    ensures swept { MaySweep m.old m.new }
    ensures never_falls { NeverFalls m.old m.new }
    ensures entries { c.new.entries ≡ c.old.entries }
    ensures serves { Serves c.new m.new }
    ensures unmarked { AreUnmarked m.new }
    ensures table { IsTable m.new }
{
    // its contract tells that the table is valid
    let _ = m.vtree();
    if !is_last {
        sweep_past(m, c, pace, limit);
    }
}

// Whether there is a group behind the prefix.
fn is_left(f: &Formula, work: &Compiling) -> bool
    ensures { IsTrue result ↔ (work.now.groups < length f.now.groups) }
{
    (work.groups as usize) < f.groups()
}

/// Compiles a formula into a new root. It refuses as `add_group` does for the first group that it refuses, and then no
/// root is new.
pub fn compile(
    alloc: Global,
    m: &mut Manager,
    c: &mut Cache,
    f: &Formula,
    limit: u32,
) -> Result<Root, CompileError>
    requires variables { leaves (plain_tree m.old.vtree) ≡ f.now.variables }
    requires no_move { m.old.moving ≡ None }
    requires room { len m.old.roots < 2 ^ 32 - 1 }
    requires unmarked { AreUnmarked m.old }
    requires serves { Serves c.old m.old }
    ensures absent { IfOk result (λ root. get m.old.roots root ≡ None) }
    ensures count { len m.new.roots ≤ len m.old.roots + 1 }
    ensures ok { IfOk result (λ root. HoldsFormula m.new (expression_of f.now) root) }
    ensures within { OnOk result (AreWithinLimit m.old f.now limit 0 (length f.now.groups)) }
    ensures kept { IfOk result (λ root. KeepsOtherRoots m.old m.new root) }
    ensures err { IfErr result (λ e. IsFormulaRefused m.old m.new f.now limit 0 e) }
    ensures all_kept { OnErr result (KeepsAll m.old m.new) }
    ensures never_falls { NeverFalls m.old m.new }
    ensures serves { Serves c.new m.new }
    ensures unmarked { AreUnmarked m.new }
    ensures table { IsTable m.new }
{
    let mut work = match begin(m, f) {
        Ok(work) => work,
        Err(_) => return Err(CompileError::OutOfMemory),
    };
    match add_groups(alloc, m, c, f, &mut work, limit) {
        Ok(()) => Ok(finish(work)),
        Err(error) => {
            m.release(finish(work));
            Err(error)
        }
    }
}
