//! The parts of a formula as tasks.
//!
//! Each part owns what its work needs: its groups, a manager and a cache. What it gives back is flat records and a
//! manager that holds nothing: a new one, where there is memory for it. A part that is refused gives back the manager
//! that refused.
ghost use Rattle.std.specs.Prelude.{◌≡◌, ℕ, ◌<◌, ◌≤◌, ◌+◌, ◌^◌, None, length, IfOk, IfErr, vec_len};
ghost use Rattle.std.specs.Option.{IsSome};
ghost use Rattle.std.specs.FinMap.{empty, get, remove};
ghost use Rattle.sd_model.specs.Seen.{tree_of};
ghost use Rattle.sd_model.specs.Tree.{IsVtree, leaves};
ghost use Rattle.sd_model.specs.Diagram.{Diagram};
ghost use Rattle.sd_model.specs.Expression.{Expression, expression_value};
ghost use Rattle.sd_vtree.specs.Numbered.{plain_tree};
ghost use Rattle.sd_cache.specs.Entries.{no_answers};
ghost use Rattle.sd_manager.specs.Table.{no_table};
ghost use Rattle.sd_manager.specs.Shown.{HoldsDiagram};
ghost use Rattle.sd_compile.specs.Compiling.{HoldsFormula};
ghost use Rattle.sd_records.specs.Records.{AreRecords, UnfoldToValue};
ghost use Rattle.sd_parts.specs.Work.{AnswersPart, part_work, parts_of, work_of};
ghost use Rattle.sd_parts.specs.Alone.{FitsBehind, IsEmptied, in_whole};

use crate::cutting::begin_of_part;
use crate::gate::Gate;
use crate::tasks::Task;
use sd_cache::Cache;
use sd_compile::laws::total_of_formulas;
use sd_compile::{CompileError, compile};
use sd_formula::Formula;
use sd_manager::{Manager, Root};
use sd_model::Tree;
use sd_records::{Records, export};
use sd_vtree::Vtree;
use std::alloc::{AllocError, Global};
use std::marker::Model;

/// A part of a formula, behind a gate, with a manager and a cache of its own.
#[derive(Drop)]
pub struct Part<G> {
    gate: G,
    // counted from 0
    number: u32,
    formula: Formula,
    // how many groups of the whole formula stand before the part's
    first: u32,
    limit: u32,
    bound: u32,
    alloc: Global,
    manager: Manager,
    cache: Cache,
}

impl<G> Model for Part<G> {
    ghost use Rattle.std.specs.Prelude.{◌≡◌, ◌<◌, ◌^◌, ◌+◌, length};
    ghost use Rattle.std.specs.Coded.{codes};
    ghost use Rattle.sd_model.specs.Tree.{leaves};
    ghost use Rattle.sd_vtree.specs.Numbered.{plain_tree};
    ghost use Rattle.sd_cache.specs.Entries.{no_answers};
    ghost use Rattle.sd_manager.specs.Table.{no_table};
    ghost use Rattle.sd_parts.specs.Seen.{PartWork};
    ghost use Rattle.sd_parts.specs.TreeCode.{tree_code};

    ghost Value = { PartWork };

    ghost coded = { Prim.hlevel (codes, tree_code) };

    ghost view = { λ p. record {
      number = p.number;
      formula = p.formula;
      first = p.first;
      tree = plain_tree p.manager.vtree;
      limit = p.limit;
      bound = p.bound;
    } };

    ghost invariant = { λ p. (p.manager ≡ no_table p.manager.vtree p.bound) × (p.cache ≡ no_answers)
        × (leaves (plain_tree p.manager.vtree) ≡ p.formula.variables)
        × (p.bound < 2 ^ 31) × (p.first + length p.formula.groups < 2 ^ 32) };
}

/// What a part gives back: a manager over its tree that holds nothing, and the records of its diagram. Where its arena
/// was full, the manager is the one that refused.
#[derive(Drop)]
pub struct PartAnswer {
    pub manager: Manager,
    pub outcome: Result<Records, CompileError>,
}

impl<G: Gate + Drop> Task for Part<G> {
    type Answer = PartAnswer;

    ghost answers = { λ part answer. AnswersPart part answer };

    fn work(self) -> PartAnswer {
        let Part {
            gate,
            number,
            formula,
            first,
            limit,
            bound,
            alloc,
            manager,
            cache,
        } = self;
        gate.enter(number);
        let bounds = Bounds { limit, bound };
        compile_part(alloc, manager, cache, &formula, first, bounds)
    }
}

// The limit of a size, and the bound of an arena.
#[derive(Clone, Copy)]
struct Bounds {
    limit: u32,
    bound: u32,
}

// Compiles a part alone. A group is counted from 1 in the whole formula, of which so many groups stand before the part.
fn compile_part(
    alloc: Global,
    mut manager: Manager,
    mut cache: Cache,
    formula: &Formula,
    first: u32,
    bounds: Bounds,
) -> PartAnswer
    requires new { manager ≡ no_table manager.vtree bounds.bound }
    requires cache { cache ≡ no_answers }
    requires variables { leaves (plain_tree manager.vtree) ≡ formula.now.variables }
    requires bound { bounds.bound < 2 ^ 31 }
    requires groups { first + length formula.now.groups < 2 ^ 32 }
    ensures { (number : ℕ) → AnswersPart (work_of number formula.now first
        (plain_tree manager.vtree) bounds.limit bounds.bound) result }
{
    total_of_formulas(&manager);
    match compile(alloc, &mut manager, &mut cache, formula, bounds.limit) {
        Ok(root) => {
            let outcome = records_of(alloc, &manager, &root);
            let manager = emptied(alloc, manager, root, bounds.bound);
            PartAnswer { manager, outcome }
        }
        Err(error) => PartAnswer {
            manager,
            outcome: Err(in_whole(error, first)),
        },
    }
}

// A refusal of a part, with the number of the group in the whole formula, where so many groups stand before the part's.
fn in_whole(error: CompileError, first: u32) -> CompileError
    requires { FitsBehind first error }
    ensures { result ≡ in_whole first error }
{
    match error {
        CompileError::OverLimit { group, size, limit } => CompileError::OverLimit {
            group: first + group,
            size,
            limit,
        },
        CompileError::ArenaFull { elements } => CompileError::ArenaFull { elements },
        CompileError::OutOfMemory => CompileError::OutOfMemory,
    }
}

// The records of what a root holds.
fn records_of(alloc: Global, m: &Manager, root: &Root) -> Result<Records, CompileError>
    requires held { (d : Diagram) × HoldsDiagram m.now root.now d }
    ensures records { IfOk result (λ r. AreRecords (plain_tree m.now.vtree) r) }
    ensures value { IfOk result (λ r. (f : Expression) → HoldsFormula m.now f root.now
        → UnfoldToValue (plain_tree m.now.vtree) r (expression_value f)) }
    ensures err { IfErr result (λ e. e ≡ CompileError.OutOfMemory) }
{
    match export(alloc, m, root) {
        Ok(records) => Ok(records),
        Err(_) => Err(CompileError::OutOfMemory),
    }
}

// A manager over the same tree that holds nothing: a new one, which has no nodes, where there is memory for it.
fn emptied(alloc: Global, mut manager: Manager, root: Root, bound: u32) -> Manager
    requires no_move { manager.moving ≡ None }
    requires root { IsSome (get manager.roots root) }
    requires alone { remove manager.roots root ≡ empty }
    requires bound { bound < 2 ^ 31 }
    requires same_bound { manager.bound ≡ bound }
    ensures { IsEmptied manager result }
{
    manager.release(root);
    match another(alloc, &manager, bound) {
        Ok(empty) => empty,
        Err(_) => manager,
    }
}

// A new manager over the same tree.
fn another(alloc: Global, m: &Manager, bound: u32) -> Result<Manager, AllocError>
    requires bound { bound < 2 ^ 31 }
    ensures tree { IfOk result (λ new. plain_tree new.vtree ≡ plain_tree m.now.vtree) }
    ensures new { IfOk result (λ new. new ≡ no_table new.vtree bound) }
{
    let vtree = m.vtree();
    let _ = vtree.variables();
    let tree = vtree.tree(alloc)?;
    let copy = Vtree::of_tree(alloc, &tree)?;
    Manager::new(alloc, copy, bound)
}

/// The parts of a formula, one for each gate, in order: of K parts of G groups, part i has the groups from i * G / K
/// up to but not including (i + 1) * G / K, both rounded down. Each has a manager of its own over the tree, with this
/// bound of its arena. The only error: out of memory.
pub fn parts<G: Gate + Send + Drop>(
    alloc: Global,
    f: &Formula,
    tree: &Tree,
    bound: u32,
    limit: u32,
    gates: Vec<G>,
) -> Result<Vec<Part<G>>, AllocError>
    requires at_least_one { 1 ≤ vec_len gates }
    requires at_most { vec_len gates ≤ 64 }
    requires vtree { IsVtree (tree_of tree.now) }
    requires variables { leaves (tree_of tree.now) ≡ f.now.variables }
    requires bound { bound < 2 ^ 31 }
    ensures { IfOk result (λ v.
        v.items ≡ parts_of f.now (tree_of tree.now) limit bound (vec_len gates)) }
{
    let count = gates.len();
    let bounds = Bounds { limit, bound };
    let mut list = Vec::with_capacity(alloc, count)?;
    for gate in gates {
        let number = list.len();
        let part = new_part(alloc, f, tree, gate, number, count, bounds)?;
        list.push(part)?;
    }
    Ok(list)
}

// One of 1 to 64 parts.
fn new_part<G: Drop>(
    alloc: Global,
    f: &Formula,
    tree: &Tree,
    gate: G,
    number: usize,
    count: usize,
    bounds: Bounds,
) -> Result<Part<G>, AllocError>
    requires number { number < count }
    requires at_most { count ≤ 64 }
    requires vtree { IsVtree (tree_of tree.now) }
    requires variables { leaves (tree_of tree.now) ≡ f.now.variables }
    requires bound { bounds.bound < 2 ^ 31 }
    ensures { IfOk result (λ part. part
        ≡ part_work f.now (tree_of tree.now) bounds.limit bounds.bound count number) }
{
    // its range tells that a vtree over its variables is small enough
    let _ = f.variables();
    let groups = f.groups();
    let first = begin_of_part(groups, count, number);
    let end = begin_of_part(groups, count, number + 1);
    let formula = f.part(alloc, first, end)?;
    let vtree = Vtree::of_tree(alloc, tree)?;
    let manager = Manager::new(alloc, vtree, bounds.bound)?;
    let cache = Cache::new(alloc)?;
    Ok(Part {
        gate,
        number: number as u32,
        formula,
        first: first as u32,
        limit: bounds.limit,
        bound: bounds.bound,
        alloc,
        manager,
        cache,
    })
}
