//! The check of a file, node by node.

ghost use Rattle.std.specs.Prelude.{◌≡◌, ◌≢◌, ℕ, ◌<◌, true, false, length, map, Some, IfOk, IfErr};
ghost use Rattle.std.specs.FinMap.{get};
ghost use Rattle.sd_model.specs.Tree.{Tree, leaves};
ghost use Rattle.sd_vtree.specs.Numbered.{plain_tree};
ghost use Rattle.sd_manager.specs.Valid.{IsTable};
ghost use Rattle.sd_manager.specs.Making.{Extends, KeepsRule};
ghost use Rattle.sd_apply.specs.Serving.{Serves};
ghost use Rattle.sd_file.specs.declared.file.FileNode.TheVariants.{Literal};
ghost use Rattle.sd_file.specs.Files.{entry_pairs, kind_of, IsFile};
ghost use Rattle.sd_check.specs.Forks.{AreForks};
ghost use Rattle.sd_check.specs.Judging.{AreSound, TellsNode, IsFormed, built_pair};
ghost use Rattle.sd_check.specs.Rules.{Places, HasVerdict, node_at};

use crate::forks::{Fork, forks_of};
use crate::forms::{are_subs_constant, place_of};
use crate::primes::prime_rule;
use crate::rules::{Rule, Verdict};
use crate::twins::have_twins;
use sd_cache::Cache;
use sd_file::{FileNode, SddFile};
use sd_manager::{Manager, NodeId};
use sd_runs::TakeError;
use sd_vfile::Ids;
use std::alloc::{AllocError, Global};

/// Whether each node of a file is compressed, trimmed and a partition for the manager's vtree, where `ids` has the
/// positions of the file's vtree ids; else the first node that breaks a rule, counted from 0, and its first rule.
///
/// The file is over the manager's variables. It refuses as `sd_apply::and`; each node shows what it showed.
pub fn check(
    alloc: Global,
    m: &mut Manager,
    c: &mut Cache,
    file: &SddFile,
    ids: &Ids,
) -> Result<Verdict, TakeError>
    requires variables { leaves (plain_tree m.old.vtree) ≡ file.now.variables }
    requires serves { Serves c.old m.old }
    ensures ok { IfOk result (HasVerdict (plain_tree m.old.vtree) (get ids.now) file.now) }
    ensures kept { Extends m.old m.new }
    ensures serves { Serves c.new m.new }
    ensures rule { IfErr result (λ e. KeepsRule m.new e) }
    ensures table { IsTable m.new }
{
    let forks = forks_of(alloc, m.vtree())?;
    let count = file.nodes();
    let mut built = Vec::with_capacity(alloc, count as usize)?;
    for index in 0..count {
        match judge(alloc, m, c, file, ids, &forks, &built)? {
            Err(rule) => return Ok(Verdict::No { node: index, rule }),
            Ok(node) => built.push(node)?,
        }
    }
    Ok(Verdict::Yes)
}

/// The node of the first node of the file that is not built, or the first rule that it breaks.
fn judge(
    alloc: Global,
    m: &mut Manager,
    c: &mut Cache,
    file: &SddFile,
    ids: &Ids,
    forks: &[Option<Fork>],
    built: &[NodeId],
) -> Result<Result<NodeId, Rule>, TakeError>
    requires variables { leaves (plain_tree m.old.vtree) ≡ file.now.variables }
    requires file { IsFile file.now }
    requires below { length built.now < length file.now.nodes }
    requires forks { AreForks (plain_tree m.old.vtree) forks.now }
    requires sound { AreSound m.old (get ids.now) file.now built.now }
    requires serves { Serves c.old m.old }
    ensures ok { IfOk result (TellsNode m.new (get ids.now) file.now (length built.now)) }
    ensures kept { Extends m.old m.new }
    ensures serves { Serves c.new m.new }
    ensures rule { IfErr result (λ e. KeepsRule m.new e) }
    ensures table { IsTable m.new }
{
    let _ = m.vtree();
    let index = built.len() as u32;
    match file.node(index) {
        FileNode::Constant(value) => Ok(Ok(m.constant(value))),
        FileNode::Literal { vtree, literal } => Ok(judge_literal(
            m, file, ids, index, vtree, literal,
        )),
        FileNode::Decomposition { vtree, count } => {
            match place_of(file, ids, forks, index, vtree, count) {
                Err(rule) => Ok(Err(rule)),
                Ok(middle) => judge_elements(alloc, m, c, file, index, built, middle),
            }
        }
    }
}

/// The node of a literal, where its vtree id is that of its variable's leaf.
fn judge_literal(
    m: &Manager,
    file: &SddFile,
    ids: &Ids,
    index: u32,
    vtree: u64,
    literal: i32,
) -> Result<NodeId, Rule>
    requires variables { leaves (plain_tree m.now.vtree) ≡ file.now.variables }
    requires file { IsFile file.now }
    requires index { index < length file.now.nodes }
    requires node { kind_of (node_at file.now index) ≡ Literal vtree literal }
    ensures { TellsNode m.now (get ids.now) file.now index result }
{
    let leaf = m.vtree().leaf(literal.unsigned_abs());
    let own = m.vtree().position(leaf);
    if is_at(ids, vtree, own) {
        Ok(m.literal(literal))
    } else {
        Err(Rule::Vtree)
    }
}

/// Whether an id has this position.
fn is_at(ids: &Ids, vtree: u64, own: u32) -> bool
    ensures has { result ≡ true → get ids.now vtree ≡ Some own }
    ensures has_not { result ≡ false → get ids.now vtree ≢ Some own }
{
    match ids.position(vtree) {
        None => false,
        Some(position) => position == own,
    }
}

/// The node of a decomposition that breaks none of the first four rules, or the first of the others that it breaks.
fn judge_elements(
    alloc: Global,
    m: &mut Manager,
    c: &mut Cache,
    file: &SddFile,
    index: u32,
    built: &[NodeId],
    middle: u32,
) -> Result<Result<NodeId, Rule>, TakeError>
    requires variables { leaves (plain_tree m.old.vtree) ≡ file.now.variables }
    requires file { IsFile file.now }
    requires index { index < length file.now.nodes }
    requires all { length built.now ≡ index }
    requires formed { (ids : Places) × IsFormed m.old ids file.now index built.now middle }
    requires serves { Serves c.old m.old }
    ensures ok { IfOk result (λ r. (ids : Places)
        → IsFormed m.old ids file.now index built.now middle → TellsNode m.new ids file.now index r) }
    ensures kept { Extends m.old m.new }
    ensures serves { Serves c.new m.new }
    ensures rule { IfErr result (λ e. KeepsRule m.new e) }
    ensures table { IsTable m.new }
{
    let _ = m.vtree();
    let FileNode::Decomposition { count, .. } = file.node(index) else {
        unreachable!()
    };
    let elements = elements_of(alloc, file, index, count, built)?;
    if let Some(rule) = prime_rule(alloc, m, c, &elements)? {
        return Ok(Err(rule));
    }
    if have_twins(alloc, &elements)? {
        return Ok(Err(Rule::Subs));
    }
    if are_subs_constant(file, index, count) {
        return Ok(Err(Rule::Trim));
    }
    let Some(place) = m.vtree().at_position(middle) else {
        unreachable!()
    };
    let node = m.make(place, &elements)?;
    Ok(Ok(node))
}

/// The nodes of the primes and subs of a decomposition.
fn elements_of(
    alloc: Global,
    file: &SddFile,
    index: u32,
    count: u32,
    built: &[NodeId],
) -> Result<Vec<(NodeId, NodeId)>, AllocError>
    requires index { index < length file.now.nodes }
    requires count { count ≡ length (entry_pairs file.now index) }
    requires all { length built.now ≡ index }
    ensures { IfOk result (λ v. v.items ≡ map (built_pair built.now) (entry_pairs file.now index)) }
{
    let mut elements = Vec::with_capacity(alloc, count as usize)?;
    for element in 0..count {
        let (prime, sub) = file.pair(index, element);
        elements.push((built[prime as usize], built[sub as usize]))?;
    }
    Ok(elements)
}
