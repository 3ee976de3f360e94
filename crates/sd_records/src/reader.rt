//! The node of records.

ghost use Rattle.std.specs.Prelude.{◌≡◌, ℕ, ◌<◌, ◌≤◌, Bool, List, map, length, slice_get, Some, IfOk, IfErr, OnOk};
ghost use Rattle.std.specs.List.{AllByRecursion};
ghost use Rattle.sd_model.specs.Diagram.{Diagram, Decomposition, Elements};
ghost use Rattle.sd_vtree.specs.Numbered.{plain_tree};
ghost use Rattle.sd_manager.specs.Shown.{ShowsCanonical};
ghost use Rattle.sd_manager.specs.Valid.{IsTable};
ghost use Rattle.sd_manager.specs.Making.{Extends, KeepsRule};
ghost use Rattle.sd_apply.specs.Answers.{HasAnswer};
ghost use Rattle.sd_apply.specs.Serving.{Serves};
ghost use Rattle.sd_records.specs.Records.{AreRecords, AreEntries, Unfolds, UnfoldsCanonical, UnfoldToValue, IsBefore};
ghost use Rattle.sd_records.specs.declared.records.Ref.{Ref};
ghost use Rattle.sd_records.specs.declared.records.Ref.TheVariants as refs;
ghost use Rattle.sd_records.specs.Stored.{ref_of, refs_of, entries_of, pair_count};
ghost use Rattle.sd_records.specs.Reading.{node_of, nodes_of, AreBefore, AreRead, ShowDecomposition};

use crate::records::{Head, Records};
use sd_cache::Cache;
use sd_manager::{FIRST_NODE, Manager, NodeId};
use sd_runs::TakeError;
use std::alloc::{AllocError, Global};

/// The node that shows the diagram of records, which is canonical for the manager's vtree. It refuses as
/// `sd_apply::and`. The cache serves the manager as before; no answer is looked up or kept.
pub fn import(
    alloc: Global,
    m: &mut Manager,
    c: &mut Cache,
    records: &Records,
) -> Result<NodeId, TakeError>
    requires records { AreRecords (plain_tree m.old.vtree) records.now }
    requires serves { Serves c.old m.old }
    ensures ok { IfOk result (λ node. (d : Diagram)
        → Unfolds (plain_tree m.old.vtree) records.now.entries records.now.root d
        → ShowsCanonical m.new node d) }
    ensures value { IfOk result (λ node. (f : List Bool → Bool)
        → UnfoldToValue (plain_tree m.old.vtree) records.now f → HasAnswer m.new f node) }
    ensures kept { Extends m.old m.new }
    ensures serves { Serves c.new m.new }
    ensures rule { IfErr result (λ e. KeepsRule m.new e) }
    ensures table { IsTable m.new }
{
    let nodes = read_entries(alloc, m, &records.heads, &records.pairs)?;
    Ok(node_at(&nodes, records.root))
}

// The nodes of all entries, in order.
fn read_entries(
    alloc: Global,
    m: &mut Manager,
    heads: &[Head],
    pairs: &[(u32, u32)],
) -> Result<Vec<NodeId>, TakeError>
    requires entries { AreEntries (plain_tree m.old.vtree) (entries_of heads.now pairs.now) }
    requires counted { pair_count heads.now ≡ length pairs.now }
    ensures ok { IfOk result (λ nodes. AreRead m.new (entries_of heads.now pairs.now) nodes.items) }
    ensures all { IfOk result (λ nodes. length nodes.items ≡ length heads.now) }
    ensures kept { Extends m.old m.new }
    ensures rule { IfErr result (λ e. KeepsRule m.new e) }
    ensures table { IsTable m.new }
{
    let _ = m.vtree();
    let mut nodes = Vec::with_capacity(alloc, heads.len())?;
    let mut elements = Vec::new(alloc);
    let mut start = 0;
    for index in 0..heads.len() {
        let head = heads[index];
        let end = start + head.count as usize;
        fill(&mut elements, &nodes, &pairs[start..end])?;
        let node = make_at(m, head.position, &elements)?;
        nodes.push(node)?;
        start = end;
    }
    Ok(nodes)
}

// The node of elements at a position.
fn make_at(
    m: &mut Manager,
    position: u32,
    elements: &[(NodeId, NodeId)],
) -> Result<NodeId, TakeError>
    requires table { IsTable m.old }
    requires shown { (es : Elements) × ShowDecomposition m.old position elements.now es }
    ensures ok { IfOk result (λ node. (es : Elements)
        → ShowDecomposition m.old position elements.now es
        → ShowsCanonical m.new node (Decomposition position es)) }
    ensures kept { Extends m.old m.new }
    ensures rule { IfErr result (λ e. KeepsRule m.new e) }
    ensures table { IsTable m.new }
{
    let place = m.vtree().at_position(position).unwrap();
    m.make(place, elements)
}

// Replaces elements by those of an entry, whose pairs refer to earlier ones.
fn fill(
    elements: &mut Vec<(NodeId, NodeId)>,
    nodes: &[NodeId],
    pairs: &[(u32, u32)],
) -> Result<(), AllocError>
    requires { AllByRecursion (AreBefore (length nodes.now)) (map refs_of pairs.now) }
    ensures { OnOk result (elements.new.items ≡ map (nodes_of nodes.now) (map refs_of pairs.now)) }
{
    elements.clear();
    for index in 0..pairs.len() {
        let pair = pairs[index];
        let prime = node_at(nodes, pair.0);
        let sub = node_at(nodes, pair.1);
        elements.push((prime, sub))?;
    }
    Ok(())
}

// The node of what has this code.
fn node_at(nodes: &[NodeId], code: u32) -> NodeId
    requires { IsBefore (length nodes.now) (ref_of code) }
    ensures { result ≡ node_of nodes.now (ref_of code) }
{
    if code < FIRST_NODE {
        return NodeId(code);
    }
    nodes[(code - FIRST_NODE) as usize]
}
