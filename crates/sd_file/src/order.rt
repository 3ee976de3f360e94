//! The elements of the decompositions below some nodes, in the structural order.
//!
//! A list in the table ascends by codes, which depend on what was made before. A text must not, so it goes by the
//! order of the diagrams themselves: constants, then literals, then decompositions by position, count and elements. To
//! compare two diagrams by descent would cost their size, at each comparison. So each node gets a rank, vtree node by
//! vtree node from the leaves up: where a place is reached, all that stands below it has ranks, and elements are
//! compared by two numbers.

ghost use Rattle.std.specs.Prelude.{◌≡◌, ◌≤◌, ◌<◌, ◌+◌, ◌==◌, ℕ, Some, true};
ghost use Rattle.std.specs.Prelude.{None, List, [], length, map, IfOk, OnOk, if◌then◌else◌};
ghost use Rattle.std.specs.BTreeMap as tree;
ghost use Rattle.std.specs.Ordering.{nat_cmp};
ghost use Rattle.sd_laws.specs.Depth.{depth};
ghost use Rattle.sd_vtree.specs.Numbered.{numbers};
ghost use Rattle.sd_manager.specs.Views.{IsViewOf};
ghost use Rattle.sd_manager.specs.declared.view.View.TheVariants.{Literal as LiteralView};
ghost use Rattle.std.specs.Option.{IsSome};
ghost use Rattle.std.specs.List.{AllByRecursion};
ghost use Rattle.std.specs.List.Sorted.{IsPermutation, IsSorted};
ghost use Rattle.sd_model.specs.Diagram.{Diagram, Decomposition, Elements};
ghost use Rattle.sd_manager.specs.Table.{Table};
ghost use Rattle.sd_manager.specs.Shown.{Shows, ShowsCanonical, IsNodeOf, constant_diagram};
ghost use Rattle.sd_manager.specs.Views.{pairs_at};
ghost use Rattle.sd_manager.specs.Valid.{IsTable};
ghost use Rattle.sd_file.specs.Ordered.{HasOrder, list_of, rank_of};
ghost use Rattle.sd_file.specs.Ranks.{IsRanked, AreRanks, IsEntry};
ghost use Rattle.sd_file.specs.Ranks.{IsGiving, codes_of, ranked_cmp, entry_cmp};
ghost use Rattle.sd_file.specs.Ranks.{IsNodeAt, IsGroup, IsFresh, NoneAt};
ghost use Rattle.sd_file.specs.Ranks.{AreLeft, FitsPlain, AreFound, IsAdded, was_seen, seen_at, items_of};
ghost use Rattle.sd_file.specs.Ranks.{KeepRanks, HasRankedPairs, HasRanks, AreRankedBelow, AreCollected};
ghost use Rattle.sd_file.specs.Ranks.{BothHaveRankOrGroup, KeepCollected, IsFoundAlso, HasRankOrGroup, IsShownWithin};

use crate::known::{Ordered, Rank};
use sd_manager::{Manager, NodeId, View};
use sd_vtree::VNode;
use std::alloc::{AllocError, Global};
use std::collections::BTreeMap;

// A prime and a sub, by their ranks and by their codes.
type Ranked = (Rank, Rank, u32, u32);

// A decomposition: the number of its elements, these, and its code.
type Entry = (usize, Vec<Ranked>, u32);

// The elements of a node with their ranks, by ascending ranks.
fn sort_elements(elements: &mut Vec<Ranked>)
    ensures permutation { IsPermutation elements.old.items elements.new.items }
    ensures sorted { IsSorted ranked_cmp elements.new.items }
{
    elements.sort_unstable();
}

// Puts decompositions of one position into the structural order.
fn sort_entries(entries: &mut Vec<Entry>)
    ensures permutation { IsPermutation entries.old.items entries.new.items }
    ensures sorted { IsSorted entry_cmp entries.new.items }
{
    entries.sort_unstable();
}

// The codes of elements.
fn pairs_of(alloc: Global, elements: &[Ranked]) -> Result<Vec<(NodeId, NodeId)>, AllocError>
    ensures { IfOk result (λ v. v.items ≡ map codes_of elements.now) }
{
    let mut pairs = Vec::with_capacity(alloc, elements.len())?;
    for element in elements {
        pairs.push((NodeId(element.2), NodeId(element.3)))?;
    }
    Ok(pairs)
}

// The elements of a node with their ranks, in the order of the table.
fn ranked_elements(
    alloc: Global,
    m: &Manager,
    o: &Ordered,
    node: NodeId,
    count: u32,
) -> Result<Vec<Ranked>, AllocError>
    requires count { length (pairs_at m.now node) ≡ count }
    requires ready { AllByRecursion (HasRanks o.now) (pairs_at m.now node) }
    ensures pairs { IfOk result (λ v. map codes_of v.items ≡ pairs_at m.now node) }
    ensures ranked { IfOk result (λ v. AllByRecursion (IsRanked o.now) v.items) }
{
    let mut elements = Vec::with_capacity(alloc, count as usize)?;
    for index in 0..count {
        let (prime, sub) = m.element(node, index);
        let prime_rank = o.rank(prime).unwrap();
        let sub_rank = o.rank(sub).unwrap();
        elements.push((prime_rank, sub_rank, prime.0, sub.0))?;
    }
    Ok(elements)
}

// How many elements a decomposition has.
fn count_of(m: &Manager, node: NodeId) -> u32
    requires table { IsTable m.now }
    requires shown { (p : ℕ) × IsNodeAt m.now p node }
    ensures { length (pairs_at m.now node) ≡ result }
{
    match m.view(node) {
        View::Decomposition { count, .. } => count,
        _ => 0,
    }
}

// A decomposition with its elements in the structural order.
fn entry_of(alloc: Global, m: &Manager, o: &Ordered, code: u32) -> Result<Entry, AllocError>
    requires table { IsTable m.now }
    requires ranks { AreRanks m.now o.now }
    requires shown { (p : ℕ) × IsNodeAt m.now p code }
    requires ready { HasRankedPairs m.now o.now code }
    ensures code { IfOk result (λ e. e.2 ≡ code) }
    ensures entry { IfOk result (λ e. (p : ℕ) → IsNodeAt m.now p code → IsEntry m.now o.now p e) }
{
    let node = NodeId(code);
    let count = count_of(m, node);
    let mut elements = ranked_elements(alloc, m, o, node, count)?;
    sort_elements(&mut elements);
    Ok((elements.len(), elements, code))
}

// The decompositions of a group.
fn entries_of(
    alloc: Global,
    m: &Manager,
    o: &Ordered,
    group: &[u32],
) -> Result<Vec<Entry>, AllocError>
    requires table { IsTable m.now }
    requires ranks { AreRanks m.now o.now }
    requires shown { (p : ℕ) × AllByRecursion (IsNodeAt m.now p) group.now }
    requires ready { AllByRecursion (HasRankedPairs m.now o.now) group.now }
    ensures codes { IfOk result (λ v. map (λ e. e.2) v.items ≡ group.now) }
    ensures entries { IfOk result (λ v. (p : ℕ) → AllByRecursion (IsNodeAt m.now p) group.now →
        AllByRecursion (IsEntry m.now o.now p) v.items) }
{
    let mut entries = Vec::with_capacity(alloc, group.len())?;
    for code in group {
        entries.push(entry_of(alloc, m, o, *code)?)?;
    }
    Ok(entries)
}

// Gives the decompositions at a position, which are in the structural order, their ranks and lists.
fn give_all(
    alloc: Global,
    o: &mut Ordered,
    position: u32,
    entries: &[Entry],
) -> Result<(), AllocError>
    ensures giving { OnOk result ((t : Table) (groups : _) → IsTable t →
        IsGiving t o.old groups position 0 entries.now →
        IsGiving t o.new groups position (length entries.now) []) }
    ensures kept { OnOk result (KeepRanks o.old o.new) }
    ensures given { OnOk result
        (AllByRecursion (λ e. IsSome (rank_of o.new e.2)) entries.now) }
{
    for (index, entry) in entries.iter().enumerate() {
        let list = pairs_of(alloc, &entry.1)?;
        let rank = Rank::Decomposition {
            position,
            place: index,
        };
        o.give(entry.2, rank, list)?;
    }
    Ok(())
}

// Gives a group of decompositions at a position their ranks and lists.
fn rank_group(
    alloc: Global,
    m: &Manager,
    o: &mut Ordered,
    position: u32,
    group: &[u32],
) -> Result<(), AllocError>
    requires table { IsTable m.now }
    requires ranks { AreRanks m.now o.old }
    requires group { IsGroup m.now position group.now }
    requires ready { AllByRecursion (HasRankedPairs m.now o.old) group.now }
    ensures ranks { OnOk result ((groups : _) → IsFresh m.now o.old groups
        → NoneAt m.now o.old position →
        tree.get nat_cmp groups position ≡ None
        → AreRanks m.now o.new × IsFresh m.now o.new groups) }
    ensures kept { OnOk result (KeepRanks o.old o.new) }
    ensures given { OnOk result (AllByRecursion (λ c. IsSome (rank_of o.new c)) group.now) }
{
    let mut entries = entries_of(alloc, m, o, group)?;
    sort_entries(&mut entries);
    give_all(alloc, o, position, &entries)
}

// Takes the group of a position out.
fn take_group(groups: &mut BTreeMap<u32, Vec<u32>>, position: u32) -> Option<Vec<u32>>
    ensures taken { result ≡ tree.get nat_cmp groups.old position }
    ensures gone { tree.get nat_cmp groups.new position ≡ None }
    ensures rest { (q : ℕ) (v : _) → tree.get nat_cmp groups.new q ≡ Some v →
        tree.get nat_cmp groups.old q ≡ Some v }
    ensures others { (q : ℕ) → (q ≡ position → ⊥)
        → tree.get nat_cmp groups.new q ≡ tree.get nat_cmp groups.old q }
{
    groups.remove(&position)
}

// Ranks the decompositions at a vtree node and below it.
fn rank_below(
    alloc: Global,
    m: &Manager,
    groups: &mut BTreeMap<u32, Vec<u32>>,
    o: &mut Ordered,
    node: VNode,
) -> Result<(), AllocError>
    requires table { IsTable m.now }
    requires left { AreLeft m.now o.old groups.old }
    requires node { node < length (numbers m.now.vtree) }
    ensures { OnOk result (AreRankedBelow m.now o.old o.new groups.old groups.new node) }
{
    if let Some(children) = m.vtree().children(node) {
        rank_below(alloc, m, groups, o, children.0)?;
        rank_below(alloc, m, groups, o, children.1)?;
        let position = m.vtree().position(node);
        if let Some(group) = take_group(groups, position) {
            rank_group(alloc, m, o, position, &group)?;
        }
    }
    Ok(())
}

// Takes the group of a position out, or makes an empty one.
fn taken_or_new(alloc: Global, groups: &mut BTreeMap<u32, Vec<u32>>, position: u32) -> Vec<u32>
    ensures items { result.items ≡ items_of (tree.get nat_cmp groups.old position) }
    ensures others { (q : ℕ) → (q ≡ position → ⊥)
        → tree.get nat_cmp groups.new q ≡ tree.get nat_cmp groups.old q }
{
    match groups.remove(&position) {
        Some(group) => group,
        None => Vec::new(alloc),
    }
}

// The decompositions below a node, by their positions.
#[derive(Drop)]
struct Found {
    groups: BTreeMap<u32, Vec<u32>>,
    // Whether each code stands in a group.
    seen: Vec<bool>,
}

impl Found {
    // Whether a decomposition was found.
    fn has(&self, code: u32) -> bool
        ensures { result ≡ was_seen self.now code }
    {
        let index = code as usize;
        index < self.seen.len() && self.seen[index]
    }

    // Adds a decomposition at a position where it was not found yet.
    fn add(&mut self, alloc: Global, position: u32, code: u32) -> Result<(), AllocError>
        ensures found { OnOk result ((t : Table) → AreFound t self.old → IsNodeAt t position code
            → AreFound t self.new) }
        ensures more { OnOk result ((t : Table) → AreFound t self.old
            → IsFoundAlso self.old self.new code) }
    {
        if self.has(code) {
            Ok(())
        } else {
            self.put(alloc, position, code)
        }
    }

    // Puts a decomposition into the group of its position.
    fn put(&mut self, alloc: Global, position: u32, code: u32) -> Result<(), AllocError>
        ensures { OnOk result (IsAdded self.old self.new position code) }
    {
        let mut group = taken_or_new(alloc, &mut self.groups, position);
        group.push(code)?;
        self.groups.insert(position, group)?;
        see(&mut self.seen, code)?;
        Ok(())
    }
}

// Notes that a code was seen.
fn see(seen: &mut Vec<bool>, code: u32) -> Result<(), AllocError>
    ensures { OnOk result ((b : ℕ) → seen_at seen.new.items b
        ≡ (if b == code then true else seen_at seen.old.items b)) }
{
    let index = code as usize;
    if index >= seen.len() {
        seen.resize(index + 1, false)?;
    }
    seen[index] = true;
    Ok(())
}

// The rank of a constant.
fn constant_rank(value: bool) -> Rank
    ensures { FitsPlain (constant_diagram value) result }
{
    Rank::Constant(value)
}

// The rank of a literal of the vtree, as DIMACS has it.
fn literal_rank(m: &Manager, literal: i32) -> Rank
    requires table { IsTable m.now }
    requires shown { (d : Diagram) × IsViewOf m.now (LiteralView literal) d }
    ensures { (d : Diagram) → IsViewOf m.now (LiteralView literal) d → FitsPlain d result }
{
    let variable = literal.unsigned_abs();
    let vtree = m.vtree();
    Rank::Literal {
        position: vtree.position(vtree.leaf(variable)),
        positive: literal > 0,
    }
}

// Ranks the constants and literals at and below a node that shows one of at most so many levels of decompositions,
// and finds the decompositions.
#[cycle(collect)]
fn collect(
    alloc: Global,
    m: &Manager,
    o: &mut Ordered,
    found: &mut Found,
    node: NodeId,
    levels: u32,
) -> Result<(), AllocError>
    requires table { IsTable m.now }
    requires collected { AreCollected m.now o.old found.old }
    requires shown { (d : Diagram) × ShowsCanonical m.now node d × (depth d ≤ levels) }
    ensures collected { OnOk result (AreCollected m.now o.new found.new) }
    ensures keeps_all { OnOk result (KeepCollected o.old o.new found.old found.new) }
    ensures stands { OnOk result (HasRankOrGroup o.new found.new.groups node) }
{
    match m.view(node) {
        View::Constant(value) => o.give_plain(alloc, node.0, constant_rank(value)),
        View::Literal(literal) => o.give_plain(alloc, node.0, literal_rank(m, literal)),
        View::Decomposition { place, count } => {
            if found.has(node.0) {
                return Ok(());
            }
            collect_below(alloc, m, o, found, node, count, levels)?;
            found.add(alloc, m.vtree().position(place), node.0)
        }
    }
}

// The same below a decomposition with this number of elements.
#[cycle(collect)]
fn collect_below(
    alloc: Global,
    m: &Manager,
    o: &mut Ordered,
    found: &mut Found,
    node: NodeId,
    count: u32,
    levels: u32,
) -> Result<(), AllocError>
    requires table { IsTable m.now }
    requires collected { AreCollected m.now o.old found.old }
    requires count { length (pairs_at m.now node) ≡ count }
    requires shown { (p : ℕ) × (es : Elements) × ShowsCanonical m.now node (Decomposition p es)
        × (depth (Decomposition p es) ≤ levels) }
    ensures collected { OnOk result (AreCollected m.now o.new found.new) }
    ensures keeps_all { OnOk result (KeepCollected o.old o.new found.old found.new) }
    ensures stand { OnOk result
        (AllByRecursion (BothHaveRankOrGroup o.new found.new.groups) (pairs_at m.now node)) }
{
    for index in 0..count {
        let (prime, sub) = m.element(node, index);
        collect(alloc, m, o, found, prime, levels - 1)?;
        collect(alloc, m, o, found, sub, levels - 1)?;
    }
    Ok(())
}

// The same at and below each of some nodes, one after another.
fn collect_all(
    alloc: Global,
    m: &Manager,
    o: &mut Ordered,
    found: &mut Found,
    nodes: &[NodeId],
    levels: u32,
) -> Result<(), AllocError>
    requires table { IsTable m.now }
    requires collected { AreCollected m.now o.old found.old }
    requires shown { AllByRecursion (IsShownWithin m.now levels) nodes.now }
    ensures collected { OnOk result (AreCollected m.now o.new found.new) }
    ensures stand { OnOk result
        (AllByRecursion (HasRankOrGroup o.new found.new.groups) nodes.now) }
{
    for node in nodes {
        collect(alloc, m, o, found, *node, levels)?;
    }
    Ok(())
}

/// The elements of the decompositions at and below some nodes.
pub(crate) fn in_order(alloc: Global, m: &Manager, nodes: &[NodeId]) -> Result<Ordered, AllocError>
    requires { AllByRecursion (IsNodeOf m.now) nodes.now }
    ensures { IfOk result (λ o. AllByRecursion (HasOrder m.now (list_of o)) nodes.now) }
{
    let mut o = Ordered::new(alloc);
    let mut found = Found {
        groups: BTreeMap::new(alloc),
        seen: Vec::new(alloc),
    };
    let levels = m.vtree().variables();
    collect_all(alloc, m, &mut o, &mut found, nodes, levels)?;
    rank_below(alloc, m, &mut found.groups, &mut o, m.vtree().root())?;
    Ok(o)
}
