//! Diagrams under one vtree.

ghost use Rattle.std.specs.Prelude.{◌≡◌, ◌≢◌, ◌↔◌, ◌⊎◌, ℕ, ◌+◌, ◌-◌, ◌<◌, ◌≤◌, ◌^◌, Bool, List, [], ◌∷◌, length, map};
ghost use Rattle.std.specs.Prelude.{Some, None, IfOk, IfErr, IfSome, IfNone, OnOk, OnErr, IsTrue, slice_get, cond};
ghost use Rattle.std.specs.Option.{IsSome};
ghost use Rattle.std.specs.List.Sorted.{IsPermutation};
ghost use Rattle.std.specs.FinMap.{contains_key, get, len};
ghost use Rattle.sd_model.specs.Tree.{leaves, AreDistinct};
ghost use Rattle.sd_model.specs.Assignment.{literal_holds};
ghost use Rattle.sd_model.specs.Diagram.{Diagram, Elements, Decomposition, meaning};
ghost use Rattle.sd_vtree.specs.Numbered.{IsNumbered, plain_tree};
ghost use Rattle.sd_laws.specs.Depth.{depth};
ghost use Rattle.sd_manager.specs.Table.{no_table, uses_of, key_at};
ghost use Rattle.sd_manager.specs.Literals.{IsLiteralTo, code_of_literal};
ghost use Rattle.sd_manager.specs.Shown.{Shows, ShowsCanonical, IsNodeOf, HoldsDiagram, IsPartitionAt, HasNode};
ghost use Rattle.sd_manager.specs.Shown.{ShowsElement, constant_diagram};
ghost use Rattle.sd_manager.specs.Views.{view_of, pairs_at, IsViewOf};
ghost use Rattle.sd_manager.specs.Valid.{IsTable, total_length};
ghost use Rattle.sd_manager.specs.Making.{Extends, IsMade, IsFull, IsRefusal, KeepsRule, IsNeeded, HasNewNode};
ghost use Rattle.sd_manager.specs.Making.{with_root, without_root};
ghost use Rattle.sd_manager.specs.Marking.{with_mark};
ghost use Rattle.sd_manager.specs.Moving.{next_epoch};
ghost use Rattle.sd_manager.specs.Retiring.{AreRetired, IsIdle, IsRetired};
ghost use Rattle.sd_manager.specs.Total.{IsTotal};

use crate::finding::find_two;
use crate::node_id::NodeId;
use crate::pairs::{sort_into, trimmed, trimmed_pair};
use crate::recount::{count_one, uncount, uncount_one};
use crate::roots::{Root, Roots};
use crate::taking::take_away;
use crate::uses::{add_two, add_use, add_uses, drop_use};
use crate::view::{View, literal_code, literal_value};
use sd_counts::LiveCounts;
use sd_runs::TakeError;
use sd_unique::{Found, Nodes};
use sd_vtree::{VNode, Vtree};
use std::alloc::{AllocError, Global};
use std::marker::Model;

/// Diagrams under one vtree, as nodes that their elements find again, so that equal functions are equal nodes.
///
/// A node that is handed to a call has to be one of this manager, and a root one that this manager gave.
#[derive(Drop)]
pub struct Manager {
    pub(crate) vtree: Vtree,
    pub(crate) nodes: Nodes,
    roots: Roots,
    pub(crate) epoch: u64,
    // The vtree node at which a move is going on.
    pub(crate) moving: Option<VNode>,
    // Room for the list of a node that is made or rewritten.
    pub(crate) sorted: Vec<(u32, u32)>,
    // Which nodes are under what roots hold, and how many elements these have.
    pub(crate) counts: LiveCounts,
    // Whether roots are counted there. None is before the total is asked for, since counts take memory.
    is_counting: bool,
}

impl Model for Manager {
    ghost use Rattle.sd_manager.specs.Table.{Table, table_code};
    ghost use Rattle.sd_manager.specs.Stored.{table_of, IsKept};

    ghost Value = { Table };

    ghost coded = { table_code };

    ghost view = { λ a. table_of a.vtree a.nodes a.roots a.epoch a.moving };

    ghost invariant = { λ a. IsKept a.nodes a.counts a.is_counting
        (table_of a.vtree a.nodes a.roots a.epoch a.moving) };
}

impl Manager {
    /// A manager of no nodes and no roots, whose arena has at most `bound` elements. The only error: out of memory.
    pub fn new(alloc: Global, vtree: Vtree, bound: u32) -> Result<Manager, AllocError>
        requires { bound < 2 ^ 31 }
        ensures ok { IfOk result (λ m. m ≡ no_table vtree bound) }
        ensures table { IfOk result (λ m. IsTable m) }
    {
        let _ = vtree.variables();
        Ok(Manager {
            vtree,
            nodes: Nodes::new(alloc, bound)?,
            roots: Roots::new(alloc),
            epoch: 0,
            moving: None,
            sorted: Vec::new(alloc),
            counts: LiveCounts::new(alloc),
            is_counting: false,
        })
    }

    /// The vtree.
    pub fn vtree(&self) -> &Vtree
        ensures vtree { result.now ≡ self.now.vtree }
        ensures table { IsTable self.now }
    {
        &self.vtree
    }

    /// How often a node was taken away or the vtree was moved. At the greatest `u64` it stays.
    pub fn epoch(&self) -> u64
        ensures epoch { result ≡ self.now.epoch }
        ensures table { IsTable self.now }
    {
        self.epoch
    }

    /// The node of a constant: false has the code 0 and true has the code 1.
    pub fn constant(&self, value: bool) -> NodeId
        ensures code { result ≡ cond value 1 0 }
        ensures shown { ShowsCanonical self.now result (constant_diagram value) }
        ensures table { IsTable self.now }
    {
        // for the prover, here and below: a field that is read tells that the table is valid
        let _ = &self.epoch;
        if value { NodeId(1) } else { NodeId(0) }
    }

    /// The node of a literal, as DIMACS has it: x for a variable x from 1 to V, and -x for its negation.
    pub fn literal(&self, literal: i32) -> NodeId
        requires { IsLiteralTo (leaves (plain_tree self.now.vtree)) literal }
        ensures shown { (d : Diagram) × ShowsCanonical self.now result d
            × ((assignment : List Bool) → meaning d assignment ≡ literal_holds assignment literal) }
        ensures code { result ≡ code_of_literal literal }
        ensures table { IsTable self.now }
    {
        let _ = &self.epoch;
        NodeId(literal_code(literal))
    }

    /// What a node is.
    pub fn view(&self, node: NodeId) -> View
        requires { HasNode self.now node }
        ensures view { result ≡ view_of self.now node }
        ensures shown { (d : Diagram) → Shows self.now node d → IsViewOf self.now result d }
        ensures table { IsTable self.now }
    {
        self.read(node)
    }

    // What a node is, by its code alone.
    fn read(&self, node: NodeId) -> View
        requires { HasNode self.now node }
        ensures view { result ≡ view_of self.now node }
        ensures table { IsTable self.now }
    {
        let code = node.0;
        if code < 2 {
            let _ = &self.epoch;
            View::Constant(code == 1)
        } else if code < 2050 {
            let _ = &self.epoch;
            let variable = (code / 2) as i32;
            View::Literal(if code % 2 == 0 { variable } else { -variable })
        } else {
            let number = code - 2050;
            View::Decomposition {
                place: VNode(self.nodes.place(number)),
                count: self.nodes.list(number).len() as u32,
            }
        }
    }

    /// The element of a decomposition at an index below the number of its elements: the prime and the sub. The elements
    /// ascend by the codes of the primes.
    pub fn element(&self, node: NodeId, index: u32) -> (NodeId, NodeId)
        requires { index < length (pairs_at self.now node) }
        ensures pair { slice_get (pairs_at self.now node) index ≡ Some result }
        ensures shown { (p : ℕ) (elements : Elements)
            → Shows self.now node (Decomposition p elements) →
            ShowsElement self.now result elements }
        ensures table { IsTable self.now }
    {
        self.pair(node, index)
    }

    // The pair of a decomposition at an index.
    fn pair(&self, node: NodeId, index: u32) -> (NodeId, NodeId)
        requires { index < length (pairs_at self.now node) }
        ensures pair { slice_get (pairs_at self.now node) index ≡ Some result }
        ensures table { IsTable self.now }
    {
        let (prime, sub) = self.nodes.list(node.0 - 2050)[index as usize];
        (NodeId(prime), NodeId(sub))
    }

    /// A new root that holds a node. The only error: out of memory, and then nothing is changed.
    pub fn hold(&mut self, node: NodeId) -> Result<Root, AllocError>
        requires no_move { self.old.moving ≡ None }
        requires shown { IsNodeOf self.old node }
        requires room { len self.old.roots < 2 ^ 32 - 1 }
        ensures absent { IfOk result (λ root. get self.old.roots root ≡ None) }
        ensures ok { IfOk result (λ root. self.new ≡ with_root self.old root node) }
        ensures err { OnErr result (self.new ≡ self.old) }
        ensures table { IsTable self.new }
    {
        let root = self.roots.hold(node.0)?;
        add_use(&mut self.nodes, node.0);
        count_one(&mut self.counts, self.is_counting, node.0);
        Ok(root)
    }

    /// Takes a root away. Its node stays until a sweep.
    pub fn release(&mut self, root: Root)
        requires no_move { self.old.moving ≡ None }
        requires root { IsSome (get self.old.roots root) }
        ensures released { self.new ≡ without_root self.old root }
        ensures table { IsTable self.new }
    {
        let held = self.roots.release(&root);
        drop_use(&mut self.nodes, held);
        uncount_one(&mut self.counts, self.is_counting, held);
    }

    /// Makes a root hold another node, and hands the old one back.
    pub fn rebind(&mut self, root: &mut Root, node: NodeId) -> NodeId
        requires no_move { self.old.moving ≡ None }
        requires root { IsSome (get self.old.roots root.old) }
        requires shown { IsNodeOf self.old node }
        ensures held { get self.old.roots root.old ≡ Some result }
        ensures rebound { self.new ≡ with_root self.old root.old node }
        ensures root { root.new ≡ root.old }
        ensures table { IsTable self.new }
    {
        let former = self.roots.rebind(root, node.0);
        add_use(&mut self.nodes, node.0);
        drop_use(&mut self.nodes, former);
        uncount_one(&mut self.counts, self.is_counting, former);
        count_one(&mut self.counts, self.is_counting, node.0);
        NodeId(former)
    }

    /// The node that a root holds.
    pub fn node_of(&self, root: &Root) -> NodeId
        requires { IsSome (get self.now.roots root.now) }
        ensures held { get self.now.roots root.now ≡ Some result }
        ensures shown { self.now.moving ≡ None → IsNodeOf self.now result }
        ensures table { IsTable self.now }
    {
        NodeId(self.roots.code(root))
    }

    /// Whether two roots hold one function. They do exactly where they hold one node.
    pub fn same(&self, a: &Root, b: &Root) -> bool
        requires no_move { self.now.moving ≡ None }
        requires first { IsSome (get self.now.roots a.now) }
        requires second { IsSome (get self.now.roots b.now) }
        ensures diagrams { (x y : Diagram) → HoldsDiagram self.now a.now x
            → HoldsDiagram self.now b.now y →
            IsTrue result ↔ (x ≡ y) }
        ensures functions { (x y : Diagram) → HoldsDiagram self.now a.now x
            → HoldsDiagram self.now b.now y →
            IsTrue result ↔ ((assignment : List Bool)
            → length assignment ≡ leaves (plain_tree self.now.vtree) →
            meaning x assignment ≡ meaning y assignment) }
        ensures table { IsTable self.now }
    {
        let first = self.node_of(a);
        let second = self.node_of(b);
        first == second
    }

    /// The value of a root under an assignment, which has one truth value for each variable.
    pub fn value(&self, root: &Root, assignment: &[bool]) -> bool
        requires held { (d : Diagram) × HoldsDiagram self.now root.now d }
        requires values { length assignment.now ≡ leaves (plain_tree self.now.vtree) }
        ensures value { (d : Diagram) → HoldsDiagram self.now root.now d
            → result ≡ meaning d assignment.now }
        ensures table { IsTable self.now }
    {
        self.value_below(self.node_of(root), assignment, self.vtree.variables())
    }

    // The value of a node that shows a diagram of at most so many levels of decompositions.
    fn value_below(&self, node: NodeId, assignment: &[bool], levels: u32) -> bool
        requires table { IsTable self.now }
        requires shown { (d : Diagram) × ShowsCanonical self.now node d × (depth d ≤ levels) }
        requires values { length assignment.now ≡ leaves (plain_tree self.now.vtree) }
        ensures { (d : Diagram) → ShowsCanonical self.now node d
            → result ≡ meaning d assignment.now }
    {
        let count = match self.view(node) {
            View::Constant(value) => return value,
            View::Literal(literal) => return literal_value(literal, assignment),
            View::Decomposition { count, .. } => count,
        };
        for index in 0..count {
            let (prime, sub) = self.element(node, index);
            if self.value_below(prime, assignment, levels - 1) {
                return self.value_below(sub, assignment, levels - 1);
            }
        }
        false
    }

    /// The node with the value of a partition of a vtree node: the elements are pairs of a prime and a sub, and no two
    /// subs are equal. A constant stands below every vtree node.
    ///
    /// ArenaFull where the elements find no room in the arena, and OutOfMemory where memory runs out; then nothing is
    /// changed.
    #[inline(always)]
    pub fn make(&mut self, place: VNode, elements: &[(NodeId, NodeId)]) -> Result<NodeId, TakeError>
        requires partition { (ds : List (Diagram × Diagram))
            × IsPartitionAt self.old place elements.now ds }
        requires differ { AreDistinct (map (λ e. e.1) elements.now) }
        ensures ok { IfOk result (λ c. (ds : List (Diagram × Diagram)) →
            IsPartitionAt self.old place elements.now ds → IsMade self.new c ds) }
        ensures kept { Extends self.old self.new }
        ensures grown { IfOk result (λ c. (self.new ≡ self.old)
            ⊎ HasNewNode self.old self.new place elements.now c) }
        ensures err { OnErr result (self.new ≡ self.old) }
        ensures full { IfErr result (λ e. IsRefusal self.old (length elements.now) e) }
        ensures rule { IfErr result (λ e. KeepsRule self.new e) }
        ensures needed { IfErr result (λ e. IsNeeded self.old place elements.now e) }
        ensures table { IsTable self.new }
    {
        if let [first, second] = elements {
            let one = (first.0.0, first.1.0);
            let other = (second.0.0, second.1.0);
            if one.0 < other.0 {
                return self.make_two(place, elements, one, other);
            }
            if other.0 < one.0 {
                return self.make_two(place, elements, other, one);
            }
        }
        self.make_list(place, elements)
    }

    // The same of two elements, given again in ascending order of the primes, without the room for a list.
    #[inline(never)]
    fn make_two(
        &mut self,
        place: VNode,
        elements: &[(NodeId, NodeId)],
        first: (u32, u32),
        second: (u32, u32),
    ) -> Result<NodeId, TakeError>
        requires order { IsPermutation elements.now (first ∷ second ∷ []) }
        requires ascend { first.0 < second.0 }
        requires partition { (ds : List (Diagram × Diagram))
            × IsPartitionAt self.old place elements.now ds }
        requires differ { AreDistinct (map (λ e. e.1) elements.now) }
        ensures ok { IfOk result (λ c. (ds : List (Diagram × Diagram)) →
            IsPartitionAt self.old place elements.now ds → IsMade self.new c ds) }
        ensures kept { Extends self.old self.new }
        ensures grown { IfOk result (λ c. (self.new ≡ self.old)
            ⊎ HasNewNode self.old self.new place elements.now c) }
        ensures err { OnErr result (self.new ≡ self.old) }
        ensures full { IfErr result (λ e. IsRefusal self.old (length elements.now) e) }
        ensures rule { IfErr result (λ e. KeepsRule self.new e) }
        ensures needed { IfErr result (λ e. IsNeeded self.old place elements.now e) }
        ensures table { IsTable self.new }
    {
        if let Some(code) = trimmed_pair(first, second) {
            let _ = &self.epoch;
            return Ok(NodeId(code));
        }
        self.counts.grow(self.nodes.records())?;
        let found = match find_two(&mut self.nodes, place.0, first, second) {
            Ok(found) => found,
            Err(error) => return Err(error),
        };
        let number = match found {
            Found::Present(number) => return Ok(NodeId(number + 2050)),
            Found::New(number) => number,
        };
        add_two(&mut self.nodes, first, second);
        Ok(NodeId(number + 2050))
    }

    // The same of any list.
    #[inline(never)]
    fn make_list(
        &mut self,
        place: VNode,
        elements: &[(NodeId, NodeId)],
    ) -> Result<NodeId, TakeError>
        requires partition { (ds : List (Diagram × Diagram))
            × IsPartitionAt self.old place elements.now ds }
        requires differ { AreDistinct (map (λ e. e.1) elements.now) }
        ensures ok { IfOk result (λ c. (ds : List (Diagram × Diagram)) →
            IsPartitionAt self.old place elements.now ds → IsMade self.new c ds) }
        ensures kept { Extends self.old self.new }
        ensures grown { IfOk result (λ c. (self.new ≡ self.old)
            ⊎ HasNewNode self.old self.new place elements.now c) }
        ensures err { OnErr result (self.new ≡ self.old) }
        ensures full { IfErr result (λ e. IsRefusal self.old (length elements.now) e) }
        ensures rule { IfErr result (λ e. KeepsRule self.new e) }
        ensures needed { IfErr result (λ e. IsNeeded self.old place elements.now e) }
        ensures table { IsTable self.new }
    {
        sort_into(&mut self.sorted, elements)?;
        let list = self.sorted.as_slice();
        if let Some(code) = trimmed(list) {
            return Ok(NodeId(code));
        }
        self.counts.grow(self.nodes.records())?;
        let found = match self.nodes.find_or_insert(place.0, list) {
            Ok(found) => found,
            Err(error) => return Err(error),
        };
        let number = match found {
            Found::Present(number) => return Ok(NodeId(number + 2050)),
            Found::New(number) => number,
        };
        add_uses(&mut self.nodes, list);
        Ok(NodeId(number + 2050))
    }

    /// How often lists, loose runs and roots name a decomposition, in constant time.
    pub fn uses(&self, node: NodeId) -> u64
        requires node { HasNode self.now node }
        requires code { 2050 ≤ node }
        ensures uses { result ≡ uses_of self.now node }
        ensures table { IsTable self.now }
    {
        self.nodes.uses(node.0 - 2050)
    }

    /// The mark of a node, linked or detached, by its number. The node has the code of the number and 2,050.
    pub fn mark(&self, number: u32) -> u32
        requires { IsSome (key_at self.now number) }
        ensures mark { get self.now.marks number ≡ Some result }
        ensures table { IsTable self.now }
    {
        self.nodes.mark(number)
    }

    /// Whether a number, which may be any, is that of a linked node, in constant time. The node has the code of the
    /// number and 2,050.
    pub fn is_linked(&self, number: u32) -> bool
        ensures linked { result ≡ contains_key self.now.linked number }
        ensures table { IsTable self.now }
    {
        let _ = &self.epoch;
        number < self.nodes.records() && self.nodes.is_linked(number)
    }

    /// Gives a node a mark, linked or detached, by its number. Nothing else changes.
    pub fn set_mark(&mut self, number: u32, value: u32)
        requires { IsSome (key_at self.old number) }
        ensures mark { self.new ≡ with_mark self.old number value }
        ensures table { IsTable self.new }
    {
        self.nodes.set_mark(number, value);
    }

    /// How many elements the nodes and the loose runs have together, in constant time.
    pub fn used(&self) -> u32
        ensures used { result ≡ total_length self.now }
        ensures table { IsTable self.now }
    {
        self.nodes.used()
    }

    /// The number of a linked node that nothing uses, where there is one. Its code is the number and 2,050. A call goes
    /// on where the last one stopped.
    pub fn idle(&mut self) -> Option<u32>
        ensures some { IfSome result (λ n. IsIdle self.new n) }
        ensures none { IfNone result ((n : ℕ) → ¬ IsIdle self.new n) }
        ensures same { self.new ≡ self.old }
        ensures table { IsTable self.new }
    {
        self.nodes.idle()
    }

    /// Takes a linked node away that nothing uses. Its number and its run in the arena are free then, and nothing else
    /// is changed but the epoch. Takes no memory.
    pub fn retire(&mut self, number: u32)
        requires idle { IsIdle self.old number }
        ensures retired { IsRetired self.old self.new number }
        ensures table { IsTable self.new }
    {
        uncount(&mut self.counts, &self.nodes, number);
        take_away(&mut self.nodes, number);
        self.epoch = epoch_after(self.epoch);
    }

    /// Takes some nodes away that nothing uses, or none, one after the other, as `idle` and `retire` in turn would. How
    /// many is chosen for speed: a sweep goes on until `idle` finds none. Takes no memory.
    pub fn retire_twos(&mut self)
        ensures retired { AreRetired self.old self.new }
        ensures table { IsTable self.new }
    {
        // In the midst of a large sweep nodes of two elements go in one loop. Where the total is 0 no node is counted,
        // and none has to be taken out of the counts.
        if self.counts.total() == 0 {
            let count = self.nodes.retire_twos(2050);
            self.epoch = self.epoch.saturating_add(u64::from(count));
        }
    }

    /// The total size: how many elements the nodes under the held roots have together, each node once. It costs the
    /// lists of the nodes that came under a root, or are under none any more, since it was last asked for, and a store
    /// for each number that is new since; the first call counts all roots. Takes no memory.
    pub fn total(&mut self) -> u32
        requires no_move { self.old.moving ≡ None }
        ensures total { IsTotal self.old result }
        ensures same { self.new ≡ self.old }
        ensures table { IsTable self.new }
    {
        self.roots.count(&mut self.counts, self.is_counting);
        self.is_counting = true;
        self.counts.settle(&self.nodes);
        self.counts.total()
    }
}

// The epoch after this one; the last one stays.
pub(crate) fn epoch_after(epoch: u64) -> u64
    ensures { result ≡ next_epoch epoch }
{
    if epoch < u64::MAX { epoch + 1 } else { epoch }
}
