//! The nodes of an SDD file.

ghost use Rattle.std.specs.Prelude.{◌≡◌, ◌<◌, ◌≤◌, length, slice_get, Some};
ghost use Rattle.sd_file.specs.Files.{entry_at, entry_pairs, kind_of, IsEarlier, IsFile, IsKindOver};

use std::marker::Model;

/// What a node is.
#[derive(Clone, Copy, Debug, PartialEq, Eq)]
pub enum FileNode {
    /// False or true.
    Constant(bool),
    /// A literal of DIMACS, and the vtree id that the file has.
    Literal { vtree: u64, literal: i32 },
    /// The disjunction of that many pairs of a prime and a sub, and the vtree id that the file has.
    Decomposition { vtree: u64, count: u32 },
}

/// A node as it is kept: its id, what it is, and where its pairs begin in the list of all pairs.
#[derive(Clone, Copy, Debug)]
pub(crate) struct FileEntry {
    pub(crate) id: u64,
    pub(crate) node: FileNode,
    pub(crate) start: usize,
}

/// The nodes of a file, each behind its children; the last one is the file's.
#[derive(Debug, Drop)]
pub struct SddFile {
    /// The variables of the vtree over which the text was read.
    pub(crate) variables: u32,
    pub(crate) entries: Vec<FileEntry>,
    /// The pairs of all decompositions, one decomposition after another.
    pub(crate) pairs: Vec<(u32, u32)>,
}

impl Model for SddFile {
    ghost use Rattle.std.specs.Prelude.{length};
    ghost use Rattle.std.specs.List.{AllByRecursion};
    ghost use Rattle.sd_file.specs.Files.{IsFile};
    ghost use Rattle.sd_file.specs.Reads.{File};
    ghost use Rattle.sd_file.specs.Steps.{entries_of, file_with, IsWithin};

    ghost Value = { File };

    ghost view = { λ f. file_with f.variables (entries_of f.entries.items f.pairs.items) };

    ghost invariant = { λ f. AllByRecursion (IsWithin (length f.pairs.items)) f.entries.items
        × IsFile (file_with f.variables (entries_of f.entries.items f.pairs.items)) };
}

impl SddFile {
    /// How many variables the file is over, also those that no literal names.
    pub fn variables(&self) -> u32
        ensures value { result ≡ self.now.variables }
        ensures range { (1 ≤ result) × (result ≤ 1024) }
    {
        self.variables
    }

    /// How many nodes there are; the last one is the file's.
    pub fn nodes(&self) -> u32
        ensures value { result ≡ length self.now.nodes }
        ensures range { (1 ≤ result) × (result ≤ 67108864) }
        ensures file { IsFile self.now }
    {
        self.entries.len() as u32
    }

    /// The id of a node, counted from 0.
    pub fn id(&self, index: u32) -> u64
        requires { index < length self.now.nodes }
        ensures { result ≡ (entry_at self.now index).id }
    {
        self.entries[index as usize].id
    }

    /// What a node is, counted from 0: a literal is in range, and a decomposition has pairs.
    pub fn node(&self, index: u32) -> FileNode
        requires { index < length self.now.nodes }
        ensures value { result ≡ kind_of (entry_at self.now index).node }
        ensures fits { IsKindOver self.now.variables result }
    {
        self.node_in(index)
    }

    /// How many pairs a node has, none where it is no decomposition.
    pub(crate) fn pair_count(&self, index: u32) -> u32
        requires { index < length self.now.nodes }
        ensures { result ≡ length (entry_pairs self.now index) }
    {
        match self.node(index) {
            FileNode::Constant(_) | FileNode::Literal { .. } => 0,
            FileNode::Decomposition { count, .. } => count,
        }
    }

    /// The node of a number.
    fn node_in(&self, index: u32) -> FileNode
        requires { index < length self.now.nodes }
        ensures value { result ≡ kind_of (entry_at self.now index).node }
        ensures file { IsFile self.now }
    {
        self.entries[index as usize].node
    }

    /// The prime and the sub of an element of a decomposition: both are numbers of earlier nodes.
    pub fn pair(&self, index: u32, element: u32) -> (u32, u32)
        requires node { index < length self.now.nodes }
        requires element { element < length (entry_pairs self.now index) }
        ensures value { slice_get (entry_pairs self.now index) element ≡ Some result }
        ensures earlier { IsEarlier index result }
    {
        self.pair_in(index, element)
    }

    /// The pair of an element.
    fn pair_in(&self, index: u32, element: u32) -> (u32, u32)
        requires node { index < length self.now.nodes }
        requires element { element < length (entry_pairs self.now index) }
        ensures value { slice_get (entry_pairs self.now index) element ≡ Some result }
        ensures file { IsFile self.now }
    {
        let entry = self.entries[index as usize];
        self.pairs[entry.start + element as usize]
    }
}
