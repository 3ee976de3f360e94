//! The earlier nodes, with the index of each id.

ghost use Rattle.std.specs.Prelude.{◌≡◌, ◌≤◌, ◌<◌, ◌+◌, ◌^◌, ◌++◌, [], ◌∷◌, length};
ghost use Rattle.std.specs.Prelude.{OnOk, IfOk, ok_or, None, is_some, codes};
ghost use Rattle.sd_base.specs.Reading.{each};
ghost use Rattle.sd_base.specs.FaultTexts.{at_line};
ghost use Rattle.sd_file.specs.Reads as texts;
ghost use Rattle.sd_file.specs.Reads.{Gives};
ghost use Rattle.sd_file.specs.Steps.{form_view, children_count, count_of, node_in, put_before};
ghost use Rattle.sd_file.specs.Steps.{ids_of, IsIndexed, IsPutIn};

use crate::fault::SddFault;
use crate::file::{FileEntry, FileNode};
use crate::form::Form;
use std::alloc::{AllocError, Global};
use std::collections::BTreeMap;

/// The nodes that were read, and the index of each id.
#[derive(Drop)]
pub(crate) struct IdTable {
    // in the order of their lines
    pub(crate) entries: Vec<FileEntry>,
    // where each id stands in it
    indices: BTreeMap<u64, u32>,
}

impl IdTable {
    /// None yet.
    pub(crate) fn new(alloc: Global) -> Self
        ensures none { result.entries.items ≡ [] }
        ensures indexed { IsIndexed result }
    {
        IdTable {
            entries: Vec::new(alloc),
            indices: BTreeMap::new(alloc),
        }
    }

    /// Whether a node has the id.
    pub(crate) fn has(&self, id: u64) -> bool
        requires { IsIndexed self.now }
        ensures { result ≡ is_some (texts.index_of_id id (ids_of self.now)) }
    {
        self.indices.get(&id).is_some()
    }

    /// The index of an earlier node.
    fn index_of(&self, line: u32, id: u64) -> Result<u32, SddFault>
        requires { IsIndexed self.now }
        ensures { Gives (λ index. index) result
            (ok_or (texts.index_of_id id (ids_of self.now))
            (at_line line (codes ": child unknown"))) }
    {
        self.indices
            .get(&id)
            .copied()
            .ok_or(SddFault::ChildUnknown { line })
    }

    /// Puts the indices of the children behind the pairs, two by two.
    fn put_pairs(
        &self,
        pairs: &mut Vec<(u32, u32)>,
        line: u32,
        children: &[u64],
    ) -> Result<(), SddFault>
        requires { IsIndexed self.now }
        ensures { Gives (λ _. pairs.new.items) result (put_before pairs.old.items
            (each (texts.pair_at (ids_of self.now) line) (texts.two_by_two children.now))) }
    {
        let mut rest = children;
        while let [prime, sub, others @ ..] = rest {
            let prime = self.index_of(line, *prime)?;
            let sub = self.index_of(line, *sub)?;
            pairs.push((prime, sub))?;
            rest = others;
        }
        Ok(())
    }

    /// A decomposition of the children, whose pairs are put behind the others.
    fn decomposition(
        &self,
        pairs: &mut Vec<(u32, u32)>,
        line: u32,
        vtree: u64,
        children: &[u64],
    ) -> Result<FileNode, SddFault>
        requires indexed { IsIndexed self.now }
        requires within_limit { length children.now ≤ 67108864 }
        ensures value { Gives (λ node. node_in pairs.new.items (length pairs.old.items) node) result
            (texts.decomposition_of (ids_of self.now) line vtree (texts.two_by_two children.now)) }
        ensures put { OnOk result (IsPutIn pairs.old.items pairs.new.items) }
        ensures within { IfOk result (λ node.
            length pairs.old.items + count_of node ≤ length pairs.new.items) }
    {
        let start = pairs.len();
        self.put_pairs(pairs, line, children)?;
        let count = (pairs.len() - start) as u32;
        Ok(FileNode::Decomposition { vtree, count })
    }

    /// The node of a line, whose pairs are put behind the others.
    pub(crate) fn node_of(
        &self,
        pairs: &mut Vec<(u32, u32)>,
        variables: u32,
        line: u32,
        form: &Form,
    ) -> Result<FileNode, SddFault>
        requires range { variables ≤ 1024 }
        requires indexed { IsIndexed self.now }
        requires within_limit { children_count form.now ≤ 67108864 }
        ensures value { Gives (λ node. node_in pairs.new.items (length pairs.old.items) node) result
            (texts.node_of variables (ids_of self.now) line (form_view form.now).node) }
        ensures put { OnOk result (IsPutIn pairs.old.items pairs.new.items) }
        ensures within { IfOk result (λ node.
            length pairs.old.items + count_of node ≤ length pairs.new.items) }
    {
        match form {
            Form::ConstantLine { value, .. } => Ok(FileNode::Constant(*value)),
            Form::LiteralLine { vtree, literal, .. } => {
                if *literal == 0 || literal.unsigned_abs() > u64::from(variables) {
                    return Err(SddFault::LiteralRange { line });
                }
                Ok(FileNode::Literal {
                    vtree: *vtree,
                    literal: *literal as i32,
                })
            }
            Form::DecompositionLine {
                vtree,
                children,
                ..
            } => self.decomposition(pairs, line, *vtree, children),
        }
    }

    /// Puts a node of a new id behind the others.
    pub(crate) fn add(&mut self, entry: FileEntry) -> Result<(), AllocError>
        requires indexed { IsIndexed self.old }
        requires fresh { texts.index_of_id entry.id (ids_of self.old) ≡ None }
        requires within_limit { length self.old.entries.items < 2 ^ 32 }
        ensures kept { OnOk result (self.new.entries.items ≡ self.old.entries.items ++ entry ∷ []) }
        ensures indexed { OnOk result (IsIndexed self.new) }
    {
        self.indices.insert(entry.id, self.entries.len() as u32)?;
        self.entries.push(entry)?;
        Ok(())
    }
}
