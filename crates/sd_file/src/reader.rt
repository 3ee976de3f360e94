//! The nodes of a text, line by line.

ghost use Rattle.std.specs.Prelude.{◌≡◌, ◌≤◌, ◌+◌, ◌++◌, [], ◌∷◌, map, length, Ok, OnOk, IfOk, IfErr};
ghost use Rattle.std.specs.List.{AllByRecursion};
ghost use Rattle.sd_base.specs.Reading.{each_after, read_more};
ghost use Rattle.sd_base.specs.Views.{line_view, content_left};
ghost use Rattle.sd_model.specs.Tree.{AreDistinct};
ghost use Rattle.sd_file.specs.Files.{FitFrom, IsFile};
ghost use Rattle.sd_file.specs.Reads as texts;
ghost use Rattle.sd_file.specs.Reads.{Fails, Gives, sdd_file};
ghost use Rattle.sd_file.specs.Steps as steps;
ghost use Rattle.sd_file.specs.Steps.{nodes_view, entries_of, IsRead, word_count};

use crate::fault::SddFault;
use crate::file::{FileEntry, SddFile};
use crate::form::form_of;
use crate::id_table::IdTable;
use sd_base::{ContentLines, Line, natural};
use std::alloc::Global;

/// The nodes that were read.
#[derive(Drop)]
struct Nodes {
    alloc: Global,
    id_table: IdTable,
    pairs: Vec<(u32, u32)>,
}

impl Nodes {
    /// None yet.
    fn new(alloc: Global) -> Self
        ensures none { nodes_view result ≡ [] }
        ensures empty { result.id_table.entries.items ≡ [] }
        ensures read { IsRead result }
    {
        Nodes {
            alloc,
            id_table: IdTable::new(alloc),
            pairs: Vec::new(alloc),
        }
    }

    /// Puts the node of one more line behind the others.
    fn read_line(&mut self, variables: u32, line: &Line<'_>) -> Result<(), SddFault>
        requires range { variables ≤ 1024 }
        requires within_limit { length self.old.id_table.entries.items + length
            (line_view line.now).words
            ≤ 67108864 }
        requires read { IsRead self.old }
        ensures value { Gives (λ _. nodes_view self.new) result
            (read_more (texts.entry_of variables) (nodes_view self.old) (line_view line.now)) }
        ensures read { OnOk result (IsRead self.new) }
        ensures within_limit { OnOk result (length self.new.id_table.entries.items
            ≤ length self.old.id_table.entries.items + length (line_view line.now).words) }
    {
        let number = line.number;
        let Some(form) = form_of(self.alloc, line)? else {
            return Err(SddFault::BadLine { line: number });
        };
        let id = form.id();
        if self.id_table.has(id) {
            return Err(SddFault::IdTwice { line: number });
        }
        let start = self.pairs.len();
        let node = self
            .id_table
            .node_of(&mut self.pairs, variables, number, &form)?;
        self.id_table.add(FileEntry { id, node, start })?;
        Ok(())
    }
}

/// The nodes of all lines.
fn read_nodes(alloc: Global, variables: u32, lines: ContentLines<'_>) -> Result<Nodes, SddFault>
    requires range { variables ≤ 1024 }
    requires within_limit { word_count (content_left lines) ≤ 67108864 }
    ensures value { Gives nodes_view result
        (each_after (texts.entry_of variables) [] (content_left lines.entry)) }
    ensures read { IfOk result IsRead }
    ensures within_limit { IfOk result (λ n. length n.id_table.entries.items ≤ 67108864) }
{
    let mut nodes = Nodes::new(alloc);
    for line in lines {
        nodes.read_line(variables, &line)?;
    }
    Ok(nodes)
}

/// The number of node lines that a header states.
fn stated_by(line: &Line<'_>) -> Option<u64>
    ensures { result ≡ steps.stated_by (line_view line.now).words }
{
    let mut words = line.words();
    if words.next() != Some(b"sdd") {
        return None;
    }
    let number = natural(words.next()?)?;
    if words.next().is_some() {
        return None;
    }
    Some(number)
}

/// The file over the variables 1 to `variables` that a text stands for, or the text's first fault.
///
/// There are 1 to 1,024 variables, and the text has at most 67,108,864 bytes. The first line that
/// counts is `sdd N`, and each of the N others, at least one, is `F id`, `T id`,
/// `L id vtree literal` or `D id vtree k p1 s1 ..` with k pairs of ids of earlier lines, at least
/// one. Blank lines and lines that begin with `c` do not count. Any text may answer `OutOfMemory`.
pub fn read_sdd(alloc: Global, bytes: &[u8], variables: u32) -> Result<SddFile, SddFault>
    requires at_least_one { 1 ≤ variables }
    requires within_limit { variables ≤ 1024 }
    requires fits { length bytes.now ≤ 67108864 }
    ensures ok { IfOk result (λ f. sdd_file variables bytes.now ≡ Ok f) }
    ensures fault { IfErr result (λ e. Fails e (sdd_file variables bytes.now)) }
    ensures variables { IfOk result (λ f. f.variables ≡ variables) }
    ensures fit { IfOk result IsFile }
{
    read_text(alloc, bytes, variables)
}

/// The file of a text.
#[tactic(auto, using(crate::proofs::WholeText::sdd_file_is))]
fn read_text(alloc: Global, bytes: &[u8], variables: u32) -> Result<SddFile, SddFault>
    requires at_least_one { 1 ≤ variables }
    requires within_limit { variables ≤ 1024 }
    requires fits { length bytes.now ≤ 67108864 }
    ensures value { Gives (λ f. f) result (sdd_file variables bytes.now) }
    ensures variables { IfOk result (λ f. f.variables ≡ variables) }
{
    let mut lines = ContentLines::new(bytes, b'c');
    let Some(header) = lines.next() else {
        return Err(SddFault::NoHeader);
    };
    let Some(stated) = stated_by(&header) else {
        return Err(SddFault::NoHeader);
    };
    let nodes = read_nodes(alloc, variables, lines)?;
    finish(variables, stated, nodes)
}

/// The file of these nodes, where the header states their number.
fn finish(variables: u32, stated: u64, nodes: Nodes) -> Result<SddFile, SddFault>
    requires at_least_one { 1 ≤ variables }
    requires range { variables ≤ 1024 }
    requires within_limit { length nodes.id_table.entries.items ≤ 67108864 }
    requires fit { FitFrom variables 0 (nodes_view nodes) }
    requires distinct { AreDistinct (map (λ e. e.id) (nodes_view nodes)) }
    requires read { IsRead nodes }
    ensures value { Gives (λ f. f) result (steps.finish variables stated (nodes_view nodes)) }
    ensures variables { IfOk result (λ f. f.variables ≡ variables) }
{
    let id_table = nodes.id_table;
    let entries = id_table.entries;
    let found = entries.len() as u64;
    if stated != found {
        return Err(SddFault::CountDiffers { stated, found });
    }
    if found == 0 {
        return Err(SddFault::Empty);
    }
    Ok(SddFile {
        variables,
        entries,
        pairs: nodes.pairs,
    })
}
