//! The vtree of a text.

ghost use Rattle.std.specs.Prelude.{◌≡◌, ◌≤◌, length, Ok, Err, IfOk, IfErr};
ghost use Rattle.sd_base.specs.Lines.{content_of};
ghost use Rattle.sd_base.specs.Views.{line_view, content_left};
ghost use Rattle.sd_model.specs.Seen.{tree_of};
ghost use Rattle.sd_model.specs.Tree.{leaves};
ghost use Rattle.sd_vtree.specs.Numbered.{IsNumbered, plain_tree};
ghost use Rattle.sd_vfile.specs.Reads as texts;
ghost use Rattle.sd_vfile.specs.Steps as steps;
ghost use Rattle.sd_vfile.specs.Steps.{entries_of};
ghost use Rattle.sd_vfile.specs.Reads.{Fails, Gives, vtree_file, variables_stated, vtree_fault_text};

use crate::fault::VtreeFault;
use crate::form::Form;
use crate::nodes::read_nodes;
use crate::whole::whole_tree;
use sd_base::{ContentLines, Line, natural};
use sd_model::Tree;
use sd_vtree::Vtree;
use std::alloc::Global;

/// The vtree over the variables 1 to `variables` that a text stands for, or the text's first fault.
///
/// There are 1 to 1,024 variables, and the text has at most 67,108,864 bytes. The first line that
/// counts is `vtree N`, and each of the N others is `L id variable` or `I id left right`, where the
/// children are ids of earlier lines. Blank lines and lines that begin with `c` do not count. The
/// tree is the one of the root, the node that is no child. Any text may answer `OutOfMemory`.
pub fn read_vtree(alloc: Global, bytes: &[u8], variables: u32) -> Result<Vtree, VtreeFault>
    requires at_least_one { 1 ≤ variables }
    requires within_limit { variables ≤ 1024 }
    requires fits { length bytes.now ≤ 67108864 }
    ensures ok { IfOk result (λ t. vtree_file variables bytes.now ≡ Ok (plain_tree t)) }
    ensures fault { IfErr result (λ e. Fails e (vtree_file variables bytes.now)) }
    ensures leaves { IfOk result (λ t. leaves (plain_tree t) ≡ variables) }
    ensures numbered { IfOk result IsNumbered }
{
    let whole = read_whole(alloc, bytes, variables)?;
    let vtree = Vtree::of_tree(alloc, &whole.tree)?;
    Ok(vtree)
}

/// The number of variables, 1 to 1,024, of the vtree that a text's header announces, or the header's first fault. A
/// vtree over V variables has 2V - 1 nodes. The lines behind the header are not read. The text has at most 67,108,864
/// bytes. It takes no memory.
#[tactic(auto, unfolding(crate::specs::Reads::variables_stated))]
pub fn count_variables(bytes: &[u8]) -> Result<u32, VtreeFault>
    requires { length bytes.now ≤ 67108864 }
    ensures ok { IfOk result (λ v. variables_stated bytes.now ≡ Ok v) }
    ensures range { IfOk result (λ v. (1 ≤ v) × (v ≤ 1024)) }
    ensures fault { IfErr result (λ e. variables_stated bytes.now ≡ Err (vtree_fault_text e)) }
{
    let found = nodes_stated(bytes)?;
    if found % 2 == 0 || found > 2047 {
        return Err(VtreeFault::NodesRange { found });
    }
    Ok((found as u32 + 1) / 2)
}

/// The number of nodes that the header of a text states.
fn nodes_stated(bytes: &[u8]) -> Result<u64, VtreeFault>
    requires { length bytes.now ≤ 67108864 }
    ensures ok { IfOk result (λ n. texts.nodes_stated (content_of 99 bytes.now) ≡ Ok n) }
    ensures fault { IfErr result (λ e.
        texts.nodes_stated (content_of 99 bytes.now) ≡ Err (vtree_fault_text e)) }
{
    let header = content(bytes).next().ok_or(VtreeFault::NoHeader)?;
    stated_by(&header).ok_or(VtreeFault::NoHeader)
}

/// The lines of a text that count.
fn content(bytes: &[u8]) -> ContentLines<'_>
    requires { length bytes.now ≤ 67108864 }
    ensures { content_left result ≡ content_of 99 bytes.now }
{
    ContentLines::new(bytes, b'c')
}

/// What a text has: its node lines, and the tree of them.
#[derive(Drop)]
pub(crate) struct Whole {
    pub(crate) forms: Vec<Form>,
    pub(crate) tree: Tree,
}

/// The node lines of a text, with their tree.
#[tactic(auto, using(crate::proofs::ByLines::vtree_file_is))]
pub(crate) fn read_whole(alloc: Global, bytes: &[u8], variables: u32) -> Result<Whole, VtreeFault>
    requires within_limit { variables ≤ 1024 }
    requires fits { length bytes.now ≤ 67108864 }
    ensures tree { Gives (λ whole. tree_of whole.tree) result (vtree_file variables bytes.now) }
    ensures lines { IfOk result (λ whole.
        texts.node_lines variables bytes.now ≡ Ok (entries_of whole.forms.items)) }
{
    let mut lines = content(bytes);
    let Some(header) = lines.next() else {
        return Err(VtreeFault::NoHeader);
    };
    let Some(stated) = stated_by(&header) else {
        return Err(VtreeFault::NoHeader);
    };
    let forms = read_nodes(alloc, variables, lines)?;
    let tree = whole_tree(alloc, variables, stated, &forms)?;
    Ok(Whole { forms, tree })
}

/// The number of node lines that a header states.
fn stated_by(line: &Line<'_>) -> Option<u64>
    ensures { result ≡ steps.stated_by (line_view line.now).words }
{
    let mut words = line.words();
    if words.next() != Some(b"vtree") {
        return None;
    }
    let number = natural(words.next()?)?;
    if words.next().is_some() {
        return None;
    }
    Some(number)
}
