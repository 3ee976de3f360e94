//! The tree of all node lines.

ghost use Rattle.std.specs.Prelude.{◌≡◌, ◌<◌, ◌≤◌, length, true, IfOk};
ghost use Rattle.sd_model.specs.Seen.{tree_of};
ghost use Rattle.sd_model.specs.Tree.{Node};
ghost use Rattle.sd_vfile.specs.Reads as texts;
ghost use Rattle.sd_vfile.specs.Steps as steps;
ghost use Rattle.sd_vfile.specs.Reads.{Gives, roots_of};
ghost use Rattle.sd_vfile.specs.Steps.{entries_of, entry_tree, tree_with, AreWellFormed};

use crate::fault::VtreeFault;
use crate::form::Form;
use crate::nodes::{has_leaf, is_child};
use sd_model::Tree;
use std::alloc::{AllocError, Global};

/// The tree of all node lines, where the header states a number of them.
#[tactic(auto, using(crate::proofs::Places::counted))]
pub(crate) fn whole_tree(
    alloc: Global,
    variables: u32,
    stated: u64,
    forms: &[Form],
) -> Result<Tree, VtreeFault>
    requires within_limit { variables ≤ 1024 }
    requires well_formed { AreWellFormed 1024 (entries_of forms.now) }
    ensures { Gives tree_of result (steps.whole_tree variables stated (entries_of forms.now)) }
{
    let found = forms.len() as u64;
    if stated != found {
        return Err(VtreeFault::CountDiffers { stated, found });
    }
    let root = root_of(forms)?;
    none_missing(variables, forms)?;
    let tree = tree_at(alloc, forms, root)?;
    Ok(tree)
}

/// The index of the root, where there is one root.
fn root_of(forms: &[Form]) -> Result<usize, VtreeFault>
    ensures root { Gives (λ index. entry_tree (entries_of forms.now) index) result
        (texts.one_root (roots_of (entries_of forms.now))) }
    ensures within { IfOk result (λ index. index < length forms.now) }
{
    let mut roots = 0;
    let mut root = 0;
    for (index, form) in forms.iter().enumerate() {
        if !is_child(forms, form.id()) {
            roots += 1;
            root = index;
        }
    }
    if roots == 1 {
        Ok(root)
    } else {
        Err(VtreeFault::NotOneRoot { roots })
    }
}

/// Tests that each variable has a leaf.
fn none_missing(variables: u32, forms: &[Form]) -> Result<(), VtreeFault>
    requires { variables ≤ 1024 }
    ensures { Gives (λ u. u) result
        (texts.none_missing (texts.missing variables (entries_of forms.now))) }
{
    for variable in 1..variables + 1 {
        if !has_leaf(forms, u64::from(variable)) {
            return Err(VtreeFault::VariableMissing { variable });
        }
    }
    Ok(())
}

/// The tree at an index.
fn tree_at(alloc: Global, forms: &[Form], index: usize) -> Result<Tree, AllocError>
    requires well_formed { AreWellFormed 1024 (entries_of forms.now) }
    requires within { index < length forms.now }
    ensures { IfOk result (λ t. tree_of t ≡ entry_tree (entries_of forms.now) index) }
{
    match forms[index] {
        Form::LeafLine { variable, .. } => Ok(Tree::Leaf(variable as u32)),
        Form::InnerLine { left, right, .. } => {
            let earlier = &forms[..index];
            let left = tree_at(alloc, forms, index_of(earlier, left))?;
            let right = tree_at(alloc, forms, index_of(earlier, right))?;
            node_over(alloc, left, right)
        }
    }
}

/// The index of the line with an id.
fn index_of(forms: &[Form], id: u64) -> usize
    requires { texts.has_id id (entries_of forms.now) ≡ true }
    ensures within { result < length forms.now }
    ensures tree { entry_tree (entries_of forms.now) result ≡ tree_with id (entries_of forms.now) }
{
    let mut index = 0;
    while forms[index].id() != id {
        index += 1;
    }
    index
}

/// A node over two trees.
fn node_over(alloc: Global, left: Tree, right: Tree) -> Result<Tree, AllocError>
    ensures { IfOk result (λ t. tree_of t ≡ Node (tree_of left) (tree_of right)) }
{
    let left = Box::new(alloc, left)?;
    let right = Box::new(alloc, right)?;
    Ok(Tree::Node(left, right))
}
