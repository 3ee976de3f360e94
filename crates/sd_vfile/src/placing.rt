//! The places of nodes in the tree of all node lines.

ghost use Rattle.std.specs.Prelude.{◌≡◌, ℕ, ◌+◌, ◌-◌, ◌*◌, ◌==◌, ◌≤◌, ◌++◌, length, Some, IfOk, OnOk, IsSome};
ghost use Rattle.std.specs.BTreeMap.{get};
ghost use Rattle.std.specs.List.{position_or_len};
ghost use Rattle.std.specs.Ordering.{nat_cmp};
ghost use Rattle.sd_model.specs.Seen.{tree_of};
ghost use Rattle.sd_model.specs.Tree.{variables, leaves, IsVtree};
ghost use Rattle.sd_vfile.specs.Placing.{AreParts, HoldsPlaces};
ghost use Rattle.sd_vfile.specs.declared.placing.Place.{Place};
ghost use Rattle.sd_vfile.specs.Steps.{entries_of, AreWellFormed};

use crate::form::Form;
use sd_model::Tree;
use std::alloc::{AllocError, Global};
use std::collections::BTreeMap;

/// Where a node stands in a vtree.
#[derive(Clone, Copy, Debug)]
pub(crate) struct Place {
    /// Its position.
    pub(crate) position: u32,
    /// Where the positions of the next subtree to the right begin.
    pub(crate) next: u32,
}

/// The place of each line's node in the tree of all lines, by the line's id.
pub(crate) fn places_of(
    alloc: Global,
    forms: &[Form],
    tree: &Tree,
) -> Result<BTreeMap<u64, Place>, AllocError>
    requires vtree { IsVtree (tree_of tree.now) }
    requires within_limit { leaves (tree_of tree.now) ≤ 1024 }
    requires well_formed { AreWellFormed 1024 (entries_of forms.now) }
    requires parts { AreParts (tree_of tree.now) (entries_of forms.now) }
    ensures { IfOk result (HoldsPlaces (tree_of tree.now) (entries_of forms.now)) }
{
    let mut order = Vec::new(alloc);
    push_variables(&mut order, tree)?;
    let mut places = BTreeMap::new(alloc);
    for form in forms {
        let place = match *form {
            Form::LeafLine { variable, .. } => leaf_place(&order, variable),
            Form::InnerLine { left, right, .. } => inner_place(&places, left, right),
        };
        places.insert(form.id(), place)?;
    }
    Ok(places)
}

/// Puts the variables of a tree behind others, from left to right.
fn push_variables(order: &mut Vec<u32>, tree: &Tree) -> Result<(), AllocError>
    ensures { OnOk result (order.new.items ≡ order.old.items ++ variables (tree_of tree.now)) }
{
    match tree {
        Tree::Leaf(variable) => order.push(*variable)?,
        Tree::Node(left, right) => {
            push_variables(order, left)?;
            push_variables(order, right)?;
        }
    }
    Ok(())
}

/// The place of a leaf, before which stand the variables that the order has before its own.
fn leaf_place(order: &[u32], variable: u64) -> Place
    requires { length order.now ≤ 1024 }
    ensures position { result.position ≡ 2 * position_or_len (λ x. x == variable) order.now }
    ensures next { result.next ≡ result.position + 2 }
{
    let mut before = 0;
    while before < order.len() && u64::from(order[before]) != variable {
        before += 1;
    }
    let position = 2 * before as u32;
    Place {
        position,
        next: position + 2,
    }
}

/// The place of a node whose children have these ids: it stands behind the left one.
fn inner_place(places: &BTreeMap<u64, Place>, left: u64, right: u64) -> Place
    requires left { IsSome (get nat_cmp places.now left) }
    requires right { IsSome (get nat_cmp places.now right) }
    requires positive { (l : Place) → get nat_cmp places.now left ≡ Some l → 1 ≤ l.next }
    ensures { (l r : Place) → get nat_cmp places.now left ≡ Some l →
        get nat_cmp places.now right ≡ Some r →
        (result.position ≡ l.next - 1) × (result.next ≡ r.next) }
{
    let left = places.get(&left).unwrap();
    let right = places.get(&right).unwrap();
    Place {
        position: left.next - 1,
        next: right.next,
    }
}
