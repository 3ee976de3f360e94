//! The node lines of a text, each tested against the earlier ones.

ghost use Rattle.std.specs.Prelude.{◌≡◌, ℕ, [], ok_or};
ghost use Rattle.sd_base.specs.Reading.{each_after, read_more};
ghost use Rattle.sd_base.specs.Views.{line_view, content_left};
ghost use Rattle.sd_vfile.specs.Reads as texts;
ghost use Rattle.sd_vfile.specs.Reads.{Gives};
ghost use Rattle.sd_vfile.specs.Steps.{entries_of, entry_after, tree_with};
ghost use Rattle.sd_vfile.specs.declared.form.Form.TheVariants.{LeafLine, InnerLine};

use crate::fault::VtreeFault;
use crate::form::{Form, form_of};
use sd_base::{ContentLines, Line};
use std::alloc::Global;

/// The node lines of a text that has no fault up to its last line.
#[tactic(auto, unfolding(crate::specs::Steps::entries_of))]
pub(crate) fn read_nodes(
    alloc: Global,
    variables: u32,
    lines: ContentLines<'_>,
) -> Result<Vec<Form>, VtreeFault>
    ensures { Gives (λ forms. entries_of forms.items) result
        (each_after (texts.entry_of variables) [] (content_left lines.entry)) }
{
    let mut forms = Vec::new(alloc);
    for line in lines {
        read_line(&mut forms, variables, &line)?;
    }
    Ok(forms)
}

/// Puts one more node line behind the others.
#[tactic(auto, using(crate::proofs::Growing::pushed))]
fn read_line(forms: &mut Vec<Form>, variables: u32, line: &Line<'_>) -> Result<(), VtreeFault>
    ensures { Gives (λ _. entries_of forms.new.items) result
        (read_more (texts.entry_of variables) (entries_of forms.old.items) (line_view line.now)) }
{
    let number = line.number;
    let form = form_of(line).ok_or(VtreeFault::BadLine { line: number })?;
    check(forms, variables, number, form)?;
    forms.push(form)?;
    Ok(())
}

/// Tests a node line against the earlier ones.
fn check(forms: &[Form], variables: u32, line: u32, form: Form) -> Result<(), VtreeFault>
    ensures { Gives (λ _. entry_after (entries_of forms.now) form) result
        (texts.form_placed variables (entries_of forms.now) line form) }
{
    match form {
        Form::LeafLine { id, variable } => check_leaf(forms, variables, line, id, variable),
        Form::InnerLine { id, left, right } => check_inner(forms, line, id, left, right),
    }
}

/// Tests a leaf.
fn check_leaf(
    forms: &[Form],
    variables: u32,
    line: u32,
    id: u64,
    variable: u64,
) -> Result<(), VtreeFault>
    ensures { Gives (λ _. entry_after (entries_of forms.now) (LeafLine id variable)) result
        (texts.form_placed variables (entries_of forms.now) line (LeafLine id variable)) }
{
    if has_id(forms, id) {
        return Err(VtreeFault::IdTwice { line });
    }
    if variable < 1 || variable > u64::from(variables) || has_leaf(forms, variable) {
        return Err(VtreeFault::VariableWrong { line });
    }
    Ok(())
}

/// Tests an internal node.
fn check_inner(forms: &[Form], line: u32, id: u64, left: u64, right: u64) -> Result<(), VtreeFault>
    ensures { (v : ℕ)
        → Gives (λ _. entry_after (entries_of forms.now) (InnerLine id left right)) result
        (texts.form_placed v (entries_of forms.now) line (InnerLine id left right)) }
{
    if has_id(forms, id) {
        return Err(VtreeFault::IdTwice { line });
    }
    check_child(forms, line, left)?;
    check_child(forms, line, right)?;
    if left == right || is_child(forms, left) || is_child(forms, right) {
        return Err(VtreeFault::ChildTwice { line });
    }
    Ok(())
}

/// Tests that a child stands on an earlier line.
#[tactic(auto, using(crate::proofs::Growing::tree_found))]
fn check_child(forms: &[Form], line: u32, id: u64) -> Result<(), VtreeFault>
    ensures { Gives (λ _. tree_with id (entries_of forms.now)) result
        (ok_or (texts.tree_with_id id (entries_of forms.now))
        (texts.vtree_fault_text (VtreeFault.ChildUnknown line))) }
{
    if !has_id(forms, id) {
        return Err(VtreeFault::ChildUnknown { line });
    }
    Ok(())
}

/// Whether a line has the id.
pub(crate) fn has_id(forms: &[Form], id: u64) -> bool
    ensures { result ≡ texts.has_id id (entries_of forms.now) }
{
    for form in forms {
        if form.id() == id {
            return true;
        }
    }
    false
}

/// Whether a line has the id as that of a child.
pub(crate) fn is_child(forms: &[Form], id: u64) -> bool
    ensures { result ≡ texts.is_child id (entries_of forms.now) }
{
    for form in forms {
        if form.has_child(id) {
            return true;
        }
    }
    false
}

/// Whether a line is the leaf of the variable.
pub(crate) fn has_leaf(forms: &[Form], variable: u64) -> bool
    ensures { result ≡ texts.has_leaf variable (entries_of forms.now) }
{
    for form in forms {
        if form.is_leaf_of(variable) {
            return true;
        }
    }
    false
}
