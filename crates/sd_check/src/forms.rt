//! The rules that ask for no value: where the node and its children stand, and how many elements there are.

ghost use Rattle.std.specs.Prelude.{◌≡◌, ℕ, ◌+◌, ◌<◌, ◌≤◌, ◌||◌, not, length, slice_get, Some, option_map};
ghost use Rattle.std.specs.FinMap.{get};
ghost use Rattle.std.specs.List.{list_any, list_all};
ghost use Rattle.sd_model.specs.Tree.{Tree, leaves};
ghost use Rattle.sd_file.specs.Files.{entry_pairs};
ghost use Rattle.sd_check.specs.Forks.{AreForks, inner_view};
ghost use Rattle.sd_check.specs.Judging.{FindsPlace};
ghost use Rattle.sd_check.specs.Rules as rules;
ghost use Rattle.sd_check.specs.Rules.{inner_named, node_at, is_constant_node};

use crate::forks::Fork;
use crate::rules::Rule;
use sd_file::{FileNode, SddFile};
use sd_vfile::Ids;

/// The position of a decomposition's vtree node, or the first of the rules before those on values that it breaks.
pub(crate) fn place_of(
    file: &SddFile,
    ids: &Ids,
    forks: &[Option<Fork>],
    index: u32,
    vtree: u64,
    count: u32,
) -> Result<u32, Rule>
    requires index { index < length file.now.nodes }
    requires count { count ≡ length (entry_pairs file.now index) }
    requires forks { (t : Tree) × (leaves t ≤ 1024) × AreForks t forks.now }
    ensures { (t : Tree) → AreForks t forks.now
        → FindsPlace t (get ids.now) file.now index vtree result }
{
    let Some(fork) = fork_named(ids, forks, vtree) else {
        return Err(Rule::Vtree);
    };
    if has_prime_outside(file, ids, index, count, fork.first, fork.middle) {
        return Err(Rule::Prime);
    }
    if has_sub_outside(file, ids, index, count, fork.middle + 1, fork.end) {
        return Err(Rule::Sub);
    }
    if count == 1 {
        return Err(Rule::Count);
    }
    Ok(fork.middle)
}

/// The inner node that an id names.
fn fork_named(ids: &Ids, forks: &[Option<Fork>], vtree: u64) -> Option<Fork>
    ensures { (t : Tree) → AreForks t forks.now
        → option_map inner_view result ≡ inner_named t (get ids.now) vtree }
{
    let position = ids.position(vtree)?;
    let index = position as usize;
    if index < forks.len() {
        forks[index]
    } else {
        None
    }
}

/// Whether a node of the file is a literal or a decomposition that stands among positions.
fn stands_among(file: &SddFile, ids: &Ids, index: u32, first: u32, end: u32) -> bool
    requires { index < length file.now.nodes }
    ensures { result ≡ rules.stands_among (get ids.now) first end (node_at file.now index) }
{
    let vtree = match file.node(index) {
        FileNode::Constant(_) => return false,
        FileNode::Literal { vtree, .. } => vtree,
        FileNode::Decomposition { vtree, .. } => vtree,
    };
    match ids.position(vtree) {
        None => false,
        Some(position) => first <= position && position < end,
    }
}

/// Whether a node of the file is no constant.
fn is_inner(file: &SddFile, index: u32) -> bool
    requires { index < length file.now.nodes }
    ensures { result ≡ not (is_constant_node (node_at file.now index)) }
{
    match file.node(index) {
        FileNode::Constant(_) => false,
        FileNode::Literal { .. } => true,
        FileNode::Decomposition { .. } => true,
    }
}

/// Whether a prime stands outside these positions.
fn is_prime_outside(file: &SddFile, ids: &Ids, prime: u32, first: u32, end: u32) -> bool
    requires { prime < length file.now.nodes }
    ensures { result ≡ not (rules.stands_among (get ids.now) first end (node_at file.now prime)) }
{
    !stands_among(file, ids, prime, first, end)
}

/// Whether a sub is no constant and stands outside these positions.
fn is_sub_outside(file: &SddFile, ids: &Ids, sub: u32, first: u32, end: u32) -> bool
    requires { sub < length file.now.nodes }
    ensures { result ≡ not (is_constant_node (node_at file.now sub)
        || rules.stands_among (get ids.now) first end (node_at file.now sub)) }
{
    is_inner(file, sub) && !stands_among(file, ids, sub, first, end)
}

/// Whether some prime stands outside these positions.
fn has_prime_outside(
    file: &SddFile,
    ids: &Ids,
    index: u32,
    count: u32,
    first: u32,
    end: u32,
) -> bool
    requires index { index < length file.now.nodes }
    requires count { count ≡ length (entry_pairs file.now index) }
    ensures { result ≡ list_any (λ e. not (rules.stands_among (get ids.now) first end
        (node_at file.now e.0))) (entry_pairs file.now index) }
{
    for element in 0..count {
        let (prime, _) = file.pair(index, element);
        if is_prime_outside(file, ids, prime, first, end) {
            return true;
        }
    }
    false
}

/// Whether some sub is no constant and stands outside these positions.
fn has_sub_outside(file: &SddFile, ids: &Ids, index: u32, count: u32, first: u32, end: u32) -> bool
    requires index { index < length file.now.nodes }
    requires count { count ≡ length (entry_pairs file.now index) }
    ensures { result ≡ list_any (λ e. not (is_constant_node (node_at file.now e.1)
        || rules.stands_among (get ids.now) first end (node_at file.now e.1))) (entry_pairs file.now index) }
{
    for element in 0..count {
        let (_, sub) = file.pair(index, element);
        if is_sub_outside(file, ids, sub, first, end) {
            return true;
        }
    }
    false
}

/// Whether all subs of a decomposition are constants.
pub(crate) fn are_subs_constant(file: &SddFile, index: u32, count: u32) -> bool
    requires index { index < length file.now.nodes }
    requires count { count ≡ length (entry_pairs file.now index) }
    ensures { result ≡ list_all (λ e. is_constant_node (node_at file.now e.1))
        (entry_pairs file.now index) }
{
    for element in 0..count {
        let (_, sub) = file.pair(index, element);
        if is_inner(file, sub) {
            return false;
        }
    }
    true
}
