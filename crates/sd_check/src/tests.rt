// The verdicts on files over two and three variables, and in an arena without room.
use crate::checker::check;
use crate::rules::{Rule, Verdict};
use sd_cache::Cache;
use sd_file::{SddFile, read_sdd};
use sd_manager::Manager;
use sd_runs::TakeError;
use sd_vfile::{Ids, read_ids, read_vtree};
use sd_vtree::Vtree;
use std::alloc::Global;
use std::test::Fail;

/// The vtree over the variables 1 and 2, with the ids of its nodes by position.
const TWO: &str = "vtree 3\nL 0 1\nL 2 2\nI 1 0 2\n";

/// The vtree over the variables 1 to 3 in which the first two stand together.
const THREE: &str = "vtree 5\nL 0 1\nL 2 2\nI 1 0 2\nL 4 3\nI 3 1 4\n";

// The ids of a short vtree text.
pub(crate) fn ids_of(alloc: Global, bytes: &[u8], variables: u32) -> Option<Ids> {
    if variables < 1 || variables > 1024 || bytes.len() > 1000 {
        return None;
    }
    read_ids(alloc, bytes, variables).ok()
}

// The vtree of a short text.
pub(crate) fn vtree_of(alloc: Global, bytes: &[u8], variables: u32) -> Option<Vtree> {
    if variables < 1 || variables > 1024 || bytes.len() > 1000 {
        return None;
    }
    read_vtree(alloc, bytes, variables).ok()
}

// The file of a text that is not too long.
pub(crate) fn file_of(alloc: Global, bytes: &[u8], variables: u32) -> Option<SddFile> {
    if variables < 1 || variables > 1024 || bytes.len() > 1_000_000 {
        return None;
    }
    read_sdd(alloc, bytes, variables).ok()
}

// The verdict on a file, in a new manager of a vtree with room for so many elements.
#[tactic(auto, using(sd_apply::proofs::Tried::empty_serves))]
pub(crate) fn verdict_on(
    alloc: Global,
    file: &SddFile,
    ids: &Ids,
    vtree: Vtree,
    bound: u32,
) -> Result<Verdict, TakeError> {
    if vtree.variables() != file.variables() {
        return Err(TakeError::OutOfMemory);
    }
    let mut m = Manager::new(alloc, vtree, bound.min(1_000_000))?;
    let mut c = Cache::new(alloc)?;
    check(alloc, &mut m, &mut c, file, ids)
}

// The verdict on a text over two variables.
fn of_two(alloc: Global, text: &str, bound: u32) -> Option<Result<Verdict, TakeError>> {
    let ids = ids_of(alloc, TWO.as_bytes(), 2)?;
    let file = file_of(alloc, text.as_bytes(), 2)?;
    let vtree = Vtree::balanced(alloc, 2).ok()?;
    Some(verdict_on(alloc, &file, &ids, vtree, bound))
}

// The answer that a node breaks a rule.
fn no(node: u32, rule: Rule) -> Option<Result<Verdict, TakeError>> {
    Some(Ok(Verdict::No { node, rule }))
}

// The verdict on a text over three variables.
fn of_three(alloc: Global, text: &str) -> Option<Result<Verdict, TakeError>> {
    let ids = ids_of(alloc, THREE.as_bytes(), 3)?;
    let file = file_of(alloc, text.as_bytes(), 3)?;
    let vtree = vtree_of(alloc, THREE.as_bytes(), 3)?;
    Some(verdict_on(alloc, &file, &ids, vtree, 1000))
}

/// The conjunction of the negated first variable and the second, and the same with its elements in another order. An
/// arena of one element has no room for it.
#[test]
fn canonical_files(rt: HostRuntime) {
    let yes = Some(Ok(Verdict::Yes));
    let text = "sdd 5\nL 0 0 -1\nL 1 2 2\nL 2 0 1\nT 3\nD 4 1 2 0 1 2 3\n";
    assert_eq!(rt; of_two(rt.alloc(), text, 1000), yes);
    let turned = "sdd 5\nL 0 0 -1\nL 1 2 2\nL 2 0 1\nT 3\nD 4 1 2 2 3 0 1\n";
    assert_eq!(rt; of_two(rt.alloc(), turned, 1000), yes);
    let full = Some(Err(TakeError::ArenaFull { elements: 2 }));
    assert_eq!(rt; of_two(rt.alloc(), text, 1), full);
}

/// One file for each rule that a node over two variables may break, and one node behind another that breaks a rule.
#[test]
fn broken_rules(rt: HostRuntime) {
    let rows = [
        (
            "c made elsewhere\nsdd 4\nL 0 9 1\nL 1 9 -1\nL 3 7 2\nD 2 8 2 0 3 1 3\n",
            0,
            Rule::Vtree,
        ),
        ("sdd 1\nL 0 2 1\n", 0, Rule::Vtree),
        ("sdd 3\nL 0 0 1\nL 1 2 2\nD 2 2 1 0 1\n", 2, Rule::Vtree),
        ("sdd 3\nL 0 0 1\nL 1 2 2\nD 2 1 1 1 0\n", 2, Rule::Prime),
        ("sdd 3\nT 0\nL 1 2 2\nD 2 1 1 0 1\n", 2, Rule::Prime),
        ("sdd 2\nL 0 0 1\nD 1 1 1 0 0\n", 1, Rule::Sub),
        ("sdd 3\nL 0 0 1\nL 1 2 2\nD 2 1 1 0 1\n", 2, Rule::Count),
        (
            "sdd 4\nL 0 0 1\nL 1 2 2\nT 2\nD 3 1 2 0 1 0 2\n",
            3,
            Rule::Overlap,
        ),
        (
            "sdd 4\nL 0 0 1\nL 1 0 -1\nL 2 2 2\nD 3 1 2 0 2 1 2\n",
            3,
            Rule::Subs,
        ),
        (
            "sdd 5\nL 0 0 1\nL 1 0 -1\nT 2\nF 3\nD 4 1 2 0 2 1 3\n",
            4,
            Rule::Trim,
        ),
        (
            "sdd 4\nL 0 0 1\nL 1 2 2\nD 2 1 1 0 1\nL 3 0 2\n",
            2,
            Rule::Count,
        ),
    ];
    for (text, node, rule) in rows {
        assert_eq!(rt; of_two(rt.alloc(), text, 1000), no(node, rule));
    }
}

/// No prime of the last node is true where the second variable is false.
#[test]
fn primes_that_do_not_cover(rt: HostRuntime) {
    let text =
        "sdd 9\nL 0 0 -1\nF 1\nL 2 0 1\nL 3 2 2\nD 4 1 2 0 1 2 3\nD 5 1 2 2 1 0 3\nL 6 4 3\nT 7\nD 8 3 2 4 6 5 7\n";
    assert_eq!(rt; of_three(rt.alloc(), text), no(8, Rule::Cover));
}
