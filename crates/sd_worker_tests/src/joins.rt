// Parts of a formula as tasks, what refuses each of them alone, and their join within a limit.
use crate::inputs::{DISJOINT, formula, open_gates};
use sd_cache::Cache;
use sd_compile::CompileError;
use sd_formula::{Formula, Kind};
use sd_manager::Manager;
use sd_parts::{Open, join_parts, parts, run_tasks};
use sd_sweep::size;
use sd_vtree::Vtree;
use std::alloc::{AllocError, Global};
use std::test::Fail;
use std::thread::Threads;

// The refusals of the parts of a formula on the balanced vtree, as many as there are gates, 1 to 64, in order, by so
// many workers.
fn refusals<R: Threads + Sync>(
    rt: &R,
    alloc: Global,
    f: &Formula,
    gates: Vec<Open>,
    limit: u32,
    workers: u32,
) -> Result<Vec<Option<CompileError>>, AllocError> {
    let mut refused = Vec::new(alloc);
    if gates.is_empty() || gates.len() > 64 {
        return Ok(refused);
    }
    let vtree = Vtree::balanced(alloc, f.variables())?;
    if vtree.variables() != f.variables() {
        return Ok(refused);
    }
    let tree = vtree.tree(alloc)?;
    let tasks = parts(alloc, f, &tree, 1_000_000, limit, gates)?;
    for answer in run_tasks(rt, alloc, tasks, workers.clamp(1, 16))? {
        refused.push(answer.outcome.err())?;
    }
    Ok(refused)
}

// A refusal at this group, whose prefix has this size.
fn over(group: u32, size: u32, limit: u32) -> CompileError {
    CompileError::OverLimit { group, size, limit }
}

// Whether one worker, two, three and sixteen have these refusals of the two parts of a formula.
fn are_refused<R: Threads + Sync>(
    rt: &R,
    alloc: Global,
    f: &Formula,
    limit: u32,
    expected: [Option<CompileError>; 2],
) -> Result<bool, AllocError> {
    for workers in [1, 2, 3, 16] {
        let refused = refusals(rt, alloc, f, open_gates(alloc, 2)?, limit, workers)?;
        if refused.as_slice() != expected.as_slice() {
            return Ok(false);
        }
    }
    Ok(true)
}

/// Each part has the size 2: it is refused alone within 1, by the number of its group, and kept within 2.
#[test]
fn each_part_is_refused_alone_by_the_number_of_its_group(rt: HostRuntime) -> Result<(), Fail> {
    let f = formula(rt.alloc(), Kind::Dnf, DISJOINT)?;
    let both = [Some(over(1, 2, 1)), Some(over(2, 2, 1))];
    let refused = are_refused(&rt, rt.alloc(), &f, 1, both)?;
    let kept = are_refused(&rt, rt.alloc(), &f, 2, [None, None])?;
    assert!(rt; refused && kept);
    Ok(())
}

// The size of a formula on the balanced vtree and the code of its node, compiled in as many parts as there are gates, 1
// to 64, within a limit, where the arena of each part and that of the join have at most so many elements; or why there
// is none.
fn joined<R: Threads + Sync>(
    rt: &R,
    alloc: Global,
    f: &Formula,
    gates: Vec<Open>,
    bound: u32,
    limit: u32,
    workers: u32,
) -> Result<Result<(u32, u32), CompileError>, AllocError> {
    if gates.is_empty() || gates.len() > 64 {
        return Ok(Err(CompileError::OutOfMemory));
    }
    let vtree = Vtree::balanced(alloc, f.variables())?;
    if vtree.variables() != f.variables() {
        return Ok(Err(CompileError::OutOfMemory));
    }
    let most = bound.min(1_000_000);
    let tree = vtree.tree(alloc)?;
    let tasks = parts(alloc, f, &tree, most, limit, gates)?;
    let answers = run_tasks(rt, alloc, tasks, workers.clamp(1, 16))?;
    let mut m = Manager::new(alloc, vtree, most)?;
    let mut c = Cache::new(alloc)?;
    match join_parts(alloc, &mut m, &mut c, f, &answers, limit) {
        Ok(root) => {
            let code = m.node_of(&root).0;
            let total = size(&mut m);
            m.release(root);
            Ok(Ok((total, code)))
        }
        Err(error) => Ok(Err(error)),
    }
}

// The size alone, or why there is none.
pub(crate) fn size_in_parts<R: Threads + Sync>(
    rt: &R,
    alloc: Global,
    f: &Formula,
    gates: Vec<Open>,
    bound: u32,
    limit: u32,
    workers: u32,
) -> Result<Result<u32, CompileError>, AllocError> {
    Ok(match joined(rt, alloc, f, gates, bound, limit, workers)? {
        Ok((size, _)) => Ok(size),
        Err(error) => Err(error),
    })
}

// Whether one worker, two and sixteen come to this size, or this refusal, with so many parts.
fn are_joined<R: Threads + Sync>(
    rt: &R,
    alloc: Global,
    f: &Formula,
    count: u32,
    limit: u32,
    expected: Result<u32, CompileError>,
) -> Result<bool, AllocError> {
    for workers in [1, 2, 16] {
        let gates = open_gates(alloc, count)?;
        if size_in_parts(rt, alloc, f, gates, 1_000_000, limit, workers)? != expected {
            return Ok(false);
        }
    }
    Ok(true)
}

// Whether the size is 8 within 8, with one part, two, three and 64.
fn are_eight<R: Threads + Sync>(rt: &R, alloc: Global, f: &Formula) -> Result<bool, AllocError> {
    for count in [1, 2, 3, 64] {
        if !are_joined(rt, alloc, f, count, 8, Ok(8))? {
            return Ok(false);
        }
    }
    Ok(true)
}

/// Within 7 the join of two parts is refused at the last group, and within 1 the first part.
#[test]
fn parts_are_joined_within_the_limit(rt: HostRuntime) -> Result<(), Fail> {
    let f = formula(rt.alloc(), Kind::Dnf, DISJOINT)?;
    let within = are_eight(&rt, rt.alloc(), &f)?;
    let join = are_joined(&rt, rt.alloc(), &f, 2, 7, Err(over(2, 8, 7)))?;
    let part = are_joined(&rt, rt.alloc(), &f, 2, 1, Err(over(1, 2, 1)))?;
    assert!(rt; within && join && part);
    Ok(())
}

// Whether a formula without groups has the node of this code in one part and in two, by two workers, in arenas without
// room for an element.
fn is_constant<R: Threads + Sync>(
    rt: &R,
    alloc: Global,
    kind: Kind,
    code: u32,
) -> Result<bool, AllocError> {
    let f = Formula::empty(alloc, kind, 4);
    for count in [1, 2] {
        let gates = open_gates(alloc, count)?;
        if joined(rt, alloc, &f, gates, 0, 1, 2)? != Ok((0, code)) {
            return Ok(false);
        }
    }
    Ok(true)
}

/// Constants leave their manager as records, and need no room where they are read.
#[test]
fn constants_that_leave(rt: HostRuntime) -> Result<(), AllocError> {
    let no = is_constant(&rt, rt.alloc(), Kind::Dnf, 0)?;
    let yes = is_constant(&rt, rt.alloc(), Kind::Cnf, 1)?;
    assert!(rt; no && yes);
    Ok(())
}
