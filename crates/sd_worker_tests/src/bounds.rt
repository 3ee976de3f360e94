// A formula in parts within arenas of each small bound, and the choice of a start within each small limit, by one
// worker and by sixteen.
use crate::opening::{CROSSED, DISJOINT, formula};
use sd_cache::Cache;
use sd_compile::CompileError;
use sd_formula::{Formula, Kind};
use sd_manager::Manager;
use sd_parts::{Open, join_parts, parts, run_tasks};
use sd_starts::{Settings, Start, choose_start};
use sd_sweep::size;
use sd_vtree::Vtree;
use std::alloc::{AllocError, Global};
use std::test::Fail;
use std::thread::Threads;

// The size of a formula on the balanced vtree, in two parts, where the arena of each part and that of the join have at
// most so many elements; or why there is none.
fn size_in_two<R: Threads + Sync>(
    rt: &R,
    alloc: Global,
    f: &Formula,
    bound: u32,
    workers: u32,
) -> Result<Result<u32, CompileError>, AllocError> {
    let vtree = Vtree::balanced(alloc, f.variables())?;
    if vtree.variables() != f.variables() || bound > 40 {
        return Ok(Err(CompileError::OutOfMemory));
    }
    let mut gates = Vec::new(alloc);
    gates.push(Open)?;
    gates.push(Open)?;
    let tree = vtree.tree(alloc)?;
    let tasks = parts(alloc, f, &tree, bound, 1000, gates)?;
    let answers = run_tasks(rt, alloc, tasks, workers.clamp(1, 16))?;
    let mut m = Manager::new(alloc, vtree, bound)?;
    let mut c = Cache::new(alloc)?;
    match join_parts(alloc, &mut m, &mut c, f, &answers, 1000) {
        Ok(root) => {
            let total = size(&mut m);
            m.release(root);
            Ok(Ok(total))
        }
        Err(error) => Ok(Err(error)),
    }
}

// Whether an arena of at most so many elements lacked room.
fn lacks_room(answer: Result<u32, CompileError>, bound: u32) -> bool {
    match answer {
        Err(CompileError::ArenaFull { elements }) => elements > u64::from(bound),
        _ => false,
    }
}

// The least bound within which a formula is compiled, and its size there, if within each lesser one room is lacking,
// within each greater one up to 40 the size is the same, and sixteen workers come to what one comes to.
fn least_bound<R: Threads + Sync>(
    rt: &R,
    alloc: Global,
    f: &Formula,
) -> Result<Option<(u32, u32)>, AllocError> {
    let mut least = None;
    for bound in 0..41 {
        let one = size_in_two(rt, alloc, f, bound, 1)?;
        let more = size_in_two(rt, alloc, f, bound, 16)?;
        if one != more {
            return Ok(None);
        }
        match least {
            Some((_, size)) => {
                if one != Ok(size) {
                    return Ok(None);
                }
            }
            None => match one {
                Ok(size) => least = Some((bound, size)),
                Err(_) => {
                    if !lacks_room(one, bound) {
                        return Ok(None);
                    }
                }
            },
        }
    }
    Ok(least)
}

/// The diagram of `(1 and 2) or (3 and 4)` has four decompositions of two elements each, and the parts are two of them,
/// so its size is all that the join needs. That of `(1 and 3) or (2 and 4)` has 14 elements, and none are those of the
/// parts, which have two each and are in use until it is made.
#[test]
fn parts_are_joined_where_there_is_room(rt: HostRuntime) -> Result<(), Fail> {
    let disjoint = formula(rt.alloc(), Kind::Dnf, DISJOINT)?;
    let crossed = formula(rt.alloc(), Kind::Dnf, CROSSED)?;
    let first = least_bound(&rt, rt.alloc(), &disjoint)?;
    let second = least_bound(&rt, rt.alloc(), &crossed)?;
    assert_eq!(rt; [first, second], [Some((8, 8)), Some((18, 14))]);
    Ok(())
}

// The start that is chosen within a limit and the size there, or the size that passes it.
fn chosen<R: Threads + Sync>(
    rt: &R,
    alloc: Global,
    f: &Formula,
    limit: u32,
    workers: u32,
) -> Result<(Start, u32), CompileError> {
    let settings = Settings {
        limit,
        slack: 200,
        rounds: None,
    };
    match choose_start(
        rt,
        alloc,
        f,
        settings,
        workers.clamp(1, 16),
        [Open, Open, Open],
    ) {
        Ok(chosen) => Ok((chosen.start, chosen.size)),
        Err(refused) => Err(refused.error),
    }
}

// The least limit within which a start is chosen, with the start and the size there, if each lesser one is passed, the
// choice is the same within each greater one up to 40, and sixteen workers come to what one comes to.
fn least_limit<R: Threads + Sync>(rt: &R, alloc: Global, f: &Formula) -> Option<(u32, Start, u32)> {
    let mut least = None;
    for limit in 0..41 {
        let one = chosen(rt, alloc, f, limit, 1);
        if one != chosen(rt, alloc, f, limit, 16) {
            return None;
        }
        match least {
            Some((_, start, size)) => {
                if one != Ok((start, size)) {
                    return None;
                }
            }
            None => match one {
                Ok((start, size)) => least = Some((limit, start, size)),
                Err(error) => {
                    if !passes(error, limit) {
                        return None;
                    }
                }
            },
        }
    }
    least
}

// Whether a size passes this limit.
fn passes(error: CompileError, limit: u32) -> bool {
    match error {
        CompileError::OverLimit {
            size,
            limit: most,
            ..
        } => most == limit && size > limit,
        _ => false,
    }
}

/// The right tree gives the least size of both formulas, 6 and 8, and no prefix of them has a greater one.
#[test]
fn a_start_is_chosen_where_its_size_is_within(rt: HostRuntime) -> Result<(), Fail> {
    let disjoint = formula(rt.alloc(), Kind::Dnf, DISJOINT)?;
    let crossed = formula(rt.alloc(), Kind::Dnf, CROSSED)?;
    let first = least_limit(&rt, rt.alloc(), &disjoint);
    let second = least_limit(&rt, rt.alloc(), &crossed);
    let right = Start::Right;
    assert_eq!(rt; [first, second], [Some((6, right, 6)), Some((8, right, 8))]);
    Ok(())
}
