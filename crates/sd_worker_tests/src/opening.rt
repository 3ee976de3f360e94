// An input by parts and the choice of a start, by several workers.
use sd_commands::{CommandError, Effect, RunState, input_by_parts, open_chosen};
use sd_formula::{Formula, Kind, read_dimacs};
use sd_parts::Open;
use sd_starts::Settings;
use sd_vtree::Vtree;
use std::alloc::{AllocError, Global};
use std::test::Fail;
use std::thread::Threads;

// The formula of a short text.
pub(crate) fn formula(alloc: Global, kind: Kind, text: &str) -> Result<Formula, Fail> {
    let bytes = text.as_bytes();
    if bytes.len() > 1000 {
        return Ok(read_dimacs(alloc, b"", kind)?);
    }
    Ok(read_dimacs(alloc, bytes, kind)?)
}

// So many gates that do nothing.
fn open_gates(alloc: Global, count: u32) -> Result<Vec<Open>, AllocError> {
    let mut gates = Vec::new(alloc);
    for _ in 0..count {
        gates.push(Open)?;
    }
    Ok(gates)
}

// The size of a formula on the balanced vtree within a limit, where it is the input of a run, in as many parts as there
// are gates, 1 to 64; or why there is none.
fn size_in_parts<R: Threads + Sync>(
    rt: &R,
    alloc: Global,
    f: &Formula,
    gates: Vec<Open>,
    limit: u32,
    workers: u32,
) -> Result<u32, CommandError> {
    let Ok(vtree) = Vtree::balanced(alloc, f.variables()) else {
        return Err(CommandError::OutOfMemory);
    };
    if vtree.variables() != f.variables() || gates.is_empty() || gates.len() > 64 {
        return Err(CommandError::NotMovable);
    }
    let Ok(mut state) = RunState::new(alloc, vtree, limit, 200, None, None) else {
        return Err(CommandError::OutOfMemory);
    };
    match input_by_parts(rt, alloc, f, &mut state, 0, workers.clamp(1, 16), gates) {
        Ok(()) => Ok(state.manager.total()),
        Err(refused) => Err(refused.error),
    }
}

// What one, two and three workers come to with so many parts.
fn by_workers<R: Threads + Sync>(
    rt: &R,
    alloc: Global,
    f: &Formula,
    count: u32,
    limit: u32,
) -> Result<[Result<u32, CommandError>; 3], AllocError> {
    Ok([
        size_in_parts(rt, alloc, f, open_gates(alloc, count)?, limit, 1),
        size_in_parts(rt, alloc, f, open_gates(alloc, count)?, limit, 2),
        size_in_parts(rt, alloc, f, open_gates(alloc, count)?, limit, 3),
    ])
}

pub(crate) const DISJOINT: &str = "p dnf 4 2\n1 2 0\n3 4 0\n";

/// `(1 and 2) or (3 and 4)` has the size 8 on the balanced vtree, whatever the parts and the workers.
#[test]
fn parts_have_the_size_of_the_whole(rt: HostRuntime) -> Result<(), Fail> {
    let f = formula(rt.alloc(), Kind::Dnf, DISJOINT)?;
    let whole = [Ok(8); 3];
    let one = by_workers(&rt, rt.alloc(), &f, 1, 8)?;
    let two = by_workers(&rt, rt.alloc(), &f, 2, 8)?;
    let three = by_workers(&rt, rt.alloc(), &f, 3, 8)?;
    assert_eq!(rt; [one, two, three], [whole; 3]);
    Ok(())
}

// A refusal at this group, whose prefix has this size.
fn over(group: u32, size: u32, limit: u32) -> Result<u32, CommandError> {
    Err(CommandError::OverLimit {
        group: Some(group),
        size,
        limit,
    })
}

/// Within 1 the first part passes the limit alone, with its size 2; within 7 no part does, and the join passes it with
/// the size 8 at the last group.
#[test]
fn a_part_passes_the_limit_or_the_join(rt: HostRuntime) -> Result<(), Fail> {
    let f = formula(rt.alloc(), Kind::Dnf, DISJOINT)?;
    let part = by_workers(&rt, rt.alloc(), &f, 2, 1)?;
    let join = by_workers(&rt, rt.alloc(), &f, 2, 7)?;
    assert_eq!(rt; [part, join], [[over(1, 2, 1); 3], [over(2, 8, 7); 3]]);
    Ok(())
}

// Whether an effect prints this line.
fn prints(effect: &Effect, line: &[u8]) -> bool {
    match effect {
        Effect::PrintLine(text) => text.as_slice() == line,
        Effect::WriteFile(_, _) => false,
    }
}

// The size of what a choice opens, within a limit and without a search, if it tells the right start; or why there is
// none.
fn size_on_the_right<R: Threads + Sync>(
    rt: &R,
    alloc: Global,
    f: &Formula,
    limit: u32,
    workers: u32,
) -> Result<u32, CommandError> {
    let settings = Settings {
        limit,
        slack: 200,
        rounds: None,
    };
    match open_chosen(
        rt,
        alloc,
        f,
        settings,
        workers.clamp(1, 16),
        [Open, Open, Open],
    ) {
        Ok(opened) => {
            let is_right = prints(&opened.told, b"start right\n") && opened.searched.is_none();
            let mut state = opened.state;
            Ok(if is_right { state.manager.total() } else { 0 })
        }
        Err(refused) => Err(refused.error),
    }
}

pub(crate) const CROSSED: &str = "p dnf 4 2\n1 3 0\n2 4 0\n";

/// Over the balanced, right and left tree the size is 14, 8 and 19, so a run goes on over the right one, whatever the
/// workers. Within 7 each passes the limit, and the balanced one tells it.
#[test]
fn the_least_start_is_opened(rt: HostRuntime) -> Result<(), Fail> {
    let f = formula(rt.alloc(), Kind::Dnf, CROSSED)?;
    let one = size_on_the_right(&rt, rt.alloc(), &f, 8, 1);
    let three = size_on_the_right(&rt, rt.alloc(), &f, 8, 3);
    let refused = size_on_the_right(&rt, rt.alloc(), &f, 7, 3);
    assert_eq!(rt; [one, three, refused], [Ok(8), Ok(8), over(2, 14, 7)]);
    Ok(())
}
