// Compiling in an arena that is small, group after group, and what a large diagram leaves.
use sd_cache::Cache;
use sd_compile::{add_group, begin, compile, finish};
use sd_formula::{Formula, Kind, read_dimacs};
use sd_manager::Manager;
use sd_vtree::Vtree;
use std::alloc::Global;
use std::test::Fail;

// The formula of a short text.
pub(crate) fn formula(alloc: Global, kind: Kind, text: &str) -> Result<Formula, Fail> {
    let bytes = text.as_bytes();
    if bytes.len() > 1000 {
        return Ok(read_dimacs(alloc, b"", kind)?);
    }
    Ok(read_dimacs(alloc, bytes, kind)?)
}

// Takes away what nothing uses, in at most so many steps.
fn sweep_in_steps(m: &mut Manager, steps: u32) {
    for _step in 0..steps {
        let Some(number) = m.idle() else {
            return;
        };
        m.retire(number);
        m.retire_twos();
    }
}

// Compiles a formula in an arena of a million elements or fewer, lets the root go, and takes away what died in 5,000
// steps. Answers what is idle then and how many elements are left, and (Some(0), 0) where the variables are not the
// vtree's.
fn compiled_and_dead(
    alloc: Global,
    vtree: Vtree,
    f: &Formula,
    bound: u32,
) -> Result<(Option<u32>, u32), Fail> {
    if vtree.variables() != f.variables() {
        return Ok((Some(0), 0));
    }
    let mut m = Manager::new(alloc, vtree, bound.min(1_000_000))?;
    let mut c = Cache::new(alloc)?;
    let root = compile(alloc, &mut m, &mut c, f, 1_000_000)?;
    m.release(root);
    sweep_in_steps(&mut m, 5_000);
    Ok((m.idle(), m.used()))
}

const WIDE: &str = "p cnf 64 1
1 2 3 4 5 6 7 8 9 10 11 12 13 14 15 16 17 18 19 20 21 22
23 24 25 26 27 28 29 30 31 32 33 34 35 36 37 38 39 40 41 42 43 44
45 46 47 48 49 50 51 52 53 54 55 56 57 58 59 60 61 62 63 64 0
";

const PAIRS: &str = "p cnf 30 15
1 16 0 2 17 0 3 18 0 4 19 0 5 20 0 6 21 0 7 22 0 8 23 0
9 24 0 10 25 0 11 26 0 12 27 0 13 28 0 14 29 0 15 30 0
";

/// On the left vtree the room that a clause takes is in proportion to its width: 4,000 elements are enough for 64
/// literals, where one literal joined after another would take twice as many.
#[test]
fn a_wide_clause_on_the_left_vtree(rt: HostRuntime) -> Result<(), Fail> {
    let alloc = rt.alloc();
    let f = formula(alloc, Kind::Cnf, WIDE)?;
    let left = compiled_and_dead(alloc, Vtree::left(alloc, 64)?, &f, 4_000)?;
    assert_eq!(rt; left, (None, 0));
    Ok(())
}

/// What dies with the root of a diagram of 65,519 nodes, and what compiling left beside it, goes in 5,000 steps: a 32nd
/// of the table one by one, and the rest in one loop.
#[test]
fn a_large_diagram_dies_in_few_steps(rt: HostRuntime) -> Result<(), Fail> {
    let alloc = rt.alloc();
    let f = formula(alloc, Kind::Cnf, PAIRS)?;
    let left = compiled_and_dead(alloc, Vtree::right(alloc, 30)?, &f, 1_000_000)?;
    assert_eq!(rt; left, (None, 0));
    Ok(())
}

// The size behind three groups that are joined one after another on the balanced vtree within the limit 8, or 0 where
// there are not three groups over four variables.
fn size_of_three(alloc: Global, f: &Formula) -> Result<u32, Fail> {
    let vtree = Vtree::balanced(alloc, 4)?;
    if vtree.variables() != f.variables() || f.groups() != 3 {
        return Ok(0);
    }
    let mut m = Manager::new(alloc, vtree, 1000)?;
    let mut c = Cache::new(alloc)?;
    let mut work = begin(&mut m, f)?;
    add_group(alloc, &mut m, &mut c, f, &mut work, 8)?;
    add_group(alloc, &mut m, &mut c, f, &mut work, 8)?;
    add_group(alloc, &mut m, &mut c, f, &mut work, 8)?;
    let _ = finish(work);
    Ok(m.total())
}

/// `1 and 2`, beside it `3 and 4`, which have the size 8, and then `1 and -2`: all are `1 or (3 and 4)`.
#[test]
fn group_after_group(rt: HostRuntime) -> Result<(), Fail> {
    let alloc = rt.alloc();
    let f = formula(alloc, Kind::Dnf, "p dnf 4 3\n1 2 0\n3 4 0\n1 -2 0\n")?;
    assert_eq!(rt; size_of_three(alloc, &f)?, 4);
    Ok(())
}
