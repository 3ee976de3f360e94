// The choice of a start as a caller sees it. The helpers have no contract, so a test has nothing to prove.
use crate::{Settings, Start, choose_start};
use sd_compile::CompileError;
use sd_formula::{Formula, Kind, read_dimacs};
use sd_parts::Open;
use std::alloc::Global;
use std::test::Fail;
use std::thread::Threads;

// The formula of a short text.
fn formula(alloc: Global, kind: Kind, text: &str) -> Result<Formula, Fail> {
    let bytes = text.as_bytes();
    if bytes.len() > 1000 {
        return Ok(read_dimacs(alloc, b"", kind)?);
    }
    Ok(read_dimacs(alloc, bytes, kind)?)
}

// The start that is chosen and the size there, or why there is none.
fn chosen<R: Threads + Sync>(
    rt: &R,
    alloc: Global,
    f: &Formula,
    settings: Settings,
    workers: u32,
) -> Result<(Start, u32), CompileError> {
    match choose_start(
        rt,
        alloc,
        f,
        settings,
        workers.clamp(1, 16),
        [Open, Open, Open],
    ) {
        Ok(chosen) => Ok((chosen.start, chosen.size)),
        Err(refused) => Err(refused.error),
    }
}

// Compiled within this limit, and not searched.
fn within(limit: u32) -> Settings {
    Settings {
        limit,
        slack: 200,
        rounds: None,
    }
}

const CROSSED: &str = "p dnf 4 2\n1 3 0\n2 4 0\n";

// What one, two, three and sixteen workers choose.
fn by_workers<R: Threads + Sync>(
    rt: &R,
    alloc: Global,
    f: &Formula,
    settings: Settings,
) -> [Result<(Start, u32), CompileError>; 4] {
    [
        chosen(rt, alloc, f, settings, 1),
        chosen(rt, alloc, f, settings, 2),
        chosen(rt, alloc, f, settings, 3),
        chosen(rt, alloc, f, settings, 16),
    ]
}

/// Over the balanced, right and left tree the size is 14, 8 and 19, so the right one is chosen, whatever the workers.
#[test]
fn the_least_size_is_chosen(rt: HostRuntime) -> Result<(), Fail> {
    let f = formula(rt.alloc(), Kind::Dnf, CROSSED)?;
    let right = Ok((Start::Right, 8));
    assert_eq!(rt; by_workers(&rt, rt.alloc(), &f, within(1000)), [right; 4]);
    Ok(())
}

/// Within 8 the others pass the limit and the right one is chosen still; within 7 the balanced one tells the refusal.
#[test]
fn the_refusal_is_that_of_the_balanced_start(rt: HostRuntime) -> Result<(), Fail> {
    let f = formula(rt.alloc(), Kind::Dnf, CROSSED)?;
    assert_eq!(rt;
        chosen(&rt, rt.alloc(), &f, within(8), 2),
        Ok((Start::Right, 8))
    );
    let refused = Err(CompileError::OverLimit {
        group: 2,
        size: 14,
        limit: 7,
    });
    assert_eq!(rt; by_workers(&rt, rt.alloc(), &f, within(7)), [refused; 4]);
    Ok(())
}

/// Among equal sizes the first start is chosen; behind a search the sizes at its end count.
#[test]
fn the_first_among_equals_is_chosen(rt: HostRuntime) -> Result<(), Fail> {
    let none = formula(rt.alloc(), Kind::Cnf, "p cnf 4 0\n")?;
    assert_eq!(rt;
        chosen(&rt, rt.alloc(), &none, within(1), 3),
        Ok((Start::Balanced, 0))
    );
    let f = formula(rt.alloc(), Kind::Dnf, CROSSED)?;
    let searched = Settings {
        limit: 1000,
        slack: 200,
        rounds: Some(10),
    };
    assert_eq!(rt;
        chosen(&rt, rt.alloc(), &f, searched, 3),
        Ok((Start::Balanced, 6))
    );
    Ok(())
}
