// The order of free runs, which no contract tells.
ghost use Rattle.std.specs.Prelude.{◌≡◌, Some, None, IfOk, OnOk};
ghost use Rattle.std.specs.FinMap.{get};
ghost use Rattle.sd_runs.specs.Taking.{KeepsLive};
ghost use Rattle.sd_call_tests.specs.Twos.{two, AreThree};

use crate::expect::are_numbers;
use sd_runs::{Runs, TakeError};
use std::alloc::Global;
use std::test::Fail;

// Takes a run of two elements.
fn take_two(runs: &mut Runs) -> Result<u32, TakeError>
    ensures fresh { IfOk result (λ start. get runs.old.live start ≡ None) }
    ensures live { IfOk result (λ start. get runs.new.live start ≡ Some two) }
    ensures kept { OnOk result (KeepsLive runs.old runs.new) }
{
    runs.take(&[(1, 2), (3, 4)])
}

// Takes three such runs.
fn take_three(runs: &mut Runs) -> Result<(u32, u32, u32), TakeError>
    ensures { IfOk result (λ r. AreThree runs.new r.0 r.1 r.2) }
{
    let first = take_two(runs)?;
    let second = take_two(runs)?;
    let third = take_two(runs)?;
    Ok((first, second, third))
}

// Gives the second of three runs, the first and the third, and puts them in order from the second on.
fn give_three(runs: &mut Runs, first: u32, second: u32, third: u32)
    requires { AreThree runs.old first second third }
{
    runs.give(second, 2);
    runs.give(first, 2);
    runs.give(third, 2);
    runs.order_twos(second);
}

// The starts of four runs, and of three more once the first three were given and put in order from the second on.
fn starts(alloc: Global) -> Result<[Option<u32>; 7], TakeError> {
    let mut runs = Runs::new(alloc, 100);
    let (a, b, c) = take_three(&mut runs)?;
    let d = take_two(&mut runs)?;
    give_three(&mut runs, a, b, c);
    let (first, second, third) = take_three(&mut runs)?;
    Ok([a, b, c, d, first, second, third].map(Some))
}

/// Three runs that are given and put in order are taken by their starts from one on, and then from the least, beside
/// one that stays.
#[test]
fn free_runs_in_order(rt: HostRuntime) -> Result<(), Fail> {
    let wanted = [0, 2, 4, 6, 2, 4, 0].map(Some);
    are_numbers(&starts(rt.alloc())?, &wanted)
}
