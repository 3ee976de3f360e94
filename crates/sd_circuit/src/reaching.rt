// What an and-line leads to, found by a search in rounds.
ghost use Rattle.std.specs.Prelude.{◌≡◌, ◌<◌, ◌^◌, ℕ, length, true, false, IfOk, OnOk};
ghost use Rattle.sd_circuit.specs.Definers.{AreDefiners};
ghost use Rattle.sd_circuit.specs.Order.{DefineOnce, Uses, leads_within, is_on_cycle};
ghost use Rattle.sd_circuit.specs.Placing.{is_marked};
ghost use Rattle.sd_circuit.specs.Reaching.{AreReached, AddsTo, AreUsesMarked, Marks};

use crate::and_line::And;
use std::alloc::{AllocError, Global};

// Marks an and-line, which comes to the end of the queue, unless it is marked or there is none of this index.
fn mark(queue: &mut Vec<u32>, marks: &mut [bool], line: u32) -> Result<(), AllocError>
    ensures { OnOk result (Marks line queue.old.items queue.new.items marks.old marks.new) }
{
    if (line as usize) < marks.len() && !marks[line as usize] {
        marks[line as usize] = true;
        queue.push(line)?;
    }
    Ok(())
}

// Marks what an and-line uses. That is reached in time from the source.
fn mark_uses(
    ands: &[And],
    definers: &[u32],
    source: u32,
    queue: &mut Vec<u32>,
    marks: &mut [bool],
    line: u32,
) -> Result<(), AllocError>
    requires inside { line < length ands.now }
    requires lines { (variables : ℕ) × DefineOnce variables ands.now
        × AreDefiners variables ands.now (length ands.now) definers.now }
    requires state { AreReached ands.now source queue.old.items marks.old }
    requires in_time { (used : ℕ) → used < length ands.now → Uses ands.now line used
        → leads_within ands.now (length queue.old.items) source used ≡ true }
    ensures state { OnOk result (AreReached ands.now source queue.new.items marks.new) }
    ensures added { OnOk result (AddsTo queue.old.items queue.new.items marks.old marks.new) }
    ensures marked { OnOk result (AreUsesMarked ands.now marks.new line) }
{
    let and = ands[line as usize];
    mark(queue, marks, definers[(and.first / 2) as usize])?;
    mark(queue, marks, definers[(and.second / 2) as usize])?;
    Ok(())
}

/// Whether an and-line lies on a cycle. In the time that it takes to look at all that it leads to.
pub(crate) fn lies_on_cycle(
    alloc: Global,
    ands: &[And],
    definers: &[u32],
    line: u32,
) -> Result<bool, AllocError>
    requires inside { line < length ands.now }
    requires lines { (variables : ℕ) × DefineOnce variables ands.now
        × AreDefiners variables ands.now (length ands.now) definers.now }
    ensures yes { IfOk result (λ lies. lies ≡ true → is_on_cycle ands.now line ≡ true) }
    ensures no { IfOk result (λ lies. lies ≡ false → (n : ℕ) → leads_within ands.now n line line ≡ false) }
{
    let mut queue = Vec::new(alloc);
    let mut marks = vec![in alloc; false; ands.len()]?;
    mark_uses(ands, definers, line, &mut queue, &mut marks, line)?;
    let mut next = 0;
    while next < queue.len() {
        let reached = queue[next];
        mark_uses(ands, definers, line, &mut queue, &mut marks, reached)?;
        next += 1;
    }
    Ok(marks[line as usize])
}
