// And-lines placed one by one, each behind those that it uses, by a search with a stack of its own.
ghost use Rattle.std.specs.Prelude.{◌≡◌, ◌<◌, ◌≤◌, ◌-◌, ◌+◌, ◌++◌, ◌∷◌, [], ◌^◌, ℕ, length, take, slice_set};
ghost use Rattle.std.specs.Prelude.{true, false, IfOk, OnOk, IfSome, IfNone};
ghost use Rattle.sd_circuit.specs.Definers.{AreDefiners};
ghost use Rattle.sd_circuit.specs.Order.{DefineOnce, IsOrdered, Uses};
ghost use Rattle.sd_circuit.specs.Placing.{IsPlacing, HasCycle, StayMarked, is_marked, placing_work};
ghost use Rattle.sd_circuit.specs.Reaching.{AreUsesMarked};

use crate::and_line::And;
use std::alloc::{AllocError, Global};

// Whether there is an and-line of this index and it is not placed.
fn is_open(placed: &[bool], line: u32) -> bool
    ensures yes { result ≡ true → (line < length placed.now) × (is_marked placed.now line ≡ false) }
    ensures no { result ≡ false → line < length placed.now → is_marked placed.now line ≡ true }
{
    (line as usize) < placed.len() && !placed[line as usize]
}

// An and-line that this one uses and that is not placed, or none.
fn open_use(ands: &[And], definers: &[u32], placed: &[bool], line: u32) -> Option<u32>
    requires inside { line < length ands.now }
    requires size { length placed.now ≡ length ands.now }
    requires lines { (variables : ℕ) × DefineOnce variables ands.now
        × AreDefiners variables ands.now (length ands.now) definers.now }
    ensures none { IfNone result (AreUsesMarked ands.now placed.now line) }
    ensures some { IfSome result (λ used. (used < length ands.now) × Uses ands.now line used
        × (is_marked placed.now used ≡ false)) }
{
    let and = ands[line as usize];
    let first = definers[(and.first / 2) as usize];
    if is_open(placed, first) {
        return Some(first);
    }
    let second = definers[(and.second / 2) as usize];
    if is_open(placed, second) {
        return Some(second);
    }
    None
}

// Meets an and-line, which comes on top of the stack.
fn enter(stack: &mut Vec<u32>, met: &mut [bool], line: u32) -> Result<(), AllocError>
    requires inside { line < length met.old }
    ensures stack { OnOk result (stack.new.items ≡ stack.old.items ++ line ∷ []) }
    ensures met { met.new ≡ slice_set met.old line true }
{
    met[line as usize] = true;
    stack.push(line)?;
    Ok(())
}

// Places the and-line on top of the stack.
fn place_top(
    order: &mut Vec<u32>,
    stack: &mut Vec<u32>,
    placed: &mut [bool],
    top: u32,
) -> Result<(), AllocError>
    requires inside { top < length placed.old }
    requires top { 0 < length stack.old.items }
    ensures order { OnOk result (order.new.items ≡ order.old.items ++ top ∷ []) }
    ensures stack { stack.new.items ≡ take (length stack.old.items - 1) stack.old.items }
    ensures placed { placed.new ≡ slice_set placed.old top true }
{
    placed[top as usize] = true;
    let _ = stack.pop();
    order.push(top)?;
    Ok(())
}

// One step of the search: the and-line on top of the stack is placed where all that it uses is placed, else one that it
// uses and that is not placed comes above it. Answers whether the step could be made: it can't where that one is in
// hand.
fn step(
    ands: &[And],
    definers: &[u32],
    order: &mut Vec<u32>,
    stack: &mut Vec<u32>,
    met: &mut [bool],
    placed: &mut [bool],
) -> Result<bool, AllocError>
    requires some { 0 < length stack.old.items }
    requires state { IsPlacing ands.now order.old.items stack.old.items met.old placed.old }
    requires lines { (variables : ℕ) × DefineOnce variables ands.now
        × AreDefiners variables ands.now (length ands.now) definers.now }
    ensures state { IfOk result (λ made. made ≡ true
        → IsPlacing ands.now order.new.items stack.new.items met.new placed.new) }
    ensures met { StayMarked met.old met.new }
    ensures kept { StayMarked placed.old placed.new }
    ensures less { IfOk result (λ made. made ≡ true
        → placing_work met.new placed.new < placing_work met.old placed.old) }
    ensures cycle { IfOk result (λ made. made ≡ false → HasCycle ands.now) }
{
    let top = stack[stack.len() - 1];
    let Some(used) = open_use(ands, definers, placed, top) else {
        place_top(order, stack, placed, top)?;
        return Ok(true);
    };
    if met[used as usize] {
        return Ok(false);
    }
    enter(stack, met, used)?;
    Ok(true)
}

// Places an and-line behind all that it leads to. Answers whether that could be done.
fn place_from(
    ands: &[And],
    definers: &[u32],
    order: &mut Vec<u32>,
    stack: &mut Vec<u32>,
    met: &mut [bool],
    placed: &mut [bool],
    line: u32,
) -> Result<bool, AllocError>
    requires inside { line < length ands.now }
    requires empty { stack.old.items ≡ [] }
    requires state { IsPlacing ands.now order.old.items stack.old.items met.old placed.old }
    requires lines { (variables : ℕ) × DefineOnce variables ands.now
        × AreDefiners variables ands.now (length ands.now) definers.now }
    ensures state { IfOk result (λ made. made ≡ true → (stack.new.items ≡ [])
        × IsPlacing ands.now order.new.items stack.new.items met.new placed.new) }
    ensures kept { StayMarked placed.old placed.new }
    ensures done { IfOk result (λ made. made ≡ true → is_marked placed.new line ≡ true) }
    ensures cycle { IfOk result (λ made. made ≡ false → HasCycle ands.now) }
{
    if placed[line as usize] {
        return Ok(true);
    }
    enter(stack, met, line)?;
    while !stack.is_empty() {
        if !step(ands, definers, order, stack, met, placed)? {
            return Ok(false);
        }
    }
    Ok(true)
}

/// The and-lines in an order in which each stands behind those that it uses, or none where there is a cycle. Each
/// and-line is looked at three times at most.
pub(crate) fn place_all(
    alloc: Global,
    ands: &[And],
    definers: &[u32],
) -> Result<Option<Vec<u32>>, AllocError>
    requires few { length ands.now < 2 ^ 31 }
    requires lines { (variables : ℕ) × DefineOnce variables ands.now
        × AreDefiners variables ands.now (length ands.now) definers.now }
    ensures order { IfOk result (λ o. IfSome o (λ order. IsOrdered ands.now order.items)) }
    ensures cycle { IfOk result (λ o. IfNone o (HasCycle ands.now)) }
{
    let mut order = Vec::with_capacity(alloc, ands.len())?;
    let mut stack = Vec::new(alloc);
    let mut met = vec![in alloc; false; ands.len()]?;
    let mut placed = vec![in alloc; false; ands.len()]?;
    for line in 0..ands.len() as u32 {
        if !place_from(
            ands,
            definers,
            &mut order,
            &mut stack,
            &mut met,
            &mut placed,
            line,
        )? {
            return Ok(None);
        }
    }
    Ok(Some(order))
}
