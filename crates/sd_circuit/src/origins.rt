// What defines each variable of a circuit.
ghost use Rattle.std.specs.Prelude.{◌≡◌, ◌≢◌, ℕ, ◌+◌, ◌<◌, ◌≤◌, ◌^◌, [], length, IfOk, slice_index_or};
ghost use Rattle.sd_circuit.specs.Order.{variable_of, defined_at};
ghost use Rattle.sd_circuit.specs.Circuits.{text_of};
ghost use Rattle.sd_circuit.specs.Stored.{AreOrigins, DefineVariables};

use crate::and_line::And;
use std::alloc::{AllocError, Global};

/// Of each variable what defines it: the number of an input, counted from 1, or one more than the number of inputs and
/// that of a gate.
pub(crate) fn origins_of(
    alloc: Global,
    variables: u32,
    inputs: &[u32],
    ands: &[And],
    order: &[u32],
) -> Result<Vec<u32>, AllocError>
    requires few { variables ≤ 2000000 }
    requires fits { length inputs.now + length order.now ≤ variables }
    requires defined { DefineVariables variables inputs.now ands.now order.now }
    ensures { IfOk result (λ origins. AreOrigins
        (record { text = text_of variables inputs.now [] ands.now; order = order.now }) origins.items) }
{
    let origins = vec![in alloc; 0; variables as usize + 1]?;
    let origins = with_inputs(origins, inputs);
    Ok(with_gates(origins, inputs.len() as u32, ands, order))
}

// The origins of the inputs' variables.
fn with_inputs(mut origins: Vec<u32>, inputs: &[u32]) -> Vec<u32>
    requires few { length inputs.now < 2 ^ 31 }
    requires within { (i : ℕ) → i < length inputs.now
        → variable_of (slice_index_or inputs.now i 0) < length origins.items }
    requires once { (i j : ℕ) → i < j → j < length inputs.now
        → variable_of (slice_index_or inputs.now i 0) ≢ variable_of (slice_index_or inputs.now j 0) }
    ensures each { (i : ℕ) → i < length inputs.now
        → slice_index_or result.items (variable_of (slice_index_or inputs.now i 0)) 0 ≡ i + 1 }
    ensures size { length result.items ≡ length origins.items }
{
    for i in 0..inputs.len() {
        let variable = inputs[i] as usize / 2;
        origins[variable] = i as u32 + 1;
    }
    origins
}

// The same with those of the gates; no gate defines an input's variable.
fn with_gates(mut origins: Vec<u32>, inputs: u32, ands: &[And], order: &[u32]) -> Vec<u32>
    requires few { inputs + length order.now < 2 ^ 31 }
    requires inside { (k : ℕ) → k < length order.now → slice_index_or order.now k 0 < length ands.now }
    requires within { (k : ℕ) → k < length order.now
        → defined_at ands.now (slice_index_or order.now k 0) < length origins.items }
    requires once { (j k : ℕ) → j < k → k < length order.now
        → defined_at ands.now (slice_index_or order.now j 0) ≢ defined_at ands.now (slice_index_or order.now k 0) }
    ensures each { (k : ℕ) → k < length order.now
        → slice_index_or result.items (defined_at ands.now (slice_index_or order.now k 0)) 0 ≡ inputs + k + 1 }
    ensures kept { (x : ℕ)
        → ((k : ℕ) → k < length order.now → defined_at ands.now (slice_index_or order.now k 0) ≢ x)
        → slice_index_or result.items x 0 ≡ slice_index_or origins.items x 0 }
    ensures size { length result.items ≡ length origins.items }
{
    for k in 0..order.len() {
        let line = ands[order[k] as usize];
        let variable = line.defined as usize / 2;
        origins[variable] = inputs + k as u32 + 1;
    }
    origins
}
