// The order of a circuit's gates, each behind what it uses, or the first and-line that lies on a cycle.
ghost use Rattle.std.specs.Prelude.{◌≡◌, ◌<◌, ◌^◌, ℕ, length, IfOk, IfErr};
ghost use Rattle.sd_circuit.specs.Definers.{AreDefiners};
ghost use Rattle.sd_circuit.specs.Order.{DefineOnce, IsOrdered, CycleIsFirst};
ghost use Rattle.sd_circuit.specs.Placing.{HasCycle};

use crate::and_line::And;
use crate::cycles::{first_by_ranks, first_one_by_one};
use crate::definers::definers;
use crate::placing::place_all;
use std::alloc::Global;
use thiserror::Error;

/// Why the gates of a circuit have no order.
#[derive(Clone, Copy, Debug, PartialEq, Eq, Error)]
pub enum OrderError {
    /// What the and-line at this index defines is reached from its own right sides, and it is the first such line.
    #[error("Cycle")]
    Cycle { index: u32 },
    /// Out of memory.
    #[error("OutOfMemory")]
    OutOfMemory,
}

/// The indices of the and-lines in an order in which each stands behind those that it uses. The variables are those up
/// to a number.
pub(crate) fn order_gates(
    alloc: Global,
    variables: u32,
    ands: &[And],
) -> Result<Vec<u32>, OrderError>
    requires few { length ands.now < 2 ^ 31 }
    requires lines { DefineOnce variables ands.now }
    ensures order { IfOk result (λ order. IsOrdered ands.now order.items) }
    ensures cycle { IfErr result (CycleIsFirst ands.now) }
{
    let Ok(definers) = definers(alloc, variables, ands) else {
        return Err(OrderError::OutOfMemory);
    };
    match place_all(alloc, ands, &definers) {
        Ok(Some(order)) => Ok(order),
        Ok(None) => Err(first_on_cycle(alloc, ands, &definers)),
        Err(_) => Err(OrderError::OutOfMemory),
    }
}

// The first and-line that lies on a cycle, where there is a cycle.
fn first_on_cycle(alloc: Global, ands: &[And], definers: &[u32]) -> OrderError
    requires few { length ands.now < 2 ^ 31 }
    requires lines { (variables : ℕ) × DefineOnce variables ands.now
        × AreDefiners variables ands.now (length ands.now) definers.now }
    requires cycle { HasCycle ands.now }
    ensures { CycleIsFirst ands.now result }
{
    match first_by_ranks(alloc, ands, definers) {
        Ok(Some(index)) => OrderError::Cycle { index },
        Ok(None) => match first_one_by_one(alloc, ands, definers) {
            Ok(index) => OrderError::Cycle { index },
            Err(_) => OrderError::OutOfMemory,
        },
        Err(_) => OrderError::OutOfMemory,
    }
}
