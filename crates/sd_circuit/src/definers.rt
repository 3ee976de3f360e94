// Which and-line defines a variable.
ghost use Rattle.std.specs.Prelude.{◌≡◌, ◌<◌, ◌≤◌, ◌/◌, ◌^◌, ℕ, length, slice_index, IfOk};
ghost use Rattle.sd_circuit.specs.Definers.{AreDefiners};
ghost use Rattle.sd_circuit.specs.Order.{DefineOnce};

use crate::and_line::And;
use std::alloc::{AllocError, Global};

/// Stands where no and-line defines a variable.
pub(crate) const NO_LINE: u32 = u32::MAX;

/// The index of the and-line that defines each variable.
pub(crate) fn definers(alloc: Global, variables: u32, ands: &[And]) -> Result<Vec<u32>, AllocError>
    requires few { length ands.now < 2 ^ 31 }
    requires lines { DefineOnce variables ands.now }
    ensures table { IfOk result (λ table. AreDefiners variables ands.now (length ands.now) table.items) }
{
    let mut table = vec![in alloc; NO_LINE; variables as usize + 1]?;
    for index in 0..ands.len() as u32 {
        let and = ands[index as usize];
        table[(and.defined / 2) as usize] = index;
    }
    Ok(table)
}
